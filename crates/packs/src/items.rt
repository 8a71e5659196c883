// The items of a pack, one after another.
ghost use Rattle.packs.specs.Items.{items};
ghost use Rattle.packs.specs.Left.{left_in};
ghost use Rattle.std.specs.Iterator.{YieldsFirstRef, item_count};
ghost use Rattle.std.specs.Prelude.{◌≡◌};

use crate::split_item;

// What is left of a pack: it gives each whole item, and ends at the first that is not.
#[derive(Drop)]
pub struct Items<'a> {
    rest: &'a [u8],
}

impl<'a> Items<'a> {
    pub fn new(pack: &'a [u8]) -> Items<'a>
        ensures answer { left_in result ≡ items pack.now }
    {
        Items { rest: pack }
    }
}

impl<'a> Iterator for Items<'a> {
    type Item = &'a [u8];

    ghost next_gives = { YieldsFirstRef left_in };

    ghost remaining = { item_count left_in };

    #[tactic(auto, using(crate::proofs::Firsts::items_first, crate::proofs::Firsts::items_none))]
    fn next(&mut self) -> Option<&'a [u8]> {
        let (item, rest) = split_item(self.rest)?;
        self.rest = rest;
        Some(item)
    }
}
