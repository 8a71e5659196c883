// When a line is due.
ghost use Rattle.scripts.specs.Dues.{due_order};
ghost use Rattle.std.proofs.Common.{rules};

use heaps::{Ordered, Strict};

// The instant of a line and its place in the script, counted from 0: by instant, and in one instant by place.
#[derive(Clone, Copy, Debug, PartialEq, Eq, PartialOrd, Ord)]
pub struct Due {
    pub instant: u64,
    pub place: usize,
}

// As it is derived.
impl Ordered for Due {
    ghost at_or_before = { due_order };

    ghost total = { Prim.search rules };

    ghost carries = { Prim.search rules };

    fn at_or_before(&self, other: &Due) -> bool {
        self <= other
    }
}

impl Strict for Due {
    ghost same = { Prim.search rules };
}
