// The entries of a queue.
ghost use Rattle.queues.specs.Entries.{entry_order};
ghost use Rattle.std.proofs.Common.{rules};

use heaps::{Ordered, Strict};

// A server at an instant: by instant, and at one instant by server.
#[derive(Clone, Copy, Debug, Default, PartialEq, Eq, PartialOrd, Ord)]
pub struct Entry {
    pub instant: u64,
    pub server: u8,
}

// As it is derived.
impl Ordered for Entry {
    ghost at_or_before = { entry_order };

    ghost total = { Prim.search rules };

    ghost carries = { Prim.search rules };

    fn at_or_before(&self, other: &Entry) -> bool {
        self <= other
    }
}

impl Strict for Entry {
    ghost same = { Prim.search rules };
}
