// An ordered row.
ghost use Rattle.queues.specs.Entries.{Proper};
ghost use Rattle.queues.specs.Lists.{Distinct, sought};
ghost use Rattle.queues.specs.Rows.{Falls};
ghost use Rattle.queues.specs.Words.{Worded};
ghost use Rattle.std.proofs.Props.{props};
ghost use Rattle.std.specs.List.{AllByRecursion};

use crate::entry::Entry;
use arrayvec::ArrayVec;
use bits::ServerSet;

mod methods;

// Each entry comes before those left of it, so that the first entry stands last. `held` has the servers that have one.
#[derive(Drop)]
pub struct Row {
    entries: ArrayVec<Entry, 64>,
    held: ServerSet,
    ghost falls: { Falls entries.items },
    ghost apart: { Distinct entries.items },
    ghost bounded: { AllByRecursion Proper entries.items } by { Prim.hlevel props },
    ghost word: { Worded (sought entries.items) held.word },
}
