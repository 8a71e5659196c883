// A heap in lent memory.
ghost use Rattle.std.specs.Prelude.{◌≤◌};
ghost use Rattle.heaps.specs.Held.{held as entries, room};
ghost use Rattle.limits.specs.Ranges.{servers};
ghost use Rattle.queues.specs.Entries.{Proper};
ghost use Rattle.queues.specs.Lists.{Distinct, sought};
ghost use Rattle.queues.specs.Words.{Worded};
ghost use Rattle.std.proofs.Props.{props};
ghost use Rattle.std.specs.List.{AllByRecursion};

use crate::entry::Entry;
use bits::ServerSet;
use heaps::Heap;
use limits::Refusal;

mod methods;

// The heap has a place for each server. `held` has the servers that have an entry.
#[derive(Drop)]
pub struct HeapQueue<'a> {
    heap: Heap<'a, Entry>,
    held: ServerSet,
    ghost long: { servers ≤ room heap },
    ghost apart: { Distinct (entries heap) },
    ghost bounded: { AllByRecursion Proper (entries heap) } by { Prim.hlevel props },
    ghost word: { Worded (sought (entries heap)) held.word },
}

// Memory that is too little, as it was lent.
#[derive(Drop)]
pub struct Returned<'a> {
    pub refusal: Refusal,
    pub memory: &'a mut [Entry],
}
