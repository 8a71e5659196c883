// What a tick and an advance answer.
use bits::ServerSet;

// The servers whose next stretch began, whose action ended, and whose stretch ended unserved.
#[derive(Clone, Copy, PartialEq, Eq, Debug)]
pub struct Sets {
    pub released: ServerSet,
    pub ended: ServerSet,
    pub late: ServerSet,
}

// One tick: the server that was served, if there was one, and the sets.
#[derive(Clone, Copy, PartialEq, Eq, Debug)]
pub struct Ticked {
    pub served: Option<u8>,
    pub sets: Sets,
}

// A run of ticks: the server that all of them served, if there was one, how many they were, and the sets of the last.
#[derive(Clone, Copy, PartialEq, Eq, Debug)]
pub struct Advanced {
    pub served: Option<u8>,
    pub ticks: u64,
    pub sets: Sets,
}
