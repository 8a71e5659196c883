// The table of the slots.
ghost use Rattle.board.specs.Fits.{end_at, noted, wait_at};
ghost use Rattle.std.specs.Prelude.{◌≡◌, ℕ};

use queues::Queue;
use slots::Slot;

mod methods;

// One slot a server, the first for server 1. The ready queue holds the servers whose present stretch has amount
// unserved, the calendar those at work, each at the end of that stretch.
#[derive(Drop)]
pub(crate) struct Table<Q: Queue, C: Queue> {
    slots: [Slot; 64],
    ready: Q,
    calendar: C,
    ghost waiting: { (k : ℕ) → Q.due ready k ≡ noted wait_at slots k },
    ghost working: { (k : ℕ) → C.due calendar k ≡ noted end_at slots k },
}
