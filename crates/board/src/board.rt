// The board and its making.
ghost use Rattle.board.specs.Fits.{AllLast, Sound-prop};
ghost use Rattle.limits.specs.Ranges.{horizon};
ghost use Rattle.slots.specs.Slots.{Sound, cap_of, total};
ghost use Rattle.slots.specs.Steps.{fresh};
ghost use Rattle.std.specs.Prelude.{◌≡◌, ◌≤◌};

use crate::table::Table;
use queues::Queue;
use release::ReleaseRule;

mod advances;
mod calls;

// `held` is the sum of the caps. The demand of the slots keeps to their caps, and every action ends by the horizon.
// That a call leaves the rule as it was stands in the contract of each: a type tells nothing of before and after.
#[derive(Drop)]
pub struct Board<R: ReleaseRule, Q: Queue, C: Queue> {
    rule: R,
    clock: u64,
    held: u64,
    table: Table<Q, C>,
    ghost early: { clock ≤ horizon },
    ghost caps: { held ≡ total cap_of table.slots },
    ghost sound: { Sound clock table.slots } by { Sound-prop clock table.slots },
    ghost lasting: { AllLast table.slots },
}

impl<R: ReleaseRule, Q: Queue, C: Queue> Board<R, Q, C> {
    ghost use Rattle.board.specs.Boards.{model};

    // A board at instant 0 without servers. Every entry is first taken out of both queues.
    #[inline]
    pub fn new(rule: R, ready: Q, calendar: C) -> Board<R, Q, C>
        ensures answer { model result ≡ fresh }
        ensures rule { result.rule ≡ rule }
    {
        Board {
            rule,
            clock: 0,
            held: 0,
            table: Table::new(ready, calendar),
        }
    }

    // The instant that the board has come to.
    pub fn clock(&self) -> u64
        ensures answer { result ≡ (model self.now).clock }
    {
        self.clock
    }
}
