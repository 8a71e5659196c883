// The calls that move the clock: tick and advance.
ghost use Rattle.board.specs.Boards.{model};
ghost use Rattle.slots.specs.Advances.{Allowed, Largest, advance_after, advance_refusal, advanced, leapt, span, turns};
ghost use Rattle.slots.specs.Steps.{NobodyLate, Punctual, ServesAtWork, judged, tick_after, tick_refusal, ticked};
ghost use Rattle.std.specs.Prelude.{◌≡◌, false, is_ok, IfOk};

use super::Board;
use limits::{HORIZON, Refusal};
use queues::Queue;
use release::ReleaseRule;
use slots::{Advanced, Ticked};

impl<R: ReleaseRule, Q: Queue, C: Queue> Board<R, Q, C> {
    // How many ticks an advance by `count` makes.
    fn reach(&self, count: u64) -> u64
        ensures answer { result ≡ span (model self.now) count }
    {
        let most = count.min(HORIZON - self.clock);
        self.table.unserved(self.table.until_end(self.clock, most))
    }

    // Makes some ticks at once, all of which serve the same server or none. A stretch may end with the last.
    fn pass(&mut self, ticks: u64) -> Advanced
        requires { Allowed (model self.old) ticks ticks }
        ensures answer { result ≡ leapt (model self.old) ticks }
        ensures after { model self.new ≡ turns ticks (model self.old) }
        ensures rule { self.new.rule ≡ self.old.rule }
    {
        let served = self.table.serve(ticks);
        self.clock += ticks;
        let sets = self.table.close(self.clock);
        Advanced {
            served,
            ticks,
            sets,
        }
    }

    // Serves the first server of the ready queue for one tick, or none; then each stretch that ends is closed.
    pub fn tick(&mut self) -> Result<Ticked, Refusal>
        ensures answer { result ≡ judged (tick_refusal (model self.old)) (ticked (model self.old)) }
        ensures after { model self.new ≡ tick_after (model self.old) }
        ensures punctual { Punctual result }
        ensures at_work { IfOk result (λ t. ServesAtWork (model self.old) t.served) }
        ensures stays { is_ok result ≡ false → self.new ≡ self.old }
        ensures rule { self.new.rule ≡ self.old.rule }
    {
        if self.clock >= HORIZON {
            return Err(Refusal::ClockAtHorizon);
        }
        let run = self.pass(1);
        Ok(Ticked {
            served: run.served,
            sets: run.sets,
        })
    }

    // Makes the largest number of ticks up to `count` and the horizon that all serve the same server or none, and of
    // which only the last may give a set that is not empty. It makes them in one leap.
    pub fn advance(&mut self, count: u64) -> Result<Advanced, Refusal>
        ensures answer { result ≡ judged (advance_refusal (model self.old) count) (advanced (model self.old) count) }
        ensures after { model self.new ≡ advance_after (model self.old) count }
        ensures largest { IfOk result (λ a. Largest (model self.old) count a.ticks) }
        ensures punctual { IfOk result (λ a. NobodyLate a.sets) }
        ensures at_work { IfOk result (λ a. ServesAtWork (model self.old) a.served) }
        ensures stays { is_ok result ≡ false → self.new ≡ self.old }
        ensures rule { self.new.rule ≡ self.old.rule }
    {
        if count < 1 || count > HORIZON {
            return Err(Refusal::AdvanceCount);
        }
        if self.clock >= HORIZON {
            return Err(Refusal::ClockAtHorizon);
        }
        let ticks = self.reach(count);
        Ok(self.pass(ticks))
    }
}
