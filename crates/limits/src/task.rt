// The task of an action, and its check.
ghost use Rattle.limits.specs.Checks.{action_check};
ghost use Rattle.std.specs.Result.{result_err};
ghost use Rattle.std.specs.Prelude.{◌≡◌};

use crate::ranges::MOST_TICKS;
use crate::refusal::Refusal;

// What an action asks of the processor: its load in ticks, of which at most `limit` are served in each `period`. Plain
// numbers, which may be anything.
#[derive(Clone, Copy, PartialEq, Eq, Debug)]
pub struct Task {
    pub load: u32,
    pub limit: u32,
    pub period: u32,
}

impl Task {
    // Refuses a load, a period or a limit out of range, the load first and the limit last.
    pub fn check(self) -> Result<(), Refusal>
        ensures answer { result_err result ≡ action_check self.load self.limit self.period }
    {
        if !(1..=MOST_TICKS).contains(&self.load) {
            return Err(Refusal::Load);
        }
        if !(1..=MOST_TICKS).contains(&self.period) {
            return Err(Refusal::Period);
        }
        if !(1..=self.period).contains(&self.limit) {
            return Err(Refusal::Limit);
        }
        Ok(())
    }
}
