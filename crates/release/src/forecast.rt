// The forecast end of an action.
ghost use Rattle.release.specs.Actions.{action};
ghost use Rattle.release.specs.Forecasts.{ForecastLaw};
ghost use Rattle.release.specs.Openings.{forecast_answer};
ghost use Rattle.std.specs.Prelude.{◌≡◌};

use crate::opening::open_action;
use crate::rule::ReleaseRule;
use limits::{Refusal, Task};

// The end of the first stretch after which no load is left. Refuses as open_action does.
pub fn forecast_end<R: ReleaseRule>(rule: &R, arrival: u64, task: Task) -> Result<u64, Refusal>
    ensures answer { result ≡ forecast_answer (R.amount rule.now) (action arrival task.load task.limit task.period) }
    ensures law { ForecastLaw (R.amount rule.now) }
{
    open_action(rule, arrival, task).map(|opening| opening.end)
}
