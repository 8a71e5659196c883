// What is known of an action when it starts.
ghost use Rattle.std.specs.Prelude.{◌≡◌, ◌+◌, ◌*◌, ◌≤◌, if◌then◌else◌, nat_lt};
ghost use Rattle.limits.specs.Ranges.{horizon, most_ticks};
ghost use Rattle.release.specs.Actions.{action, ceil};
ghost use Rattle.release.specs.Openings.{opening_answer};

use crate::boundary::first_boundary;
use crate::rule::ReleaseRule;
use limits::{HORIZON, Refusal, Task};

// The first boundary, the first amount (0 where the arrival is the boundary) and the forecast end.
#[derive(Clone, Copy)]
pub struct Opening {
    pub boundary: u64,
    pub amount: u32,
    pub end: u64,
}

// Refuses a load, a period or a limit out of range, and then a forecast end past the horizon.
pub fn open_action<R: ReleaseRule>(rule: &R, arrival: u64, task: Task) -> Result<Opening, Refusal>
    ensures answer { result ≡ opening_answer (R.amount rule.now) (action arrival task.load task.limit task.period) }
{
    task.check()?;
    let boundary = first_boundary(arrival, task.period)
        .filter(|boundary| *boundary <= HORIZON)
        .ok_or(Refusal::ForecastPastHorizon)?;
    let amount = counted_amount(rule, arrival, boundary, task);
    let end = last_end(boundary, task.load.saturating_sub(amount), task);
    (end <= HORIZON)
        .then_some(Opening {
            boundary,
            amount,
            end,
        })
        .ok_or(Refusal::ForecastPastHorizon)
}

// The first amount counts only where the arrival lies before the boundary.
fn counted_amount<R: ReleaseRule>(rule: &R, arrival: u64, boundary: u64, task: Task) -> u32
    ensures answer { result ≡ (if nat_lt arrival boundary then R.amount rule.now task.limit task.period arrival boundary else 0) }
{
    if arrival < boundary {
        rule.first_amount(task.limit, task.period, arrival, boundary)
    } else {
        0
    }
}

// One period after the boundary for each limit, whole or begun, of the load that is left there.
fn last_end(boundary: u64, left: u32, task: Task) -> u64
    requires boundary { boundary ≤ horizon }
    requires limit { 1 ≤ task.limit }
    requires period { task.period ≤ most_ticks }
    ensures answer { result ≡ boundary + ceil left task.limit * task.period }
{
    boundary + left.div_ceil(task.limit) as u64 * task.period as u64
}
