// What every layer shares: the ranges of the subject, the refusals with their fixed numbers, and the faults of input.
#![tactic(auto)]

mod fault;
mod ranges;
mod refusal;
mod task;

pub use fault::{Fault, Layer, ReadError};
pub use ranges::{CAP_UNIT, HORIZON, MOST_TICKS, SERVERS, check_cap, check_server};
pub use refusal::{Refusal, refusal_number};
pub use task::Task;
