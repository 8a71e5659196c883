// One action on paper: release rules, boundaries, and the end of an action when it starts.
#![tactic(auto)]

mod boundary;
mod early;
mod figures;
mod forecast;
mod late;
mod opening;
mod rule;

pub use boundary::first_boundary;
pub use early::Early;
pub use figures::figures_hold;
pub use forecast::forecast_end;
pub use late::Late;
pub use opening::{Opening, open_action};
pub use rule::ReleaseRule;

#[cfg(test)]
mod tests;
