// Calls, answers and the share law: what the answers of a board to any list of calls have in common.
#![tactic(auto)]

mod calls;
mod examples;
mod playing;

pub use calls::{Answer, Call, Outcome};
pub use examples::examples_hold;
pub use playing::{perform, play};

#[cfg(test)]
mod tests;
