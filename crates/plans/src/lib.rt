// Plans: which servers a rig has and which actions each owes, read from bytes, exactly.
#![tactic(auto)]

mod entry;
mod fault;
mod kind;
mod listing;
mod numbered;
mod plan;
mod record;
mod server;

pub use plan::{MOST_PLAN_BYTES, Plan};
pub use server::{Action, Server};

#[cfg(test)]
mod tests;
