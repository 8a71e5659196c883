// A window over any queue: the entries of 64 instants as bits, and the others below.
#![tactic(auto)]

mod marks;
mod window;

pub use window::Window;
