// Slots: what each server is doing, what each call makes of it, and the proof that no stretch ends unserved.
#![tactic(auto)]

mod figures;
mod sets;
mod slot;

pub use bits::ServerSet;
pub use figures::figures_hold;
pub use sets::{Advanced, Sets, Ticked};
pub use slot::{Closed, Slot, Work};
