// Scripts: what is called at which instant, read from bytes, exactly, and brought into time order.
#![tactic(auto)]

mod agenda;
mod due;
mod line;
mod number;
mod reader;
mod script;

pub use agenda::Agenda;
pub use due::Due;
pub use line::{Command, Line};
pub use script::{MOST_SCRIPT_BYTES, Script};
