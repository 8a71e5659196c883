// The timer sheet: the calls that a script asks of a board and their answers, and the runs of ticks between them, line
// by line.
#![tactic(auto)]

mod line;
mod output;
mod play;
mod run;
mod text;

pub use line::SheetLine;
pub use output::{write_lines, write_sheet};
pub use plans::MOST_PLAN_BYTES;
pub use run::Run;
pub use scripts::MOST_SCRIPT_BYTES;
pub use text::{push_line, push_lines, push_sheet};
