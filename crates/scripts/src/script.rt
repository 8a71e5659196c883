// A script: valid by its type.
ghost use Rattle.std.specs.Prelude.{◌≡◌, ◌≤◌, true, vec_len};
ghost use Rattle.scripts.specs.Lines.{valid_lines};

use crate::line::Line;

mod methods;

pub use methods::MOST_SCRIPT_BYTES;

// The lines in their own order, at most 1,024: each instant is up to the horizon.
#[derive(Drop)]
pub struct Script {
    lines: Vec<Line>,
    ghost few: { vec_len lines ≤ 1024 },
    ghost ok: { valid_lines lines.items ≡ true },
}
