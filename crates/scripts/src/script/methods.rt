// Reading a script.
ghost use Rattle.scripts.specs.Reads.{Read, lines_of, script_fault_of};
ghost use Rattle.std.specs.Prelude.{◌≡◌};

use crate::line::Line;
use crate::reader::read_line;
use crate::script::Script;
use limits::{Fault, Layer, ReadError, Refusal};
use std::alloc::Global;

// The most lines of a script.
const MOST_LINES: usize = 1_024;

// The longest script, in bytes: one byte more decides that bytes are no script.
pub const MOST_SCRIPT_BYTES: u64 = 24_576;

// The fault of a script at a line.
fn script_fault(place: usize) -> Fault
    ensures answer { result ≡ script_fault_of place }
{
    Fault {
        layer: Layer::Script,
        refusal: Refusal::ScriptForm,
        place,
    }
}

impl Script {
    // The script that the bytes are the text of, or the first line at fault.
    pub fn read(heap: Global, bytes: &[u8]) -> Result<Script, ReadError>
        ensures answer { Read bytes.now result }
    {
        let mut lines = Vec::new(heap);
        let mut rest = bytes;
        while !rest.is_empty() {
            let place = lines.len() + 1;
            if place > MOST_LINES {
                return Err(script_fault(place).into());
            }
            let (line, after) = read_line(rest).ok_or(script_fault(place))?;
            lines.push(line)?;
            rest = after;
        }
        Ok(Script { lines })
    }

    // The lines, in their own order.
    pub fn lines(&self) -> &[Line]
        ensures answer { result.now ≡ lines_of self.now }
    {
        self.lines.as_slice()
    }
}
