// Reads one line of a script from the front of a text.
ghost use Rattle.scripts.specs.Fields.{After, CommandRead, FieldBefore, LineRead, NumberBefore, StartRead, byte_of};

use crate::line::{Command, Line};
use crate::number::{End, number_before};
use limits::HORIZON;

// A number up to 255 that `end` ends, and the text after that.
fn byte_before(text: &[u8], end: End) -> Option<(u8, &[u8])>
    ensures answer { NumberBefore text.now (byte_of end) 255 result }
{
    let (number, rest) = number_before(text, end, 255)?;
    Some((number as u8, rest))
}

// The text after a byte, if it begins with that one.
fn after(text: &[u8], byte: u8) -> Option<&[u8]>
    ensures answer { After text.now byte result }
{
    let (first, rest) = text.split_first()?;
    if *first != byte {
        return None;
    }
    Some(rest)
}

// A space, then a number up to 255 that `end` ends, and the text after that.
fn field_before(text: &[u8], end: End) -> Option<(u8, &[u8])>
    ensures answer { FieldBefore text.now (byte_of end) result }
{
    byte_before(after(text, b' ')?, end)
}

// The two numbers of a start and the line feed that ends them, and the text after that.
fn start_fields(text: &[u8]) -> Option<((u8, u8), &[u8])>
    ensures answer { StartRead text.now result }
{
    let (server, rest) = field_before(text, End::Space)?;
    let (action, rest) = byte_before(rest, End::LineFeed)?;
    Some(((server, action), rest))
}

// A command and the line feed that ends it, and the text after that.
fn read_command(text: &[u8]) -> Option<(Command, &[u8])>
    ensures answer { CommandRead text.now result }
{
    let (letter, fields) = text.split_first()?;
    match *letter as char {
        'A' => {
            let (server, rest) = field_before(fields, End::LineFeed)?;
            Some((Command::Admit(server), rest))
        }
        'L' => {
            let (server, rest) = field_before(fields, End::LineFeed)?;
            Some((Command::Leave(server), rest))
        }
        'S' => {
            let ((server, action), rest) = start_fields(fields)?;
            Some((Command::Start(server, action), rest))
        }
        'W' => {
            let rest = after(fields, b'\n')?;
            Some((Command::Wait, rest))
        }
        _ => None,
    }
}

// The line at the front of a text, and the text after it.
pub fn read_line(text: &[u8]) -> Option<(Line, &[u8])>
    ensures answer { LineRead text.now result }
{
    let (instant, command) = number_before(text, End::Space, HORIZON)?;
    let (command, rest) = read_command(command)?;
    Some((Line { instant, command }, rest))
}
