// The text of a sheet.
ghost use Rattle.scripts.specs.Reads.{lines_of};
ghost use Rattle.timer_sheets.specs.Lent.{Lent, Stays, lent_check};
ghost use Rattle.timer_sheets.specs.Runs.{to_come};
ghost use Rattle.timer_sheets.specs.Sheets.{sheet};
ghost use Rattle.timer_sheets.specs.Shown.{line_text_of, sheet_text};
ghost use Rattle.std.specs.Prelude.{◌≡◌, [], ◌++◌, length, string_bytes, OnOk};
ghost use Rattle.std.specs.Result.{result_err};

use crate::line::SheetLine;
use crate::run::Run;
use limits::{Fault, Layer, ReadError, Refusal, SERVERS};
use plans::Plan;
use queues::{Entry, HeapQueue, Queue};
use release::ReleaseRule;
use scripts::{Agenda, Due, Script};
use std::alloc::AllocError;

// The text of a line and its line feed, after what is there.
pub fn push_line(text: &mut String, line: SheetLine) -> Result<(), AllocError>
    ensures after { OnOk result (string_bytes text.new ≡ string_bytes text.old ++ line_text_of line) }
{
    writeln!(text, "{line}")
}

// The text of every line that is to come of a run, after what is there.
pub fn push_lines<R: ReleaseRule, Q: Queue, C: Queue>(
    text: &mut String,
    run: &mut Run<'_, '_, '_, '_, R, Q, C>,
) -> Result<(), AllocError>
    ensures after { OnOk result (string_bytes text.new ≡ string_bytes text.old ++ sheet_text (to_come run.old)) }
    ensures over { OnOk result (to_come run.new ≡ []) }
{
    while let Some(line) = run.next_line() {
        push_line(text, line)?;
    }
    Ok(())
}

// Refuses too few places for the script's lines, and then too little memory for a queue.
fn check_lent(lines: usize, places: usize, ready: usize, calendar: usize) -> Result<(), ReadError>
    ensures answer { result_err result ≡ lent_check lines places ready calendar }
{
    let refusal = if places < lines {
        Refusal::MemoryFull
    } else if ready < SERVERS as usize || calendar < SERVERS as usize {
        Refusal::TooLittleMemory
    } else {
        return Ok(());
    };
    Err(ReadError::Fault(Fault {
        layer: Layer::Script,
        refusal,
        place: 0,
    }))
}

// The sheet of a plan and a script, after what is there, over lent memory: the ready queue and the calendar are heaps,
// and a third memory has the lines in time order. A fault leaves all four as they stood.
#[tactic(auto, using(crate::proofs::Early::loaded_early))]
pub fn push_sheet<R: ReleaseRule + Drop>(
    text: &mut String,
    plan: &Plan,
    script: &Script,
    rule: R,
    ready: &mut [Entry],
    calendar: &mut [Entry],
    places: &mut [Due],
) -> Result<(), ReadError>
    ensures answer { Lent (lent_check (length (lines_of script.now)) (length places.old) (length ready.old) (length calendar.old)) (string_bytes text.new ≡ string_bytes text.old ++ sheet_text (sheet (R.ReleaseRule.amount rule) plan.now (lines_of script.now))) result }
    ensures stays { Stays result ((text.new ≡ text.old) × (ready.new ≡ ready.old) × (calendar.new ≡ calendar.old) × (places.new ≡ places.old)) }
{
    let lines = script.lines();
    check_lent(lines.len(), places.len(), ready.len(), calendar.len())?;
    let mut agenda = Agenda::over(places);
    agenda.load(lines).unwrap();
    // An `unwrap` gets no proof at a value that holds a borrow.
    let Ok(ready) = HeapQueue::new(ready) else {
        unreachable()
    };
    let Ok(calendar) = HeapQueue::new(calendar) else {
        unreachable()
    };
    let mut run = Run::new(plan, &mut agenda, rule, ready, calendar);
    Ok(push_lines(text, &mut run)?)
}
