// Writes a sheet, or the line of the first fault.
ghost use Rattle.timer_sheets.specs.Runs.{to_come};
ghost use Rattle.std.specs.Prelude.{◌≡◌, [], OnOk};

use crate::run::Run;
use limits::ReadError;
use plans::Plan;
use queues::{Queue, Row};
use release::{Late, ReleaseRule};
use scripts::{Agenda, Due, Script};
use std::alloc::Global;
use std::io;
use std::io::Write;
use windows::Window;

// The line of a fault. Want of memory is no fault of the input, and has no line.
fn write_error<W: Write>(out: &mut W, error: ReadError) -> io::Result<()> {
    let fault = error.fault()?;
    writeln!(out, "{fault}")
}

// Writes every line that is to come of a run; without an error, none is left.
pub fn write_lines<R: ReleaseRule, Q: Queue, C: Queue, W: Write>(
    out: &mut W,
    run: &mut Run<'_, '_, '_, '_, R, Q, C>,
) -> io::Result<()>
    ensures after { OnOk result (to_come run.new ≡ []) }
{
    while let Some(line) = run.next_line() {
        writeln!(out, "{line}")?;
    }
    Ok(())
}

// The sheet of a plan and a script, under the late rule, with a row as ready queue and a window over a row as calendar.
#[tactic(auto, using(crate::proofs::Early::loaded_early))]
fn write_run<W: Write>(heap: Global, out: &mut W, plan: &Plan, script: &Script) -> io::Result<()> {
    let mut places = vec![in heap; Due {
        instant: 0,
        place: 0
    }; script.lines().len()]?;
    let mut agenda = Agenda::over(places.as_mut_slice());
    if let Err(fault) = agenda.load(script.lines()) {
        return write_error(out, fault.into());
    }
    let calendar = Window::new(Row::new());
    let mut run = Run::new(plan, &mut agenda, Late, Row::new(), calendar);
    write_lines(out, &mut run)
}

// The plan and the script that the bytes are. The first fault is that of the plan, or else that of the script.
fn read(heap: Global, plan: &[u8], script: &[u8]) -> Result<(Plan, Script), ReadError> {
    Ok((Plan::read(heap, plan)?, Script::read(heap, script)?))
}

// Writes the sheet of the bytes of a plan and a script, or the line of the first fault.
pub fn write_sheet<W: Write>(
    heap: Global,
    out: &mut W,
    plan: &[u8],
    script: &[u8],
) -> io::Result<()> {
    match read(heap, plan, script) {
        Ok((plan, script)) => write_run(heap, out, &plan, &script),
        Err(error) => write_error(out, error),
    }
}
