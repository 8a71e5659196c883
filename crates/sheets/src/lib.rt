// What the program prints of a plan and a script.
#![tactic(auto)]

ghost use Rattle.scripts.specs.Dues.{time_order};
ghost use Rattle.scripts.specs.Lines.{script_text};
ghost use Rattle.scripts.specs.Reads.{lines_of};
ghost use Rattle.sheets.specs.Printed.{Printed, Told, listed};
ghost use Rattle.std.specs.Prelude.{◌≡◌, ◌++◌, IfOk, string_bytes, OnOk};

use crate::forecasts::Forecasts;
use limits::ReadError;
use plans::Plan;
use scripts::{Agenda, Due, Script};
use std::alloc::{AllocError, Global};

mod forecasts;

pub use plans::MOST_PLAN_BYTES;
pub use scripts::MOST_SCRIPT_BYTES;

// The lines of a script in time order, after what is there.
fn list_lines(heap: Global, out: &mut String, script: &Script) -> Result<(), AllocError>
    ensures after { OnOk result (string_bytes out.new ≡ string_bytes out.old ++ script_text (time_order (lines_of script.now))) }
{
    let lines = script.lines();
    let mut places = vec![in heap; Due {
        instant: 0,
        place: 0
    }; lines.len()]?;
    let mut agenda = Agenda::over(places.as_mut_slice());
    let _ = agenda.load(lines);
    while let Some(line) = agenda.next() {
        writeln!(out, "{line}")?;
    }
    Ok(())
}

fn list(heap: Global, plan: &Plan, script: &Script) -> Result<String, AllocError>
    ensures answer { IfOk result (λ text. string_bytes text ≡ listed plan.now script.now) }
{
    let mut out = format!(in heap; "{plan}{}", Forecasts(plan))?;
    list_lines(heap, &mut out, script)?;
    Ok(out)
}

// The line of a fault; no text where memory wants.
fn error_text(heap: Global, error: ReadError) -> Result<String, AllocError>
    ensures answer { Told error result }
{
    let fault = error.fault()?;
    format!(in heap; "{fault}\n")
}

// What is printed of the bytes of a plan and a script: the first fault of the plan or else of the script, or else the
// plan in words, the forecast end of each of its actions and the script's lines in time order.
pub fn output(heap: Global, plan: &[u8], script: &[u8]) -> Result<String, AllocError>
    ensures answer { IfOk result (λ text. Printed plan.now script.now (string_bytes text)) }
{
    let plan = match Plan::read(heap, plan) {
        Ok(plan) => plan,
        Err(e) => return error_text(heap, e),
    };
    match Script::read(heap, script) {
        Ok(script) => list(heap, &plan, &script),
        Err(e) => error_text(heap, e),
    }
}
