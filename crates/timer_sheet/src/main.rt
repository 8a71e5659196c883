// Prints the timer sheet of plan.bin and the script on standard input, or the first fault.
#![tactic(auto)]

use inputs::{read_plan, read_script};
use std::io::{BufWriter, Write};
use timer_sheets::write_sheet;

fn run(rt: &HostRuntime) -> anyhow::Result<()> {
    let plan = read_plan(rt)?;
    let script = read_script(rt)?;
    let mut out = BufWriter::new(rt.alloc(), rt.stdout())?;
    write_sheet(rt.alloc(), &mut out, plan.as_slice(), script.as_slice())?;
    out.flush()?;
    Ok(())
}

fn main(rt: HostRuntime) -> anyhow::Result<()> {
    run(&rt)
}
