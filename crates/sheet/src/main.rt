// Prints what plan.bin and the script on standard input hold, or the first fault.
#![tactic(auto)]

use inputs::{read_plan, read_script};

fn run(rt: &HostRuntime) -> anyhow::Result<()> {
    let plan = read_plan(rt)?;
    let script = read_script(rt)?;
    let text = sheets::output(rt.alloc(), plan.as_slice(), script.as_slice())?;
    rt.print(text.as_str())?;
    Ok(())
}

fn main(rt: HostRuntime) -> anyhow::Result<()> {
    run(&rt)
}
