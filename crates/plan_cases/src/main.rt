// Reads many stored plans and prints what the program prints of each.
#![tactic(auto)]

use packs::print_texts;

fn run(rt: &HostRuntime) -> anyhow::Result<()> {
    print_texts(rt, "plans.pack", |plan| {
        sheets::output(rt.alloc(), plan, &[])
    })
}

fn main(rt: HostRuntime) -> anyhow::Result<()> {
    run(&rt)
}
