// Reads many stored scripts and prints what the program prints of each.
#![tactic(auto)]

use packs::print_texts;

// A plan without servers: its head alone.
const NO_SERVERS: [u8; 16] = [0, 0, 0, 0, 1, 0, 0, 0, 0, 0, 0, 0, 0, 0, 0, 0];

fn run(rt: &HostRuntime) -> anyhow::Result<()> {
    print_texts(rt, "scripts.pack", |script| {
        sheets::output(rt.alloc(), &NO_SERVERS, script)
    })
}

fn main(rt: HostRuntime) -> anyhow::Result<()> {
    run(&rt)
}
