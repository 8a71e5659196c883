// Plays stored plans and scripts, and prints the sheet of each.
#![tactic(auto)]

ghost use Rattle.packs.specs.Left.{left_in};
ghost use Rattle.std.specs.Iterator.{item_count};

use packs::Items;
use std::fs;
use std::io::{BufWriter, Write};
use timer_sheets::write_sheet;

// A plan and its script.
#[derive(Clone, Copy)]
struct Case<'a> {
    plan: &'a [u8],
    script: &'a [u8],
}

// The items of a pack by twos: each plan is followed by its script.
#[derive(Drop)]
struct Cases<'a>(Items<'a>);

impl<'a> Iterator for Cases<'a> {
    type Item = Case<'a>;

    ghost remaining = { item_count (λ cases. left_in cases.0) };

    fn next(&mut self) -> Option<Case<'a>> {
        let plan = self.0.next()?;
        let script = self.0.next()?;
        Some(Case { plan, script })
    }
}

fn run(rt: &HostRuntime) -> anyhow::Result<()> {
    let pack = fs::read(rt, "sheets.pack")?;
    let mut out = BufWriter::new(rt.alloc(), rt.stdout())?;
    for (number, case) in (1u64..).zip(Cases(Items::new(pack.as_slice()))) {
        writeln!(out, "case {number}")?;
        write_sheet(rt.alloc(), &mut out, case.plan, case.script)?;
    }
    out.flush()?;
    Ok(())
}

fn main(rt: HostRuntime) -> anyhow::Result<()> {
    run(&rt)
}
