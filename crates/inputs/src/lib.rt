// The inputs of the programs: a plan in a file, and a script on standard input.
#![tactic(auto)]

ghost use Rattle.std.specs.Prelude.{◌≡◌, IfOk, IfSome, take};

use plans::MOST_PLAN_BYTES;
use scripts::MOST_SCRIPT_BYTES;
use std::alloc::Global;
use std::io::{ErrorKind, Read};
use std::{fs, io};

// The bytes of a source, and no more than `most` of them.
pub fn read_bounded<R: Read + Drop>(heap: Global, source: R, most: u64) -> io::Result<Vec<u8>>
    ensures answer { IfOk result (λ v. IfSome (R.remaining source) (λ bytes. v.items ≡ take most bytes)) }
{
    let mut bytes = Vec::new(heap);
    source.take(most).read_to_end(&mut bytes)?;
    Ok(bytes)
}

// The bytes of plan.bin. A file that is missing has none.
pub fn read_plan(rt: &HostRuntime) -> io::Result<Vec<u8>> {
    match fs::open(rt, "plan.bin") {
        Ok(file) => read_bounded(rt.alloc(), file, MOST_PLAN_BYTES + 1),
        Err(e) if e.kind() == ErrorKind::NotFound => Ok(Vec::new(rt.alloc())),
        Err(e) => Err(e),
    }
}

// The bytes of the script on standard input.
pub fn read_script(rt: &HostRuntime) -> io::Result<Vec<u8>> {
    read_bounded(rt.alloc(), rt.stdin(), MOST_SCRIPT_BYTES + 1)
}

#[cfg(test)]
mod tests;
