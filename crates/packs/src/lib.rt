// Packs of stored cases, for the programs that play them: items one after another, each its length in four bytes,
// the low byte first, and then its bytes.
#![tactic(auto)]

ghost use Rattle.packs.specs.Items.{Split};

use std::alloc::AllocError;
use std::{fs, io};

mod cases;
mod items;

pub use cases::print_cases;
pub use items::Items;

// The item at the front of a pack, and the pack after it.
pub fn split_item(pack: &[u8]) -> Option<(&[u8], &[u8])>
    ensures answer { Split pack.now result }
{
    let (size, items) = pack.split_first_chunk()?;
    items.split_at_checked(u32::from_le_bytes(*size) as usize)
}

// Prints the number of each item of a pack, counted from 1, and the text of the item. Its caller chooses the type of the error.
pub fn print_texts<E, F>(rt: &HostRuntime, path: &str, text_of: F) -> Result<(), E>
where
    E: From<io::Error> + From<AllocError>,
    F: Fn(&[u8]) -> Result<String, AllocError>,
    requires { F.IsAlwaysCallable text_of }
{
    let pack = fs::read(rt, path)?;
    for (number, item) in (1u64..).zip(Items::new(pack.as_slice())) {
        let text = text_of(item)?;
        print!(rt; "case {number}\n{text}")?;
    }
    Ok(())
}

#[cfg(test)]
mod tests;
