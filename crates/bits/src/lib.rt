// Single bits of a word, the lowest set one, and sets of servers as words. Bits are numbered from 0; a word has 64.
#![tactic(auto)]

ghost use Rattle.bits.specs.Words.{Cleared, LowestOf, Set, bit};
ghost use Rattle.std.specs.Prelude.{◌≡◌, ◌≤◌, ◌==◌};

mod server_set;

pub use server_set::ServerSet;

// The word with bit i set; as it is where it has no bit i.
pub fn with_bit(x: u64, i: u32) -> u64
    ensures answer { Set x i result }
{
    if i < 64 { x | 1 << i } else { x }
}

// The word with bit i cleared; as it is where it has no bit i.
pub fn without_bit(x: u64, i: u32) -> u64
    ensures answer { Cleared x i result }
    ensures stays { 64 ≤ i → result ≡ x }
{
    if i < 64 { x & !(1 << i) } else { x }
}

// Whether bit i of the word is set.
pub fn has_bit(x: u64, i: u32) -> bool
    ensures answer { result ≡ (bit x i == 1) }
{
    i < 64 && (x >> i) % 2 == 1
}

// The place of the lowest set bit, if one is set.
pub fn lowest(x: u64) -> Option<u32>
    ensures answer { LowestOf x result }
{
    if x == 0 {
        return None;
    }
    Some(x.trailing_zeros())
}
