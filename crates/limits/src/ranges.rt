// The ranges of the subject, and the checks of the values that are handed over.
ghost use Rattle.limits.specs.Checks.{cap_check, server_check};
ghost use Rattle.std.specs.Result.{result_err};
ghost use Rattle.std.specs.Prelude.{◌≡◌};

use crate::refusal::Refusal;

// The last instant: the clock never passes it. One tick is a hundred microseconds.
pub const HORIZON: u64 = 1_000_000_000_000;

// Servers are numbered from 1 to this.
pub const SERVERS: u8 = 64;

// Caps are counted in parts of the processor, of which the whole has this many.
pub const CAP_UNIT: u32 = 1_000_000;

// The most ticks that a load or a period has.
pub const MOST_TICKS: u32 = 1_000_000;

// Refuses a server number outside 1 to 64. One function for this and the next would take the type, the end of the range
// and the refusal, and say no more.
pub fn check_server(number: u8) -> Result<(), Refusal>
    ensures answer { result_err result ≡ server_check number }
{
    if !(1..=SERVERS).contains(&number) {
        return Err(Refusal::ServerNumber);
    }
    Ok(())
}

// Refuses a cap outside 1 to the whole processor.
pub fn check_cap(cap: u32) -> Result<(), Refusal>
    ensures answer { result_err result ≡ cap_check «cap» }
{
    if !(1..=CAP_UNIT).contains(&cap) {
        return Err(Refusal::Cap);
    }
    Ok(())
}
