// What every queue checks of an entry before it takes it.
ghost use Rattle.queues.specs.Checks.{entry_check};
ghost use Rattle.std.specs.Result.{result_err};
ghost use Rattle.std.specs.Prelude.{◌≡◌};

use limits::{HORIZON, Refusal, check_server};

// Refuses a server number out of range, an instant past the horizon, and a server that is queued, in this order.
pub fn check_put(server: u8, instant: u64, queued: bool) -> Result<(), Refusal>
    ensures answer { result_err result ≡ entry_check server instant queued }
{
    check_server(server)?;
    if instant > HORIZON {
        return Err(Refusal::InstantPastHorizon);
    }
    if queued {
        return Err(Refusal::EntryAlreadyQueued);
    }
    Ok(())
}
