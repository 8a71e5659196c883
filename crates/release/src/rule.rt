// What a release rule is.
ghost use Rattle.std.specs.Prelude.{◌≡◌, ℕ, false};
ghost use Rattle.release.specs.Rules.{WithinShare, in_range};

use limits::MOST_TICKS;

// A rule says how much of the first, partial period an action may already use.
pub trait ReleaseRule {
    // The first amount, from limit, period, arrival and first boundary: not from a whole task, since a rule sees no load.
    ghost amount: { Self → ℕ → ℕ → ℕ → ℕ → ℕ };

    fn first_amount(&self, limit: u32, period: u32, arrival: u64, boundary: u64) -> u32
        ensures answer { result ≡ amount self.now limit period arrival boundary };

    // It is no more than the limit's share of the time up to the boundary.
    ghost share: { (rule : Self) → WithinShare (amount rule) };

    // It is 0 out of range.
    ghost outside: { (rule : Self) (limit period arrival boundary : ℕ) → in_range limit period arrival boundary ≡ false → amount rule limit period arrival boundary ≡ 0 };
}

// Whether a rule may answer more than 0.
pub fn in_range(limit: u32, period: u32, arrival: u64, boundary: u64) -> bool
    ensures answer { result ≡ in_range limit period arrival boundary }
{
    (1..=period).contains(&limit)
        && period <= MOST_TICKS
        && arrival <= boundary
        && boundary - arrival < period as u64
}
