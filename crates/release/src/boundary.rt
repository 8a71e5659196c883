// The boundaries of an action are the multiples of its period.
ghost use Rattle.std.specs.Prelude.{◌^◌, ◌<◌, ◌≤◌};
ghost use Rattle.release.specs.Actions.{LeastMultiple, multiple_from};
ghost use Rattle.std.specs.Option.{SomeIff};

// The least multiple of the period that is not below the arrival: none for a period of 0, or if it does not fit 64 bits.
pub fn first_boundary(arrival: u64, period: u32) -> Option<u64>
    ensures answer { SomeIff result ((1 ≤ period) × (multiple_from arrival period < 2 ^ 64)) (multiple_from arrival period) }
    ensures law { 1 ≤ period → LeastMultiple arrival period (multiple_from arrival period) }
{
    arrival.checked_next_multiple_of(period as u64)
}
