// Worked traces, each computed by the checker.
ghost use Rattle.share.specs.Examples.{Holds, examples};
ghost use Rattle.std.specs.List.{AllByRecursion};
ghost use Rattle.std.specs.Prelude.{◌≡◌, length};

// How many worked traces there are. Each keeps the share law or breaks it, as is said of it. A trait over this table and
// those of figures would be no plainer: it would take a type, a count and two ghost members for each.
pub fn examples_hold() -> usize
    ensures answer { result ≡ length examples }
    ensures law { AllByRecursion Holds examples }
{
    16
}
