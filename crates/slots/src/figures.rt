// Worked figures, each computed by the checker.
ghost use Rattle.slots.specs.Figures.{figures, right};
ghost use Rattle.std.specs.List.{list_all};
ghost use Rattle.std.specs.Prelude.{◌≡◌, true, length};

// How many worked figures there are. Each is right. A trait over the crates' tables would be no plainer: it would take
// a type, a count and two ghost members for each.
pub fn figures_hold() -> usize
    ensures answer { result ≡ length figures }
    ensures law { list_all right figures ≡ true }
{
    11
}
