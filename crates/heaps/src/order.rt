// Entries with an order.
ghost use Rattle.std.specs.Prelude.{◌≡◌, Bool, true, false};

// A total order, in which different entries may stand level.
pub trait Ordered: Copy {
    // The first is at or before the second.
    ghost at_or_before: { Self → Self → Bool };

    fn at_or_before(&self, other: &Self) -> bool
        ensures answer { result ≡ at_or_before self.now other.now };

    // Of two entries one is at or before the other.
    ghost total: { (x y : Self) → at_or_before x y ≡ false → at_or_before y x ≡ true };

    // At or before carries through a third.
    ghost carries: { (x y z : Self) → at_or_before x y ≡ true → at_or_before y z ≡ true → at_or_before x z ≡ true };
}

// An order in which no two entries stand level: two that are each at or before the other are the same.
pub trait Strict: Ordered {
    ghost same: { (x y : Self) → Self.at_or_before x y ≡ true → Self.at_or_before y x ≡ true → x ≡ y };
}
