// Things that are known by a number.
ghost use Rattle.std.specs.Prelude.{◌≡◌, ℕ};
ghost use Rattle.plans.specs.Numbers.{has as hasNumber, numbered};
ghost use Rattle.std.specs.Option.{option_map};

pub trait Numbered {
    ghost numberOf: { Self → ℕ };

    fn number(&self) -> u8
        ensures { result ≡ numberOf self.now };
}

// The first of that number, if there is one.
pub fn find<T: Numbered>(items: &[T], number: u8) -> Option<&T>
    ensures answer { option_map (λ x. x.now) result ≡ numbered T.Numbered.numberOf number items.now }
{
    items.iter().find(|item| item.number() == number)
}

// Whether one of them has that number.
pub fn has<T: Numbered>(items: &[T], number: u8) -> bool
    ensures answer { result ≡ hasNumber T.Numbered.numberOf number items.now }
{
    items.iter().any(|item| item.number() == number)
}
