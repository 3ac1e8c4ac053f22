//! The one search by number: for entries, forced aborts, coordinators, recoveries and whatever else has a number.

ghost use Rattle.std.specs.Prelude.{◌≡◌, ℕ};
ghost use Rattle.model.specs.Lists.{place_in};

/// Something that is known by a number.
pub trait Numbered {
    // The number.
    ghost numbered: { Self → ℕ };

    /// The number by which it is looked up.
    fn number(&self) -> u16
        ensures { result ≡ numbered self.now };
}

/// A bare number is known by itself.
impl Numbered for u16 {
    ghost numbered = { λ n. n };

    fn number(&self) -> u16 {
        *self
    }
}

/// The place of the first element that has a number, if one has it.
pub fn find<T: Numbered>(elements: &[T], wanted: u16) -> Option<usize>
    ensures { result ≡ place_in T.numbered wanted elements.now }
{
    elements
        .iter()
        .position(|element| element.number() == wanted)
}
