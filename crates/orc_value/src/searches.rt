//! Whether a type has a number, a length or a name.
ghost use Rattle.std.specs.Prelude.{◌≡◌, [], ◌∷◌, ◌++◌, MatchOption, IsTrue, int_le, nat_le};
ghost use Rattle.std.specs.List.{list_any};
ghost use Rattle.orc_value.specs.Ranges.{stand_apart};
ghost use Rattle.orc_value.specs.Integers.{in_ranges};
ghost use Rattle.orc_value.specs.Canon.{in_lengths, same_text};

use crate::{Lengths, Names, Ranges};

// The one in the middle, with those before it and those after it.
fn halves<T>(items: &[T]) -> Option<(&[T], &T, &[T])>
    ensures { MatchOption result (items.now ≡ [])
        (λ parts. items.now ≡ parts.0.now ++ parts.1.now ∷ parts.2.now) }
{
    let (front, behind) = items.split_at(items.len() / 2);
    match behind.split_first() {
        Some((middle, back)) => Some((front, middle, back)),
        None => None,
    }
}

// Whether one of the ranges has the number. It looks at one range of each half that is left.
fn search_ranges(ranges: &[(i128, i128)], number: i128) -> bool
    requires { IsTrue (stand_apart int_le ranges.now) }
    ensures { result ≡ in_ranges ranges.now number }
{
    let mut rest = ranges;
    while let Some((front, middle, back)) = halves(rest) {
        if number < middle.0 {
            rest = front;
        } else if middle.1 < number {
            rest = back;
        } else {
            return true;
        }
    }
    false
}

// Whether one of the ranges has the length, likewise.
fn search_lengths(lengths: &[(u64, u64)], count: u64) -> bool
    requires { IsTrue (stand_apart nat_le lengths.now) }
    ensures { result ≡ in_lengths lengths.now count }
{
    let mut rest = lengths;
    while let Some((front, middle, back)) = halves(rest) {
        if count < middle.0 {
            rest = front;
        } else if middle.1 < count {
            rest = back;
        } else {
            return true;
        }
    }
    false
}

impl Ranges {
    /// Whether one of the ranges has the number.
    pub fn has(&self, number: i128) -> bool
        ensures { result ≡ in_ranges self.now number }
    {
        search_ranges(self.as_slice(), number)
    }
}

impl Lengths {
    /// Whether one of the ranges has the length.
    pub fn has(&self, count: u64) -> bool
        ensures { result ≡ in_lengths self.now count }
    {
        search_lengths(self.as_slice(), count)
    }
}

impl Names {
    /// Whether the text is one of the names. It takes no memory.
    pub fn has(&self, text: &str) -> bool
        ensures { result ≡ list_any (same_text text.now) self.now }
    {
        self.set.contains(text)
    }
}
