//! Counting the bytes that values have when they are written, without writing them. A count stays
//! at the largest 64-bit number.
ghost use Rattle.std.specs.Prelude.{◌≡◌, ℕ, List, length};
ghost use Rattle.std.specs.List.{flat_map};
ghost use Rattle.orc_text.specs.Counts.{capped};

/// A value whose bytes are counted.
pub trait Counted {
    // The bytes of the value.
    ghost spelling: { Self → List ℕ };

    /// How many bytes it has.
    fn count(&self) -> u64
        ensures { result ≡ capped (length (spelling self.now)) };
}

/// How many bytes the values have, one after another.
pub fn total_count<T: Counted>(items: &[T]) -> u64
    ensures { result ≡ capped (length (flat_map T.spelling items.now)) }
{
    let mut total: u64 = 0;
    for item in items {
        total = total.saturating_add(item.count());
    }
    total
}
