//! The argument of `length`.
ghost use Rattle.std.specs.Prelude.{◌≡◌, IfOk, map};
ghost use Rattle.std.specs.List.{list_any};
ghost use Rattle.orc_types.specs.Ranges.{is_minus, as_range, is_length, length_range, all_of, narrowed_lengths};

use crate::ranges::narrowed;
use orc_text::{Memory, Row};
use std::alloc::Global;

// Whether a `-` stands in the text.
fn has_minus(text: &str) -> bool
    ensures { result ≡ list_any is_minus text.now }
{
    text.as_bytes().iter().any(|byte| *byte == b'-')
}

// Lengths as ranges of numbers.
fn as_ranges(alloc: Global, lengths: &[(u64, u64)]) -> Result<Vec<(i128, i128)>, Memory>
    ensures { IfOk result (λ ranges. ranges.items ≡ map as_range lengths.now) }
{
    Ok(
        lengths
            .iter()
            .map(|range| (i128::from(range.0), i128::from(range.1)))
            .collect(alloc)?,
    )
}

// Whether the number is a length.
fn is_length(number: i128) -> bool
    ensures { result ≡ is_length number }
{
    0 <= number && number <= u64::MAX as i128
}

// A range of numbers as one of lengths.
fn length_range(range: (i128, i128)) -> Option<(u64, u64)>
    ensures { result ≡ length_range range }
{
    if is_length(range.0) && is_length(range.1) {
        Some((range.0 as u64, range.1 as u64))
    } else {
        None
    }
}

// Ranges of numbers as ones of lengths.
fn length_ranges(alloc: Global, ranges: &[(i128, i128)]) -> Result<Option<Row<(u64, u64)>>, Memory>
    ensures { IfOk result (λ lengths. lengths ≡ all_of (map length_range ranges.now)) }
{
    let mut lengths = Row::new(alloc);
    for range in ranges {
        match length_range(*range) {
            Some(length) => lengths.push(length)?,
            None => return Ok(None),
        }
    }
    Ok(Some(lengths))
}

// The lengths that the argument of `length` leaves of those of its base type, or none where it is
// no such argument: as that of `range`, and without a sign.
pub(crate) fn narrowed_lengths(
    alloc: Global,
    base: &[(u64, u64)],
    text: &str,
) -> Result<Option<Row<(u64, u64)>>, Memory>
    ensures { IfOk result (λ lengths. lengths ≡ narrowed_lengths base.now text.now) }
{
    if has_minus(text) {
        return Ok(None);
    }
    let ranges = as_ranges(alloc, base)?;
    match narrowed(alloc, ranges.as_slice(), text)? {
        Some(ranges) => length_ranges(alloc, ranges.as_slice()),
        None => Ok(None),
    }
}
