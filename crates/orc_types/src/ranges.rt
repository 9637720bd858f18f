//! The argument of `range`.
ghost use Rattle.std.specs.Prelude.{◌≡◌, ◌≤◌, true, length, take, drop, IfOk, option_map};
ghost use Rattle.std.specs.List.{list_all};
ghost use Rattle.orc_types.specs.Ranges.{behind_dot, bound_of, range_between, range_up_to, part_of, parts_of, is_plain, is_trimmed, ascend, lies_within, ends_of, narrows, narrowed};
ghost use Rattle.orc_types.specs.inside.Behind.{ends_before};

use crate::cuts::split_at;
use crate::numbers::written_number;
use orc_text::{Memory, Row};
use std::alloc::Global;

// The number of a bound; `min` and `max` are the ends of the base type.
fn bound_of(ends: (i128, i128), text: &str) -> Option<i128>
    ensures { result ≡ bound_of ends text.now }
{
    if text == "min" {
        Some(ends.0)
    } else if text == "max" {
        Some(ends.1)
    } else {
        written_number(text)
    }
}

// The range from one bound to another.
fn range_between(low: Option<i128>, high: Option<i128>) -> Option<(i128, i128)>
    ensures { result ≡ range_between low high }
{
    match low {
        None => None,
        Some(low) => match high {
            None => None,
            Some(high) => if low <= high { Some((low, high)) } else { None },
        },
    }
}

// What stands after a dot that is first.
fn behind_dot(text: &str) -> Option<&str>
    ensures { option_map (λ rest. rest.now) result ≡ behind_dot text.now }
{
    text.strip_prefix('.')
}

// The range from one bound to another, round which white space may stand.
fn range_up_to(ends: (i128, i128), low: &str, high: &str) -> Option<(i128, i128)>
    ensures { result ≡ range_up_to ends low.now high.now }
{
    range_between(bound_of(ends, low.trim()), bound_of(ends, high.trim()))
}

// The range of a part, round which white space may stand.
fn part_of(ends: (i128, i128), text: &str) -> Option<(i128, i128)>
    ensures { result ≡ part_of ends text.now }
{
    match split_at(text, '.') {
        Some((low, rest)) => match behind_dot(rest) {
            Some(high) => range_up_to(ends, low, high),
            None => None,
        },
        None => range_up_to(ends, text, text),
    }
}

// The ranges of the parts between bars.
fn parts_of(
    alloc: Global,
    ends: (i128, i128),
    text: &str,
) -> Result<Option<Row<(i128, i128)>>, Memory>
    ensures { IfOk result (λ ranges. ranges ≡ parts_of ends text.now) }
{
    let mut ranges = Row::new(alloc);
    let mut rest = text;
    while let Some((part, more)) = split_at(rest, '|') {
        match part_of(ends, part) {
            Some(range) => ranges.push(range)?,
            None => return Ok(None),
        }
        rest = more;
    }
    match part_of(ends, rest) {
        Some(range) => {
            ranges.push(range)?;
            Ok(Some(ranges))
        },
        None => Ok(None),
    }
}

// Whether the text has no other characters than printable ASCII and white space of YANG.
fn is_plain(text: &str) -> bool
    ensures { result ≡ list_all is_plain text.now }
{
    text.as_bytes().iter().all(|byte| matches!(*byte, b'\t' | b'\n' | b'\r' | b' '..=b'~'))
}

// Whether no white space stands at an end.
pub(crate) fn is_trimmed(text: &str) -> bool
    ensures { result ≡ is_trimmed text.now }
{
    text.trim().len() == text.len()
}

// Whether each range begins after the end of the one before.
fn ascend(ranges: &[(i128, i128)]) -> bool
    ensures { result ≡ ascend ranges.now }
{
    let [first, rest @ ..] = ranges else {
        return true;
    };
    let mut high = first.1;
    for range in rest {
        if range.0 <= high {
            return false;
        }
        high = range.1;
    }
    true
}

// Whether a range lies within one of the base type.
fn lies_within(base: &[(i128, i128)], range: (i128, i128)) -> bool
    ensures { result ≡ lies_within base.now range }
{
    base.iter()
        .any(|whole| whole.0 <= range.0 && range.1 <= whole.1)
}

// Of these first ranges of the base type, which end before a number, those that end before another.
#[tactic(auto, using(crate::proofs::Within::lower))]
fn still_before(base: &[(i128, i128)], at: usize, low: i128, next: i128) -> usize
    requires within { at ≤ length base.now }
    requires before { list_all (ends_before low) (take at base.now) ≡ true }
    ensures before { list_all (ends_before next) (take result base.now) ≡ true }
    ensures within { result ≤ length base.now }
{
    if next < low { 0 } else { at }
}

// The first ranges of the base type that end before a number, of which so many are known to do so.
fn all_before(base: &[(i128, i128)], from: usize, low: i128) -> usize
    requires within { from ≤ length base.now }
    requires before { list_all (ends_before low) (take from base.now) ≡ true }
    ensures before { list_all (ends_before low) (take result base.now) ≡ true }
    ensures within { result ≤ length base.now }
{
    let mut at = from;
    while at < base.len() && base[at].1 < low {
        at += 1;
    }
    at
}

// The ranges from one on.
fn from_on(base: &[(i128, i128)], at: usize) -> &[(i128, i128)]
    requires { at ≤ length base.now }
    ensures { result.now ≡ drop at base.now }
{
    &base[at..]
}

// Whether a range lies within one of the base type, of which the first ones end before it.
#[tactic(auto, using(crate::proofs::Within::behind))]
fn lies_behind(base: &[(i128, i128)], at: usize, range: (i128, i128)) -> bool
    requires within { at ≤ length base.now }
    requires before { list_all (ends_before range.0) (take at base.now) ≡ true }
    ensures { result ≡ lies_within base.now range }
{
    if range.0 <= range.1 {
        lies_within(from_on(base, at), range)
    } else {
        lies_within(base, range)
    }
}

// Whether each range lies within one of the base type. Where both ascend, each is looked at once.
fn lie_within(base: &[(i128, i128)], ranges: &[(i128, i128)]) -> bool
    ensures { result ≡ list_all (lies_within base.now) ranges.now }
{
    let mut at = 0;
    let mut low = i128::MIN;
    for range in ranges {
        at = all_before(base, still_before(base, at, low, range.0), range.0);
        low = range.0;
        if !lies_behind(base, at, *range) {
            return false;
        }
    }
    true
}

// The least and the greatest number of the base type.
fn ends_of(base: &[(i128, i128)]) -> (i128, i128)
    ensures { result ≡ ends_of base.now }
{
    if base.is_empty() {
        (0, 0)
    } else {
        (base[0].0, base[base.len() - 1].1)
    }
}

// The ranges that the argument of `range` leaves of those of its base type, or none where it is no
// such argument: parts with `|` between, each a number or two with `..` between, ascending, without
// overlap, and each within a range of the base type.
pub(crate) fn narrowed(
    alloc: Global,
    base: &[(i128, i128)],
    text: &str,
) -> Result<Option<Row<(i128, i128)>>, Memory>
    ensures { IfOk result (λ ranges. ranges ≡ narrowed base.now text.now) }
{
    if !(is_plain(text) && is_trimmed(text)) {
        return Ok(None);
    }
    match parts_of(alloc, ends_of(base), text)? {
        Some(ranges) => {
            if ascend(ranges.as_slice()) && lie_within(base, ranges.as_slice()) {
                Ok(Some(ranges))
            } else {
                Ok(None)
            }
        },
        None => Ok(None),
    }
}
