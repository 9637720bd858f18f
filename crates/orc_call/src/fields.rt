//! Reading one field from the start of the bytes.
ghost use Rattle.std.specs.Prelude.{◌≡◌, ◌↔◌, IsTrue, IfSome, length, IfOk, OnErr, IsErrOf, MatchOption};
ghost use Rattle.std.specs.Option.{option_copied};
ghost use Rattle.orc_path.specs.Order.{path_cmp};
ghost use Rattle.std.specs.declared.cmp.Ordering.TheVariants.{Less};
ghost use Rattle.orc_call.specs.Fields.{a_text, a_number, a_count_of_actions, a_count_of_items, a_path, an_item, HasText, HasSomeText};
ghost use Rattle.orc_call.specs.inside.Reading.{ReadsFront, one, kind, HasNoText, HasItem, HasSomeLeaf, HasNoItem};

use crate::MOST_ACTIONS;
use orc_path::{Item, Path, PathFault};
use orc_text::{Memory, Text};
use std::alloc::Global;
use std::cmp::Ordering;

/// Why a value could not be read.
#[derive(Clone, Copy)]
pub(crate) enum Stuck {
    /// From the first bad field on, so many bytes are left.
    Bad { left: usize },
    /// Memory could not be had.
    Memory,
}

impl From<Memory> for Stuck {
    ghost use Rattle.orc_call.specs.declared.fields.Stuck.TheVariants as stuck;
    ghost use Rattle.std.specs.Prelude.{◌≡◌};

    ghost from_gives = { λ _ e. e ≡ stuck.Memory };

    fn from(_: Memory) -> Stuck {
        Stuck::Memory
    }
}

// The field at the start of these bytes is bad.
fn bad(bytes: &[u8]) -> Stuck
    ensures { result ≡ Stuck.Bad (length bytes.now) }
{
    Stuck::Bad { left: bytes.len() }
}

/// The caller's number. It takes no memory.
pub(crate) fn number_at(bytes: &[u8]) -> Result<(u64, &[u8]), Stuck>
    ensures reads { ReadsFront (one a_number) bytes.now result }
    ensures memory { IsErrOf result Stuck.Memory → ⊥ }
{
    if bytes.len() < 8 {
        return Err(bad(bytes));
    }
    let (front, rest) = bytes.split_at(8);
    let number = u64::from_be_bytes([
        front[0], front[1], front[2], front[3], front[4], front[5], front[6], front[7],
    ]);
    Ok((number, rest))
}

/// How many actions there are. It takes no memory.
pub(crate) fn action_count_at(bytes: &[u8]) -> Result<(u16, &[u8]), Stuck>
    ensures reads { ReadsFront (one a_count_of_actions) bytes.now result }
    ensures memory { IsErrOf result Stuck.Memory → ⊥ }
{
    if bytes.len() < 2 {
        return Err(bad(bytes));
    }
    let (front, rest) = bytes.split_at(2);
    let count = u16::from_be_bytes([front[0], front[1]]);
    if count < 1 || count as usize > MOST_ACTIONS {
        return Err(bad(bytes));
    }
    Ok((count, rest))
}

/// How many items there are. It takes no memory.
pub(crate) fn item_count_at(bytes: &[u8]) -> Result<(u32, &[u8]), Stuck>
    ensures reads { ReadsFront (one a_count_of_items) bytes.now result }
    ensures memory { IsErrOf result Stuck.Memory → ⊥ }
{
    if bytes.len() < 4 {
        return Err(bad(bytes));
    }
    let (front, rest) = bytes.split_at(4);
    let count = u32::from_be_bytes([front[0], front[1], front[2], front[3]]);
    Ok((count, rest))
}

/// The byte of an action's kind. It takes no memory.
pub(crate) fn kind_at(bytes: &[u8]) -> Result<(u8, &[u8]), Stuck>
    ensures reads { ReadsFront kind bytes.now result }
    ensures memory { IsErrOf result Stuck.Memory → ⊥ }
{
    if bytes.is_empty() || bytes[0] < 1 || bytes[0] > 9 {
        return Err(bad(bytes));
    }
    Ok((bytes[0], &bytes[1..]))
}

// The text at the start.
fn str_at(bytes: &[u8]) -> Option<(&str, &[u8])>
    ensures { MatchOption result (HasNoText bytes.now) (λ read. HasText bytes.now read.0.now read.1.now) }
{
    if bytes.len() < 4 {
        return None;
    }
    let (front, rest) = bytes.split_at(4);
    let len = u32::from_be_bytes([front[0], front[1], front[2], front[3]]) as usize;
    if rest.len() < len {
        return None;
    }
    let (text, rest) = rest.split_at(len);
    match std::str::from_utf8(text) {
        Ok(text) => Some((text, rest)),
        Err(_) => None,
    }
}

/// A text.
pub(crate) fn text_at(alloc: Global, bytes: &[u8]) -> Result<(Text, &[u8]), Stuck>
    ensures reads { ReadsFront (one a_text) bytes.now result }
    ensures memory { IsErrOf result Stuck.Memory → HasSomeText bytes.now }
{
    match str_at(bytes) {
        Some((text, rest)) => Ok((Text::from_str(alloc, text)?, rest)),
        None => Err(bad(bytes)),
    }
}

/// Whether the path may follow the one before it in a list in path order.
pub(crate) fn follows(before: Option<&Path>, path: &Path) -> bool
    ensures { IsTrue result ↔ IfSome (option_copied before.entry) (λ earlier. path_cmp earlier path.now ≡ Less) }
{
    match before {
        None => true,
        Some(earlier) => earlier.cmp(path) == Ordering::Less,
    }
}

/// A path, after the one before it where there is one.
pub(crate) fn path_at<'a>(
    alloc: Global,
    before: Option<&Path>,
    bytes: &'a [u8],
) -> Result<(Path, &'a [u8]), Stuck>
    ensures reads { ReadsFront (one (a_path (option_copied before.entry))) bytes.now result }
    ensures memory { IsErrOf result Stuck.Memory → HasSomeText bytes.now }
{
    let Some((text, rest)) = str_at(bytes) else {
        return Err(bad(bytes));
    };
    match Path::parse(alloc, text) {
        Ok(path) => {
            // Read, so that its range is known to the proof.
            let _ = &path.steps;
            if follows(before, &path) {
                Ok((path, rest))
            } else {
                Err(bad(bytes))
            }
        }
        Err(PathFault::BadPath { .. }) => Err(bad(bytes)),
        Err(PathFault::Memory) => Err(Stuck::Memory),
    }
}

// The item at the start, whatever path it belongs to.
fn any_item_at(alloc: Global, bytes: &[u8]) -> Result<Option<(Item, &[u8])>, Memory>
    ensures found { IfOk result
        (λ found. MatchOption found (HasNoItem bytes.now) (λ read. HasItem bytes.now read.0 read.1.now)) }
    ensures memory { OnErr result (HasSomeLeaf bytes.now) }
{
    match bytes {
        [0, rest @ ..] => Ok(Some((Item::Entry, rest))),
        [1, rest @ ..] => match str_at(rest) {
            Some((text, rest)) => Ok(Some((Item::Leaf(Text::from_str(alloc, text)?), rest))),
            None => Ok(None),
        },
        _ => Ok(None),
    }
}

/// The item of a path.
pub(crate) fn item_at<'a>(
    alloc: Global,
    path: &Path,
    bytes: &'a [u8],
) -> Result<(Item, &'a [u8]), Stuck>
    ensures reads { ReadsFront (one (an_item path.now)) bytes.now result }
    ensures memory { IsErrOf result Stuck.Memory → HasSomeLeaf bytes.now }
{
    match any_item_at(alloc, bytes)? {
        Some((item, rest)) => {
            if item.fits(path) {
                Ok((item, rest))
            } else {
                Err(bad(bytes))
            }
        }
        None => Err(bad(bytes)),
    }
}
