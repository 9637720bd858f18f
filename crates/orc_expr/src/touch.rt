//! Which writes touch what was read, and which targets may.
ghost use Rattle.std.specs.Prelude.{◌≡◌, ◌↔◌, ◌<◌, ◌+◌, length, take, slice_get, option_copied, IsTrue, MatchOption};
ghost use Rattle.orc_expr.specs.Touches.{write_touches, write_touches_any, write_cmp, IsFirstTouch, IsUntouched, Covers};
ghost use Rattle.orc_expr.specs.inside.Covering.{is_inside, is_entry_step, has_entry_on, is_list_under, has_entry_inside, IsBest};

use crate::{Read, ReadSet, Target};
use orc_path::{Path, Step, Write};
use std::cmp::Ordering;

// Whether a write touches a read.
fn write_touches(write: &Write, read: &Read) -> bool
    ensures { result ≡ write_touches write.now read.now }
{
    match write {
        Write::At(path) => match read {
            Read::Item(other) => path.cmp(other).is_eq(),
            Read::Keys(list) => path.is_entry_of(list),
            Read::Service(_) => false,
        },
        Write::Service(id) => match read {
            Read::Service(other) => id.cmp(other).is_eq(),
            _ => false,
        },
    }
}

// Whether a write touches one of the reads.
fn write_touches_any(reads: &[Read], write: &Write) -> bool
    ensures { result ≡ write_touches_any reads.now write.now }
{
    reads.iter().any(|read| write_touches(write, read))
}

// The order of writes.
fn write_cmp(write: &Write, other: &Write) -> Ordering
    ensures { result ≡ write_cmp write.now other.now }
{
    match write {
        Write::At(path) => match other {
            Write::At(other) => path.cmp(other),
            Write::Service(_) => Ordering::Less,
        },
        Write::Service(id) => match other {
            Write::At(_) => Ordering::Greater,
            Write::Service(other) => id.cmp(other),
        },
    }
}

// The place of the least touching write up to a place, from that of the writes before it.
fn best_with(reads: &[Read], writes: &[Write], best: Option<usize>, at: usize) -> Option<usize>
    requires place { at < length writes.now }
    requires best { IsBest reads.now (take at writes.now) best }
    requires within { MatchOption best (Unit {0}) (λ place. place < length writes.now) }
    ensures { IsBest reads.now (take (at + 1) writes.now) result }
{
    let write = &writes[at];
    if !write_touches_any(reads, write) {
        return best;
    }
    match best {
        Some(place) => match write_cmp(write, &writes[place]) {
            Ordering::Less => Some(at),
            _ => Some(place),
        },
        None => Some(at),
    }
}

/// The place of the least write that touches a read, and of the first among equal ones; `None` where
/// no write does. It takes no memory.
pub fn first_touch(reads: &ReadSet, writes: &[Write]) -> Option<usize>
    ensures { MatchOption result (IsUntouched reads.now.reads writes.now) (IsFirstTouch reads.now.reads writes.now) }
{
    let mut best = None;
    for at in 0..writes.len() {
        best = best_with(reads.reads.as_slice(), writes, best, at);
    }
    best
}

// Whether a path is the target's or an entry on its way, or stands at or below it.
fn is_inside(target: &Target, path: &Path) -> bool
    ensures { result ≡ is_inside target.now path.now }
{
    match target {
        Target::One(whole) => {
            path.is_prefix_of(whole)
                && (path.ends_in_keys() || path.steps.len() == whole.steps.len())
        }
        Target::Under(top) => top.is_prefix_of(path),
    }
}

// Whether the step is that of an entry of the list whose last step is the other.
fn is_entry_step(list: &Step, entry: &Step) -> bool
    ensures { result ≡ is_entry_step list.now entry.now }
{
    entry.keys.len() > 0 && list.keys.is_empty() && entry.node == list.node
}

// The step at a place.
fn step_at(path: &[Step], at: usize) -> Option<&Step>
    ensures { option_copied result ≡ slice_get path.now at }
{
    path.get(at)
}

// Whether an entry of the list stands on a path, at its end or on its way.
fn has_entry_on(list: &[Step], path: &[Step]) -> bool
    ensures { result ≡ has_entry_on list.now path.now }
{
    match list.split_last() {
        Some((last, front)) => {
            if !path.starts_with(front) {
                return false;
            }
            match step_at(path, front.len()) {
                Some(step) => is_entry_step(last, step),
                None => false,
            }
        }
        None => false,
    }
}

// Whether a list may have entries below a path.
fn is_list_under(list: &Path, top: &Path) -> bool
    ensures { result ≡ is_list_under list.now top.now }
{
    top.is_prefix_of(list) && top.steps.len() < list.steps.len() && !list.ends_in_keys()
}

// Whether an entry of the list may be written inside a target.
fn has_entry_inside(target: &Target, list: &Path) -> bool
    ensures { result ≡ has_entry_inside target.now list.now }
{
    match target {
        Target::One(path) => has_entry_on(list.steps.as_slice(), path.steps.as_slice()),
        Target::Under(top) => top.is_entry_of(list) || is_list_under(list, top),
    }
}

/// Whether some write inside a target touches a read. It takes no memory.
pub fn covers(target: &Target, read: &Read) -> bool
    ensures { IsTrue result ↔ Covers target.now read.now }
{
    match read {
        Read::Item(path) => is_inside(target, path),
        Read::Keys(list) => has_entry_inside(target, list),
        Read::Service(_) => false,
    }
}
