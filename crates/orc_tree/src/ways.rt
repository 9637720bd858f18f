//! The entries on the way to a path that have no row yet.
ghost use Rattle.std.specs.Prelude.{◌≡◌, ◌+◌, ◌-◌, ◌<◌, ◌≤◌, ◌&&◌, length, take, IfOk, IsTrue, is_some};
ghost use Rattle.std.specs.FinMap.{find};
ghost use Rattle.orc_path.specs.Order.{path_cmp};
ghost use Rattle.orc_path.specs.Steps.{is_path};
ghost use Rattle.orc_path.specs.Configurations.{has_keys_at, enter_all, ways, ways_up_to};
ghost use Rattle.orc_tree.specs.Pages.{chapters_rows, chapters_map};
ghost use Rattle.orc_tree.specs.inside.Places.{AreChaptersInOrder, AreLaid, AreChapters};
ghost use Rattle.orc_tree.specs.inside.Puts.{HasNoneBeyond, AreGaps};

use crate::chapter::Chapter;
use crate::finger::{Finger, find_near};
use orc_path::{Path, Step};
use orc_text::Memory;
use std::alloc::Global;
use std::sync::Arc;

// Whether the step at a place has keys.
fn has_keys(steps: &[Step], at: usize) -> bool
    requires { at < length steps.now }
    ensures { result ≡ has_keys_at steps.now at }
{
    let step = &steps[at];
    step.keys.len() > 0
}

// Whether the step at a place has keys and the path up to it has a row.
fn is_present(chapters: &[Arc<Chapter>], finger: &mut Finger, steps: &[Step], at: usize) -> bool
    requires sorted { AreChaptersInOrder chapters.now }
    requires laid { AreLaid chapters.now }
    requires within { at < length steps.now }
    ensures { result
        ≡ (has_keys_at steps.now at
        && is_some (find path_cmp (take (at + 1) steps.now) (chapters_rows chapters.now))) }
{
    has_keys(steps, at) && find_near(chapters, finger, &steps[..at + 1]).is_some()
}

// How many steps the longest entry on the way to a path has that has a row, or 0 where none has
// one. It is looked for from the path's end, since the entries on the way to one that is there are
// there, too: most paths are put beside others, and then one search does for all.
fn present_steps(chapters: &[Arc<Chapter>], finger: &mut Finger, steps: &[Step]) -> usize
    requires { AreChapters chapters.now }
    ensures within { result ≤ length steps.now - 1 }
    ensures entered { enter_all (ways_up_to result steps.now) (chapters_map chapters.now) ≡ chapters_map chapters.now }
    ensures beyond { HasNoneBeyond result steps.now (chapters_rows chapters.now) }
{
    let mut at = steps.len().saturating_sub(1);
    while at > 0 {
        if is_present(chapters, finger, steps, at - 1) {
            return at;
        }
        at -= 1;
    }
    0
}

// Copies of the entries on the way to a path that have no row, the shorter ones first. To enter
// these is to enter all on the way.
pub(crate) fn missing_ways(
    alloc: Global,
    chapters: &[Arc<Chapter>],
    finger: &mut Finger,
    path: &Path,
) -> Result<Vec<Path>, Memory>
    requires { AreChapters chapters.now }
    ensures entered { IfOk result
        (λ missing. enter_all missing.items (chapters_map chapters.now)
        ≡ enter_all (ways path.now) (chapters_map chapters.now)) }
    ensures gaps { IfOk result (λ missing. AreGaps path.now (chapters_rows chapters.now) missing.items) }
    ensures path { IsTrue (is_path path.now) }
{
    let mut missing = Vec::new(alloc);
    let steps = path.steps.as_slice();
    let present = present_steps(chapters, finger, steps);
    for at in present..steps.len().saturating_sub(1) {
        if has_keys(steps, at) {
            missing.push(path.first_steps(alloc, at + 1)?)?;
        }
    }
    Ok(missing)
}
