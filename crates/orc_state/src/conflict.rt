//! Which entry after a front wrote what was read.
ghost use Rattle.std.specs.Prelude.{◌≡◌, ◌<◌, ◌≤◌, ◌+◌, length, slice_get, IfOk, MatchOption, OnOk};
ghost use Rattle.orc_state.specs.inside.Firsts.{IsFirstIn, AreUntouched};

use orc_expr::{ReadSet, first_touch};
use orc_path::Write;
use orc_text::Row;

/// The first row from a place on that has a write that touches a read, and the place in that row of the
/// least such write. It takes no memory.
pub(crate) fn first_conflict(
    reads: &ReadSet,
    rows: &[Row<Write>],
    front: usize,
) -> Option<(usize, usize)>
    requires { front ≤ length rows.now }
    ensures { MatchOption result (AreUntouched reads.now.reads rows.now front (length rows.now))
        (IsFirstIn reads.now.reads rows.now front) }
{
    for at in front..rows.len() {
        if let Some(place) = first_touch(reads, rows[at].as_slice()) {
            return Some((at, place));
        }
    }
    None
}
