//! Rows cut short.
ghost use Rattle.std.specs.Prelude.{◌≡◌, take};

use orc_text::Row;
use std::alloc::Global;
use std::mem;

/// Leaves the first so many items of a row.
pub(crate) fn cut<T: Drop>(alloc: Global, rows: &mut Row<T>, count: usize)
    ensures { rows.new ≡ take count rows.old }
{
    let mut items = mem::replace(rows, Row::new(alloc)).into_vec();
    items.truncate(count);
    *rows = Row::from_vec(items);
}
