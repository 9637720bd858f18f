//! What a look found and read.
ghost use Rattle.std.specs.Prelude.{◌≡◌, Some};
ghost use Rattle.orc_expr.specs.Looks.{looked};

use crate::Read;
use orc_text::Row;
use std::alloc::Global;
use std::collections::LinkedList;

/// What a look found, in order, or `None` where the term of a predicate gave more than one text; and
/// what it read, in order. Looks are joined in time that doesn't grow with what they read.
#[derive(Drop)]
pub(crate) struct Looked<T> {
    pub(crate) found: Option<Row<T>>,
    pub(crate) reads: LinkedList<Read>,
}

/// These were found, and nothing was read.
pub(crate) fn unread<T>(alloc: Global, found: Row<T>) -> Looked<T>
    ensures { result ≡ looked found }
{
    Looked {
        found: Some(found),
        reads: LinkedList::new(alloc),
    }
}
