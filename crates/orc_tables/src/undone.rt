//! Why a line isn't done.
use orc_path::PathFault;
use orc_text::Memory;
use std::alloc::{AllocError, AllocFailed};
use std::num::ParseIntError;

/// The line is none of its table, what it asks for is refused, or memory could not be had.
#[derive(Clone, Copy)]
pub(crate) struct Undone;

impl From<Memory> for Undone {
    fn from(_: Memory) -> Undone {
        Undone
    }
}

impl From<AllocError> for Undone {
    fn from(_: AllocError) -> Undone {
        Undone
    }
}

impl<T: Drop> From<AllocFailed<T>> for Undone {
    fn from(_: AllocFailed<T>) -> Undone {
        Undone
    }
}

impl From<PathFault> for Undone {
    fn from(_: PathFault) -> Undone {
        Undone
    }
}

impl From<ParseIntError> for Undone {
    fn from(_: ParseIntError) -> Undone {
        Undone
    }
}
