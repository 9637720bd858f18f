//! The gate that stands before each entry and after the last one.

/// An entry after this gate counts.
pub(crate) const OPEN: u8 = 1;

/// Each byte but `OPEN` is a closed gate, which ends the journal. This one is written.
pub(crate) const CLOSED: u8 = 0;
