//! The byte of each kind of entry.

pub(crate) const INTENT: u8 = 1;

pub(crate) const DECIDE: u8 = 2;

pub(crate) const ABORT: u8 = 3;

pub(crate) const SETTLED: u8 = 4;
