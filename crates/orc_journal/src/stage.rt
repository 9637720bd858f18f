//! The stages of a transaction.

/// What the journal says of a transaction that has its intent.
#[derive(Clone, Copy)]
pub(crate) enum Stage {
    /// It has neither Decide nor Abort.
    Open,
    /// It has its Decide.
    Decided,
    /// It has its Abort.
    Aborted,
    /// It has its Settled.
    Done,
}
