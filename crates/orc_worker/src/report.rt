//! What a worker reports.

use orc_call::Tag;

/// What became of a transaction on a device.
#[derive(Clone, Copy, PartialEq, Eq)]
pub enum Outcome {
    /// The device holds the change under a confirmed commit.
    Prepared,
    /// The device refused an operation of preparing.
    Refused(Tag),
    /// The link failed, or a reply counts as that; its count of faults was this.
    Lost(u64),
    /// Memory ran out in preparing.
    Short,
    Confirmed,
    /// Nothing was pending any more when it was to be confirmed.
    Gone,
    Cancelled,
}

/// The outcome so far, and the count of faults where the reply is a fault of the link or counts as one.
#[derive(Clone, Copy, PartialEq, Eq)]
pub struct Report {
    pub outcome: Outcome,
    pub fault: Option<u64>,
}
