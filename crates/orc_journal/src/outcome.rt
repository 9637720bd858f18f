//! What comes of an append.

/// What came of an append.
#[derive(Clone, Copy)]
pub enum Appended {
    /// The entry is in the journal.
    Done,
    /// The armed operation came. What a crash leaves has the entries before, or the new one too.
    Stopped,
    /// An operation of the disk failed, and no armed one came. The same is so of what a crash leaves.
    Failed,
    /// The entry with its gate doesn't fit; the journal has this length. Nothing changed.
    Full { len: u64 },
    /// Memory could not be had, which only an intent takes. Nothing changed.
    Memory,
}
