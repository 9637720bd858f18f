//! Why bytes are no YANG statements.

/// Why bytes are no list of YANG statements, or that memory could not be had. Each `at` is a number
/// of bytes from the beginning. `NotUtf8` goes first; else the fault is the one whose place is least.
#[derive(Clone, Copy, Debug, PartialEq, Eq)]
pub enum YangFault {
    /// The bytes are not UTF-8; `at` is the first byte of the first bad sequence.
    NotUtf8 { at: u64 },
    /// A byte that can't follow what stands before it.
    BadToken { at: u64 },
    /// A backslash in a double-quoted string that begins none of `\n`, `\t`, `\"`, `\\`.
    BadEscape { at: u64 },
    /// The opening mark of a string or a comment that has no end.
    OpenString { at: u64 },
    /// The text ends, at its length, within a statement or a block.
    OpenBlock { at: u64 },
    /// The `{` of a block that would be the 33rd in one another.
    Depth { at: u64 },
    /// Memory could not be had.
    Memory,
}
