//! The commands, and why words name none.

/// The most devices that a bundle may be made with.
pub const MOST_DEVICES_MADE: u64 = 64;

/// The most calls that a bundle may be made with.
pub const MOST_CALLS_MADE: u64 = 5_000;

/// What the program is to do.
#[derive(Clone, Copy)]
pub enum Command {
    /// Read the bundle, and say how many devices and steps it has.
    Check,
    /// Run the script of the bundle over the journal.
    Run,
    /// Print the history that the journal holds.
    History,
    /// Make a bundle from a number, with so many devices and calls, run its script over the journal,
    /// and print a summary.
    Gen {
        number: u64,
        devices: u32,
        calls: u32,
    },
}

/// Why words have no command.
#[derive(Clone, Copy)]
pub enum WordsFault {
    /// The words are not ones that the program takes, or ask for help or for the version.
    Usage,
    /// Memory ran out.
    Memory,
}
