//! What a device of an acceptance says of configurations, and how sessions are numbered. The functions
//! do nothing: their contracts are the laws.
ghost use Rattle.orc_node.specs.Laws.{ChangesAreTaken, KeepsWhatItComesBackTo, KindsAreRight, NumbersBeginAgain, RunsWhatWasCommitted, SessionsStaySound};

/// The test of a device says which trees are equal, and the changes between two trees lead from the
/// one to the other, where that is a configuration.
pub fn kinds_are_right()
    ensures { KindsAreRight }
{}

/// The changes between two trees of the device's schema are taken.
pub fn changes_are_taken()
    ensures { ChangesAreTaken }
{}

/// Each session has the number after the last one, and past 4,294,967,295 they begin with 1 again.
pub fn numbers_begin_again()
    ensures { NumbersBeginAgain }
{}

/// What a device comes back to changes by Commit and Confirm alone.
pub fn kept_tree_changes_by_commits()
    ensures { KeepsWhatItComesBackTo }
{}

/// What a device runs changes by commits and Cancel alone, and by time and restarts.
pub fn running_changes_by_commits()
    ensures { RunsWhatWasCommitted }
{}

/// At most eight sessions live, none has the number 0, and who holds a lock lives.
pub fn sessions_stay_sound()
    ensures { SessionsStaySound }
{}
