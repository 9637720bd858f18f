//! What holds of each mender. The functions do nothing: their contracts are the laws.
ghost use Rattle.orc_recover.specs.Courses.{ReconcilesAlongReplies};
ghost use Rattle.orc_recover.specs.Menders.{EndsWhereItSays, MendingIsDue};

/// An operation is due for a mender except where it has ended.
pub fn mending_is_due()
    ensures { MendingIsDue }
{}

/// A mender says how it ended exactly by the reply after which it has ended.
pub fn ends_where_it_says()
    ensures { EndsWhereItSays }
{}

/// Along all replies a mender opens a session, confirms or cancels what is left, reads running, and
/// brings it to what is due, until a reply isn't wanted.
pub fn reconciles_along_replies()
    ensures { ReconcilesAlongReplies }
{}
