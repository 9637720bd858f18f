//! The words of a line `fault`: which operation of a device fails, and when.
ghost use Rattle.std.specs.Prelude.{◌≡◌};
ghost use Rattle.orc_lines.specs.Answers.{ReadsLine};
ghost use Rattle.orc_script.specs.Operations.{moment_named, operation_named};
ghost use Rattle.orc_script.specs.Scripts.{link_fault_of};

use orc_decls::Rule;
use orc_device::{OpKind, When};
use orc_lines::{LineFault, breaks, cut};

// The kind of operations that a word names, as a log prints it.
#[tactic(auto, unfolding(crate::specs::Operations::operation_named))]
fn operation_named(word: &str) -> Option<OpKind>
    ensures { result ≡ operation_named word.now }
{
    match word {
        "OpenSession" => Some(OpKind::OpenSession),
        "LockRunning" => Some(OpKind::LockRunning),
        "LockCandidate" => Some(OpKind::LockCandidate),
        "Edit" => Some(OpKind::Edit),
        "Validate" => Some(OpKind::Validate),
        "CommitConfirmed" => Some(OpKind::CommitConfirmed),
        "Commit" => Some(OpKind::Commit),
        "Confirm" => Some(OpKind::Confirm),
        "Cancel" => Some(OpKind::Cancel),
        "Discard" => Some(OpKind::Discard),
        "UnlockCandidate" => Some(OpKind::UnlockCandidate),
        "UnlockRunning" => Some(OpKind::UnlockRunning),
        "CloseSession" => Some(OpKind::CloseSession),
        "GetRunning" => Some(OpKind::GetRunning),
        _ => None,
    }
}

// Whether an operation fails before it takes effect, or after.
#[tactic(auto, unfolding(crate::specs::Operations::moment_named))]
fn moment_named(word: &str) -> Option<When>
    ensures { result ≡ moment_named word.now }
{
    match word {
        "before" => Some(When::Before),
        "after" => Some(When::After),
        _ => None,
    }
}

/// `OP before` and `OP after`: a kind of operations, and when the next one fails.
#[tactic(auto, unfolding(crate::specs::Scripts::link_fault_of))]
pub(crate) fn read_fault(rest: &str) -> Result<(OpKind, When), LineFault>
    ensures { ReadsLine (link_fault_of rest.now) result }
{
    let Some((operation, moment)) = cut(rest) else {
        return breaks(Rule::Line);
    };
    let Some(operation) = operation_named(operation) else {
        return breaks(Rule::Line);
    };
    let Some(moment) = moment_named(moment) else {
        return breaks(Rule::Line);
    };
    Ok((operation, moment))
}
