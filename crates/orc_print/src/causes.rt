//! Why a call or a reconciliation was refused.
ghost use Rattle.std.specs.Prelude.{◌≡◌};
ghost use Rattle.orc_print.specs.Causes.{link_fault_words, refused_words, tag_word, why_words, written_words};
ghost use Rattle.orc_print.specs.inside.Adding.{Adds};

use orc_call::{Tag, Why};
use orc_path::Write;
use orc_text::{Memory, Text};
use std::alloc::Global;

/// The error tag by which a device refuses.
pub(crate) fn tag_word(tag: Tag) -> &'static str
    ensures { result.now ≡ tag_word tag }
{
    match tag {
        Tag::LockDenied => "lock-denied",
        Tag::InUse => "in-use",
        Tag::InvalidValue => "invalid-value",
        Tag::OperationFailed => "operation-failed",
        Tag::NoSession => "no-session",
    }
}

/// Why the state of a device isn't known.
pub(crate) fn push_why(out: &mut String, alloc: Global, why: Why) -> Result<(), Memory>
    ensures { Adds result out.old out.new (why_words why) }
{
    match why {
        Why::Fault(count) => {
            out.push_str("fault ")?;
            out.push_str(count.to_string(alloc)?.as_str())?;
        }
        Why::Gone(t) => {
            out.push_str("gone ")?;
            out.push_str(t.to_string(alloc)?.as_str())?;
        }
        Why::Recovered => out.push_str("recovered")?,
    }
    Ok(())
}

/// What a call of the history wrote.
pub(crate) fn push_written(out: &mut String, alloc: Global, write: &Write) -> Result<(), Memory>
    ensures { Adds result out.old out.new (written_words write.now) }
{
    match write {
        Write::At(path) => out.push_str(path.text(alloc)?.as_str())?,
        Write::Service(id) => {
            out.push_str("service ")?;
            out.push_str(id.as_str())?;
        }
    }
    Ok(())
}

/// That the device of this name refused, with the tag.
pub(crate) fn push_refused(out: &mut String, name: &Text, tag: Tag) -> Result<(), Memory>
    ensures { Adds result out.old out.new (refused_words name.now tag) }
{
    out.push_str("Refused ")?;
    out.push_str(name.as_str())?;
    out.push_str(" ")?;
    out.push_str(tag_word(tag))?;
    Ok(())
}

/// That the link of the device of this name failed, with the count of its faults.
pub(crate) fn push_link_fault(
    out: &mut String,
    alloc: Global,
    name: &Text,
    count: u64,
) -> Result<(), Memory>
    ensures { Adds result out.old out.new (link_fault_words name.now count) }
{
    out.push_str("LinkFault ")?;
    out.push_str(name.as_str())?;
    out.push_str(" ")?;
    out.push_str(count.to_string(alloc)?.as_str())?;
    Ok(())
}
