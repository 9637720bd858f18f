//! The answers of calls.
ghost use Rattle.std.specs.Prelude.{◌≡◌, ◌++◌, codes, length, IfOk, IsTrue};
ghost use Rattle.std.specs.Fmt.{decimal};
ghost use Rattle.orc_path.specs.Texts.{path_text};
ghost use Rattle.orc_print.specs.Causes.{why_words, written_words};
ghost use Rattle.orc_print.specs.inside.Adding.{Adds};
ghost use Rattle.orc_print.specs.Printed.{answer_line, answer_words, expansion_word, is_answer_among, is_expansion_rule, is_rule, validity_word};

use crate::causes::{push_link_fault, push_refused, push_why, push_written};
use orc_call::{Answer, Why};
use orc_check::{KEY, KIND, MANDATORY, MAX_ELEMENTS, MIN_ELEMENTS};
use orc_decls::device_name;
use orc_path::{Path, Write};
use orc_template::{BAD_LEAF, MANY_VALUES, NO_VALUE, UNKNOWN_DEVICE};
use orc_text::{Memory, Text};
use std::alloc::Global;

/// The line of an answer: the caller, the call's number and the answer. The names are those of all
/// devices, in the order of declaration.
pub fn answer(
    alloc: Global,
    caller: &Text,
    number: u64,
    answer: &Answer,
    names: &[Text],
) -> Result<Vec<u8>, Memory>
    requires { IsTrue (is_answer_among (length names.now) answer.now) }
    ensures { IfOk result (λ bytes. bytes.items ≡ answer_line names.now caller.now number answer.now) }
{
    let mut out = String::from_str(alloc, caller.as_str())?;
    out.push_str(" ")?;
    out.push_str(number.to_string(alloc)?.as_str())?;
    out.push_str(" ")?;
    push_answer(&mut out, alloc, names, answer)?;
    out.push_str("\n")?;
    Ok(out.into_bytes())
}

// Adds a word.
fn push_word(out: &mut String, word: &str) -> Result<(), Memory>
    ensures { Adds result out.old out.new word.now }
{
    out.push_str(word)?;
    Ok(())
}

// Adds a word and a number.
fn push_counted(out: &mut String, alloc: Global, word: &str, number: u64) -> Result<(), Memory>
    ensures { Adds result out.old out.new (word.now ++ decimal number) }
{
    out.push_str(word)?;
    out.push_str(number.to_string(alloc)?.as_str())?;
    Ok(())
}

// Adds a word and a name.
fn push_named(out: &mut String, word: &str, name: &Text) -> Result<(), Memory>
    ensures { Adds result out.old out.new (word.now ++ name.now) }
{
    out.push_str(word)?;
    out.push_str(name.as_str())?;
    Ok(())
}

// Adds that the data would break a rule at a path.
fn push_invalid(out: &mut String, alloc: Global, path: &Path, rule: u8) -> Result<(), Memory>
    requires { IsTrue (is_rule rule) }
    ensures { Adds result out.old out.new
        (codes "Invalid " ++ path_text path.now ++ codes " " ++ validity_word rule) }
{
    out.push_str("Invalid ")?;
    out.push_str(path.text(alloc)?.as_str())?;
    out.push_str(" ")?;
    out.push_str(validity_word(rule))?;
    Ok(())
}

// Adds that a service can't be expanded.
fn push_expand(
    out: &mut String,
    alloc: Global,
    id: &Text,
    block: u32,
    rule: u8,
) -> Result<(), Memory>
    requires { IsTrue (is_expansion_rule rule) }
    ensures { Adds result out.old out.new
        (codes "Expand " ++ id.now ++ codes " " ++ decimal block ++ codes " " ++ expansion_word rule) }
{
    out.push_str("Expand ")?;
    out.push_str(id.as_str())?;
    out.push_str(" ")?;
    out.push_str(block.to_string(alloc)?.as_str())?;
    out.push_str(" ")?;
    out.push_str(expansion_word(rule))?;
    Ok(())
}

// Adds that a service has an unequal item on the device of this name.
fn push_clash(
    out: &mut String,
    alloc: Global,
    device: &Text,
    path: &Path,
    id: &Text,
) -> Result<(), Memory>
    ensures { Adds result out.old out.new
        (codes "Clash " ++ device.now ++ codes " " ++ path_text path.now ++ codes " " ++ id.now) }
{
    out.push_str("Clash ")?;
    out.push_str(device.as_str())?;
    out.push_str(" ")?;
    out.push_str(path.text(alloc)?.as_str())?;
    out.push_str(" ")?;
    out.push_str(id.as_str())?;
    Ok(())
}

// Adds that an entry of the history wrote what the call read.
fn push_conflict(out: &mut String, alloc: Global, entry: u64, write: &Write) -> Result<(), Memory>
    ensures { Adds result out.old out.new
        (codes "Conflict " ++ decimal entry ++ codes " " ++ written_words write.now) }
{
    out.push_str("Conflict ")?;
    out.push_str(entry.to_string(alloc)?.as_str())?;
    out.push_str(" ")?;
    push_written(out, alloc, write)
}

// Adds that the state of the device of this name isn't known.
fn push_out_of_sync(out: &mut String, alloc: Global, device: &Text, why: Why) -> Result<(), Memory>
    ensures { Adds result out.old out.new (codes "OutOfSync " ++ device.now ++ codes " " ++ why_words why) }
{
    out.push_str("OutOfSync ")?;
    out.push_str(device.as_str())?;
    out.push_str(" ")?;
    push_why(out, alloc, why)
}

// Adds the words of an answer.
fn push_answer(
    out: &mut String,
    alloc: Global,
    names: &[Text],
    answer: &Answer,
) -> Result<(), Memory>
    requires { IsTrue (is_answer_among (length names.now) answer.now) }
    ensures { Adds result out.old out.new (answer_words names.now answer.now) }
{
    match answer {
        Answer::Committed(entry) => push_counted(out, alloc, "Committed ", *entry),
        Answer::Exists(id) => push_named(out, "Exists ", id),
        Answer::Missing(id) => push_named(out, "Missing ", id),
        Answer::Invalid(path, rule) => push_invalid(out, alloc, path, *rule),
        Answer::Expand(id, block, rule) => push_expand(out, alloc, id, *block, *rule),
        Answer::Clash(device, path, id) => {
            push_clash(out, alloc, device_name(names, *device), path, id)
        }
        Answer::Conflict(entry, write) => push_conflict(out, alloc, *entry, write),
        Answer::OutOfSync(device, why) => {
            push_out_of_sync(out, alloc, device_name(names, *device), *why)
        }
        Answer::Refused(device, tag) => push_refused(out, device_name(names, *device), *tag),
        Answer::LinkFault(device, count) => {
            push_link_fault(out, alloc, device_name(names, *device), *count)
        }
        Answer::Reused(entry) => push_counted(out, alloc, "Reused ", *entry),
        Answer::Down => push_word(out, "Down"),
        Answer::JournalFault => push_word(out, "JournalFault"),
        Answer::Memory => push_word(out, "Memory"),
        Answer::Busy(number) => push_counted(out, alloc, "Busy ", *number),
    }
}

// The word for a rule of validity.
fn validity_word(rule: u8) -> &'static str
    requires { IsTrue (is_rule rule) }
    ensures { result.now ≡ validity_word rule }
{
    if rule == KIND {
        "kind"
    } else if rule == KEY {
        "key"
    } else if rule == MANDATORY {
        "mandatory"
    } else if rule == MIN_ELEMENTS {
        "min-elements"
    } else if rule == MAX_ELEMENTS {
        "max-elements"
    } else {
        "leafref"
    }
}

// The word for a rule of expansion.
fn expansion_word(rule: u8) -> &'static str
    requires { IsTrue (is_expansion_rule rule) }
    ensures { result.now ≡ expansion_word rule }
{
    if rule == NO_VALUE {
        "no-value"
    } else if rule == MANY_VALUES {
        "many-values"
    } else if rule == UNKNOWN_DEVICE {
        "unknown-device"
    } else if rule == BAD_LEAF {
        "bad-leaf"
    } else {
        "self-clash"
    }
}
