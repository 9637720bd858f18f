//! Answers as texts, as a transcript has them.
ghost use Rattle.std.specs.Prelude.{◌≡◌, length};
ghost use Rattle.orc_print.specs.Printed.{is_answer_among};

use crate::shown::Shown;
use crate::undone::Undone;
use orc_call::Answer;
use orc_check::{KIND, LEAFREF};
use orc_template::{NO_VALUE, SELF_CLASH};
use orc_text::Text;
use std::str::from_utf8;

// Whether an answer names one of so many devices, and a rule that there is, where it names any.
fn is_among(devices: usize, answer: &Answer) -> bool
    ensures { result ≡ is_answer_among devices answer.now }
{
    match answer {
        Answer::Invalid(_, rule) => KIND <= *rule && *rule <= LEAFREF,
        Answer::Expand(_, _, rule) => NO_VALUE <= *rule && *rule <= SELF_CLASH,
        Answer::Clash(device, _, _)
        | Answer::OutOfSync(device, _)
        | Answer::Refused(device, _)
        | Answer::LinkFault(device, _) => (*device as usize) < devices,
        _ => true,
    }
}

// Adds a line without its end.
fn push_line(out: &mut Shown, line: &[u8]) -> Result<(), Undone> {
    match from_utf8(line) {
        Ok(text) => out.add(&[text.trim_end()]),
        Err(_) => Err(Undone),
    }
}

/// Adds the caller, the number and the answer that they got.
pub(crate) fn push_answer(
    out: &mut Shown,
    names: &[Text],
    caller: &Text,
    number: u64,
    answer: &Answer,
) -> Result<(), Undone> {
    if !is_among(names.len(), answer) {
        return Err(Undone);
    }
    let line = orc_print::answer(out.alloc, caller, number, answer, names)?;
    push_line(out, line.as_slice())
}
