//! What came of the calls of a hub, as texts.

use crate::hub::answers::push_answer;
use crate::shown::Shown;
use crate::undone::Undone;
use orc_hub::{Admit, Decided, Submitted};
use orc_text::Text;

/// Adds what came of a submission of this caller and number.
pub(crate) fn push_submitted(
    out: &mut Shown,
    names: &[Text],
    caller: &Text,
    number: u64,
    came: &Submitted,
) -> Result<(), Undone> {
    match came {
        Submitted::Answered(answer) => push_answer(out, names, caller, number, answer),
        Submitted::Queued(t) => out.number("Queued", *t),
    }
}

/// Adds what came of an admission.
pub(crate) fn push_admit(out: &mut Shown, names: &[Text], came: &Admit) -> Result<(), Undone> {
    match came {
        Admit::Nothing => out.add(&["Nothing"]),
        Admit::Admitted(t) => out.number("Admitted", *t),
        Admit::Answered {
            caller,
            number,
            answer,
        } => push_answer(out, names, caller, *number, answer),
        Admit::Full { len } => out.number("Full", *len),
    }
}

/// Adds what was decided or settled.
pub(crate) fn push_decided(out: &mut Shown, names: &[Text], came: &Decided) -> Result<(), Undone> {
    match came {
        Decided::Nothing => out.add(&["Nothing"]),
        Decided::Answered {
            caller,
            number,
            answer,
        } => push_answer(out, names, caller, *number, answer),
        Decided::Settled(t) => out.number("Settled", *t),
        Decided::Down => out.add(&["Down"]),
        Decided::Full { len } => out.number("Full", *len),
    }
}
