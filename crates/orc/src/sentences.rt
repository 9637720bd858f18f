//! What the way in which a run ended means, in words for a user.
use orc_run::Stop;

/// What it means that a run ended so, and what stands then. The words and the bundle have texts of
/// their own.
pub(crate) fn sentence(stop: &Stop) -> &'static str {
    match stop {
        Stop::Bundle { .. } => "The bundle is at fault in this line.",
        Stop::Usage => "The program doesn't take these words.",
        Stop::ReadFault => "Standard input couldn't be read to its end. Nothing was run.",
        Stop::WriteFault => {
            "Standard output didn't take all that was printed. No step was done after that."
        }
        Stop::JournalFault => {
            "The journal couldn't be read, written or synced. What was answered Committed before is in it; a call that \
             was being served may be in it too, which a later run shows."
        }
        Stop::Memory => {
            "Memory ran out; YANG modules that are past a limit of their schemas count as that. What was answered \
             Committed before is in the journal."
        }
        Stop::Foreign { .. } => {
            "The journal was begun with other declarations than the lines before the bundle's `script`. The number is \
             the first byte, counted from 0, in which the two differ. Under a journal nothing is added to the \
             declarations or changed in them: bring these lines back, or begin another journal in a file that isn't \
             there yet, and send the calls that are to live there again. This one is left as it was."
        }
        Stop::Full { .. } => {
            "The journal has so many bytes, and with the next entry it would have more than 268435456, the limit. What \
             was answered Committed is in it."
        }
        Stop::NotJournal =>
            "The file isn't empty and doesn't begin as a journal. It is left as it was.",
        Stop::Damaged { .. } => {
            "What begins at this byte of the journal, counted from 0, is no entry, or none that may follow those \
             before it. All that the file held is left as it was."
        }
    }
}
