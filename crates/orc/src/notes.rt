//! What is said on standard error of what a run knew at its end, beside its status.
use orc_run::Notes;

// What is said of bytes after a journal.
const NOT_COUNTED: &str = "They don't count, and the next entry is written over them.";

/// Writes which devices are out of step with what is due there, each with its cause.
pub(crate) fn report_devices<R: Eprint + AllocGlobal>(rt: &R, notes: &Notes) {
    if notes.out_of_step.is_empty() {
        return;
    }
    if let Ok(named) = notes.devices_named(rt.alloc()) {
        let named = named.as_str();
        let _ = eprintln!(rt;
            "Out of step: {named}. A line `reconcile` brings back what is due there."
        );
    }
}

/// Writes which calls have no answer yet.
pub(crate) fn report_calls<R: Eprint + AllocGlobal>(rt: &R, notes: &Notes) {
    if notes.open_calls.is_empty() {
        return;
    }
    if let Ok(named) = notes.calls_named(rt.alloc()) {
        let named = named.as_str();
        let _ = eprintln!(rt;
            "Without an answer: {named}. A line `settle` brings each call to its end."
        );
    }
}

/// Writes how many bytes stood after the gate that ended the journal, where there were any.
pub(crate) fn report_after_end<R: Eprint>(rt: &R, notes: &Notes) {
    let count = notes.after_end;
    if count > 0 {
        let _ = eprintln!(rt;
            "Bytes after the gate that ended the journal: {count}. {NOT_COUNTED}"
        );
    }
}
