//! Calls of texts.

use crate::shown::Shown;
use crate::undone::Undone;
use orc_bundle::{ScriptStep, ScriptedBundle, read_scripted};
use orc_call::Call;
use std::alloc::Global;

// The lines of these declarations, and of a script with one call.
fn bundle_of(alloc: Global, declared: &str, text: &str) -> Result<Shown, Undone> {
    let mut lines = Shown::new(alloc);
    lines.add(&[declared, "script\ncall "])?;
    for line in text.split("; ") {
        lines.add(&[line, "\n"])?;
    }
    lines.add(&["end\nsettle\n"])?;
    Ok(lines)
}

/// The call of a text under the declarations of these lines: `CALLER NUMBER; LINE; LINE`.
pub(crate) fn call_of(alloc: Global, declared: &str, text: &str) -> Result<Call, Undone> {
    let lines = bundle_of(alloc, declared, text)?;
    match read_scripted(alloc, lines.as_str().as_bytes()) {
        Ok(bundle) => first_call(alloc, bundle),
        Err(_) => Err(Undone),
    }
}

// The first call of a bundle's script.
fn first_call(alloc: Global, bundle: ScriptedBundle) -> Result<Call, Undone> {
    match bundle.steps.as_slice().first() {
        Some(ScriptStep::Call(call)) => Ok(call.copy(alloc)?),
        _ => Err(Undone),
    }
}
