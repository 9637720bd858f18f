//! A bundle with its script: both readings, one after the other.
ghost use Rattle.std.specs.Prelude.{◌<◌, ◌≤◌, ◌^◌, IfOk, OnOk, length};
ghost use Rattle.orc_bundle.specs.Bundles.{IsScripted, scripted_of};
ghost use Rattle.orc_lines.specs.Answers.{Gives};
ghost use Rattle.orc_lines.specs.declared.lines.TheConstants.{LARGEST_BUNDLE};

use crate::read::read_bundle;
use orc_decls::{BundleFault, Decls};
use orc_script::{ScriptStep, read_script};
use orc_text::Row;
use std::alloc::Global;

/// The declarations and the steps of the script.
#[derive(Drop)]
pub struct ScriptedBundle {
    pub decls: Decls,
    pub steps: Row<ScriptStep>,
}

/// The bundle of these bytes with its script, or the first line at fault in all of them, counted from 1,
/// and the first rule that it breaks. The declarations stand above the script, so their fault goes first.
pub fn read_scripted(alloc: Global, bytes: &[u8]) -> Result<ScriptedBundle, BundleFault>
    // The one answer, unless memory runs out.
    ensures gives { Gives (scripted_of bytes.now) result }
    // What is read is lawful.
    ensures lawful { IfOk result IsScripted }
    ensures small { OnOk result (length bytes.now ≤ LARGEST_BUNDLE) }
    ensures short { IfOk result (λ bundle. length bundle.decls.text < 2 ^ 32) }
{
    let bundle = read_bundle(alloc, bytes)?;
    let steps = read_script(alloc, bytes, bundle.rest, bundle.line, &bundle.decls)?;
    Ok(ScriptedBundle {
        decls: bundle.decls,
        steps,
    })
}
