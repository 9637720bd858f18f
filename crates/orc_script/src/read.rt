//! Reading of a script line by line.
ghost use Rattle.std.specs.Prelude.{◌<◌, ◌≤◌, ◌+◌, ◌^◌, IfOk, OnOk, IsTrue, length};
ghost use Rattle.std.specs.List.{list_all};
ghost use Rattle.orc_decls.specs.Declarations.{AreDecls};
ghost use Rattle.orc_lines.specs.Answers.{Explains, Gives};
ghost use Rattle.orc_lines.specs.Lines.{lines_of};
ghost use Rattle.orc_lines.specs.declared.lines.TheConstants.{LARGEST_BUNDLE};
ghost use Rattle.orc_script.specs.Scripts.{no_steps, script_of, script_steps};
ghost use Rattle.orc_script.specs.Steps.{IsScript, is_step};

use crate::script::Script;
use crate::step::ScriptStep;
use orc_decls::{BundleFault, Decls};
use orc_lines::{ExplainedFault, at_line, first_line, plain_fault, seen};
use orc_text::Row;
use std::alloc::Global;

// Reads the lines of the script, before which stand so many bytes and so many lines.
fn read_lines(
    alloc: Global,
    decls: &Decls,
    at: u64,
    number: u64,
    bytes: &[u8],
) -> Result<Row<ScriptStep>, ExplainedFault>
    requires decls { AreDecls decls.now }
    requires small { at ≤ LARGEST_BUNDLE }
    requires lines { number ≤ at }
    requires room { at + length bytes.now < 2 ^ 63 }
    ensures gives { Explains (script_steps decls.now no_steps at number (lines_of bytes.now)) result }
    ensures lawful { IfOk result (λ steps. IsTrue (list_all (is_step decls.now) steps)) }
    ensures small { OnOk result (at + length bytes.now ≤ LARGEST_BUNDLE) }
{
    let mut script = Script::new(alloc);
    let mut rest = bytes;
    let mut at = at;
    let mut number = number;
    'lines: while !rest.is_empty() {
        let (line, later) = first_line(rest);
        number += 1;
        if let Err(fault) = script.take(alloc, decls, at, line, later) {
            return Err(at_line(number, fault));
        }
        at += line.len() as u64;
        rest = later;
    }
    Ok(script.steps)
}

/// The same as `read_script` answers, and of a fault what in particular it is.
pub fn read_script_explained(
    alloc: Global,
    bytes: &[u8],
    rest: usize,
    line: u64,
    decls: &Decls,
) -> Result<Row<ScriptStep>, ExplainedFault>
    requires decls { AreDecls decls.now }
    requires within { rest ≤ length bytes.now }
    requires small { rest ≤ LARGEST_BUNDLE }
    requires lines { line ≤ rest }
    // The one answer, unless memory runs out.
    ensures gives { Explains (script_of decls.now bytes.now rest line) result }
    // What is read is lawful.
    ensures lawful { IfOk result (IsScript decls.now) }
    ensures small { OnOk result (length bytes.now ≤ LARGEST_BUNDLE) }
{
    let text = seen(bytes);
    let (_, script) = text.split_at(rest);
    read_lines(alloc, decls, rest as u64, line, script)
}

/// The script of a bundle: the steps in the lines that stand after so many bytes and so many lines of
/// its text, under its declarations, as `read_bundle` of `orc_bundle` answers them; or the first line at
/// fault, counted from 1 at the begin of the text, and the first rule that it breaks.
///
/// The text is given whole, since the limit of a bundle is one of all its bytes. Of more bytes than a
/// bundle may have one more is looked at, as if these were all.
pub fn read_script(
    alloc: Global,
    bytes: &[u8],
    rest: usize,
    line: u64,
    decls: &Decls,
) -> Result<Row<ScriptStep>, BundleFault>
    requires decls { AreDecls decls.now }
    requires within { rest ≤ length bytes.now }
    requires small { rest ≤ LARGEST_BUNDLE }
    requires lines { line ≤ rest }
    // The one answer, unless memory runs out.
    ensures gives { Gives (script_of decls.now bytes.now rest line) result }
    // What is read is lawful.
    ensures lawful { IfOk result (IsScript decls.now) }
    ensures small { OnOk result (length bytes.now ≤ LARGEST_BUNDLE) }
{
    match read_script_explained(alloc, bytes, rest, line, decls) {
        Ok(steps) => Ok(steps),
        Err(fault) => Err(plain_fault(fault)),
    }
}
