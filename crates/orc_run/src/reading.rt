//! Reading the bundle that a source gives, or that a command makes.
ghost use Rattle.std.specs.Prelude.{◌≡◌, ◌≤◌, ◌+◌, ℕ, Err, Ok, MatchResult, length, IfOk, IfErr, IsErrOf};
ghost use Rattle.orc_bundle.specs.Bundles.{scripted_of};
ghost use Rattle.orc_decls.specs.declared.rule.Rule.{Rule};
ghost use Rattle.orc_io.specs.Counts.{Rose};
ghost use Rattle.orc_io.specs.Pieces.{GivesUpTo};
ghost use Rattle.orc_lines.specs.Answers.{Gives};
ghost use Rattle.orc_lines.specs.declared.lines.TheConstants.{LARGEST_BUNDLE};
ghost use Rattle.orc_generator.specs.Generated.{generated};
ghost use Rattle.orc_run.specs.Ends.{GivesBundle, GivesBundleFor, GivesFault, GivesFaultFor};
ghost use Rattle.orc_run.specs.declared.stop.Stop.{Stop};
ghost use Rattle.orc_run.specs.inside.Inputs.{IsInput, IsInputStop, IsMadeStop, numbers_of, scripted};
ghost use Rattle.orc_words.specs.Words.{IsInRanges};
ghost use Rattle.orc_words.specs.declared.words.Command.{Command};

use crate::{Notes, Stop};
use orc_bundle::{LARGEST_BUNDLE, read_bundle_explained};
use orc_declarations::Bundle;
use orc_decls::BundleFault;
use orc_generator::generate;
use orc_io::{Source, WholeFault, read_whole};
use orc_script::{ScriptStep, read_script_explained};
use orc_text::{Memory, Row};
use orc_words::Command;
use std::alloc::Global;

/// What a source gave: what is declared, and the steps of the script.
#[derive(Drop)]
pub(crate) struct Input {
    pub(crate) bundle: Bundle,
    pub(crate) steps: Row<ScriptStep>,
}

/// The bundle that a command is done with: what the source gives, or what the command's numbers make. What in
/// particular is at fault in a bundle goes into the notes.
pub(crate) fn input_for<S: Source>(
    alloc: Global,
    command: &Command,
    source: &mut S,
    notes: &mut Notes,
) -> Result<Input, Stop>
    requires ranges { IsInRanges command.now }
    ensures gives { IfOk result (λ input.
        GivesBundleFor command.now (S.source.left source.old) (S.source.left source.new) (scripted input)) }
    ensures lawful { IfOk result IsInput }
    ensures fault { (line : ℕ) (rule : Rule) → IsErrOf result (Stop.Bundle line rule)
        → GivesFaultFor command.now (S.source.left source.old) (S.source.left source.new) line rule }
    ensures begun { GivesUpTo (LARGEST_BUNDLE + 1) (S.source.left source.old) (S.source.left source.new) }
    ensures read { IsErrOf result Stop.ReadFault → Rose (S.source.faults source.old) (S.source.faults source.new) }
    ensures causes { IfErr result IsInputStop }
{
    match numbers_of(command) {
        Some((number, devices, calls)) => made_input(alloc, number, devices, calls, notes),
        None => read_input(alloc, source, notes),
    }
}

// The numbers of a command that makes a bundle.
fn numbers_of(command: &Command) -> Option<(u64, u32, u32)>
    ensures { result ≡ numbers_of command.now }
{
    match command {
        Command::Gen {
            number,
            devices,
            calls,
        } => Some((*number, *devices, *calls)),
        Command::Check => None,
        Command::Run => None,
        Command::History => None,
    }
}

// The bundle that three numbers make.
fn made_input(
    alloc: Global,
    number: u64,
    devices: u32,
    calls: u32,
    notes: &mut Notes,
) -> Result<Input, Stop>
    requires ranges { IsInRanges (Command.Gen number devices calls) }
    ensures gives { IfOk result (λ input. scripted_of (generated number devices calls) ≡ Ok (scripted input)) }
    ensures lawful { IfOk result IsInput }
    ensures fault { (line : ℕ) (rule : Rule) → IsErrOf result (Stop.Bundle line rule)
        → scripted_of (generated number devices calls) ≡ Err (line, rule) }
    ensures causes { IfErr result IsMadeStop }
{
    match generate(alloc, number, devices, calls) {
        Ok(bytes) => input_or_stop(alloc, bytes.as_slice(), notes),
        Err(Memory) => Err(Stop::Memory),
    }
}

// The bundle of these bytes with its script, or how the program ends where they have none.
fn input_or_stop(alloc: Global, bytes: &[u8], notes: &mut Notes) -> Result<Input, Stop>
    ensures gives { IfOk result (λ input. scripted_of bytes.now ≡ Ok (scripted input)) }
    ensures lawful { IfOk result IsInput }
    ensures fault { (line : ℕ) (rule : Rule) → IsErrOf result (Stop.Bundle line rule)
        → scripted_of bytes.now ≡ Err (line, rule) }
    ensures causes { IfErr result IsMadeStop }
{
    match input_of(alloc, bytes, notes) {
        Ok(read) => Ok(read),
        Err(BundleFault::At { line, rule }) => Err(Stop::Bundle { line, rule }),
        Err(BundleFault::Memory) => Err(Stop::Memory),
    }
}

// The bundle that the source gives.
fn read_input<S: Source>(alloc: Global, source: &mut S, notes: &mut Notes) -> Result<Input, Stop>
    ensures gives { IfOk result (λ input.
        GivesBundle (S.source.left source.old) (S.source.left source.new) (scripted input)) }
    ensures lawful { IfOk result IsInput }
    ensures fault { (line : ℕ) (rule : Rule) → IsErrOf result (Stop.Bundle line rule)
        → GivesFault (S.source.left source.old) (S.source.left source.new) line rule }
    ensures begun { GivesUpTo (LARGEST_BUNDLE + 1) (S.source.left source.old) (S.source.left source.new) }
    ensures read { IsErrOf result Stop.ReadFault → Rose (S.source.faults source.old) (S.source.faults source.new) }
    ensures causes { IfErr result IsInputStop }
{
    let bytes = match read_whole(alloc, source, LARGEST_BUNDLE) {
        Ok(bytes) => bytes,
        Err(WholeFault::Failed) => return Err(Stop::ReadFault),
        Err(WholeFault::Memory) => return Err(Stop::Memory),
    };
    match input_of(alloc, bytes.as_slice(), notes) {
        Ok(input) => Ok(input),
        Err(BundleFault::At { line, rule }) => Err(Stop::Bundle { line, rule }),
        Err(BundleFault::Memory) => Err(Stop::Memory),
    }
}

// The bundle of these bytes with its script, or the first line at fault in all of them, counted from 1,
// and the first rule that it breaks.
fn input_of(alloc: Global, bytes: &[u8], notes: &mut Notes) -> Result<Input, BundleFault>
    ensures gives { MatchResult result (λ input. scripted_of bytes.now ≡ Ok (scripted input))
        (λ fault. Gives (scripted_of bytes.now) (Err fault)) }
    ensures lawful { IfOk result IsInput }
    ensures small { IfOk result (λ _. length bytes.now ≤ LARGEST_BUNDLE) }
{
    let bundle = match read_bundle_explained(alloc, bytes) {
        Ok(bundle) => bundle,
        Err(fault) => return Err(notes.take_fault(alloc, fault)),
    };
    match read_script_explained(alloc, bytes, bundle.rest, bundle.line, &bundle.decls) {
        Ok(steps) => Ok(Input { bundle, steps }),
        Err(fault) => Err(notes.take_fault(alloc, fault)),
    }
}
