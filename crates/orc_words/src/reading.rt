//! The words, read by the parser of command lines.
ghost use Rattle.std.specs.Prelude.{◌≡◌, ◌≢◌, map, IfOk, IsErrOf, Some, None, option_and_then};
ghost use Rattle.std.specs.String.{string_bytes};
ghost use Rattle.clap.specs.Words.{kind_of, subcommand_rows_of};
ghost use Rattle.clap.specs.declared.error.kind.ErrorKind.TheVariants.{OutOfMemory};
ghost use Rattle.orc_words.specs.Words.{IsInRanges, command_named, command_of};

use crate::interface::program;
use crate::naming::command_named;
use crate::{Command, WordsFault};
use clap::ArgMatches;
use clap::error::ErrorKind;
use orc_text::Memory;
use std::alloc::Global;

/// The command of these words, which stand after the program's name. `Usage` comes exactly where
/// they have none, but that memory may run out for any words.
pub fn command_of(alloc: Global, words: &[String]) -> Result<Command, WordsFault>
    ensures command { IfOk result (λ command. command_of (map (λ w. string_bytes w) words.now) ≡ Some command) }
    ensures ranges { IfOk result IsInRanges }
    ensures usage { IsErrOf result WordsFault.Usage → command_of (map (λ w. string_bytes w) words.now) ≡ None }
{
    let Ok(program) = program(alloc) else {
        return Err(WordsFault::Memory);
    };
    match program.try_get_matches_from(words) {
        Ok(matches) => command_found(&matches),
        Err(error) => Err(fault_of(error.kind())),
    }
}

// The command that the parser found, with its numbers.
fn command_found(matches: &ArgMatches) -> Result<Command, WordsFault>
    ensures command { IfOk result (λ command. option_and_then (λ met. command_named met.0 met.1)
        (subcommand_rows_of matches.now) ≡ Some command) }
    ensures ranges { IfOk result IsInRanges }
    ensures usage { IsErrOf result WordsFault.Usage
        → option_and_then (λ met. command_named met.0 met.1) (subcommand_rows_of matches.now) ≡ None }
{
    match matches.subcommand() {
        Some((name, found)) => match command_named(name, found) {
            Some(command) => Ok(command),
            None => Err(WordsFault::Usage),
        },
        None => Err(WordsFault::Usage),
    }
}

// What the parser's refusal is.
fn fault_of(kind: ErrorKind) -> WordsFault
    ensures { result ≡ WordsFault.Usage → kind ≢ OutOfMemory }
{
    match kind {
        ErrorKind::OutOfMemory => WordsFault::Memory,
        _ => WordsFault::Usage,
    }
}

// What is said of words that the parser takes, where a number isn't of its range.
const RANGES: &str =
    "error: NUMBER is below 2^64, DEVICES is 1 to 64 and CALLS 0 to 5000, each of 1 to 20 decimal digits\n";

/// What a user reads of words that are refused, or that ask for help or for the version: the text
/// of the parser, or which numbers `gen` takes, which ends in a line feed. It is empty where the words
/// are taken.
pub fn usage_text(alloc: Global, words: &[String]) -> Result<String, Memory> {
    match program(alloc)?.try_get_matches_from(words) {
        Ok(matches) => match command_found(&matches) {
            Ok(_) => Ok(String::new(alloc)),
            Err(_) => Ok(String::from_str(alloc, RANGES)?),
        },
        Err(error) => Ok(format!(in alloc; "{error}")?),
    }
}
