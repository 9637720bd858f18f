//! The command that the parser found in words, with its numbers.
ghost use Rattle.std.specs.Prelude.{◌≡◌, ◌≤◌, IfSome, option_map};
ghost use Rattle.clap.specs.Walk.{first_of};
ghost use Rattle.clap.specs.Words.{found_of, rows_of};
ghost use Rattle.orc_words.specs.Numbers.{has_sign, is_long_number, number_within, word_number};
ghost use Rattle.orc_words.specs.Words.{IsInRanges, command_named, generation_of};

use crate::Command;
use crate::words::{MOST_CALLS_MADE, MOST_DEVICES_MADE};
use clap::ArgMatches;

/// The command of a name, with what was found for it.
pub(crate) fn command_named(name: &str, found: &ArgMatches) -> Option<Command>
    ensures command { result ≡ command_named name.now (rows_of (found_of found.now)) }
    ensures ranges { IfSome result IsInRanges }
{
    match name {
        "check" => Some(Command::Check),
        "run" => Some(Command::Run),
        "history" => Some(Command::History),
        "gen" => generation(found),
        _ => None,
    }
}

// The command `gen`, where its numbers are in their ranges.
fn generation(found: &ArgMatches) -> Option<Command>
    ensures command { result ≡ generation_of (rows_of (found_of found.now)) }
    ensures ranges { IfSome result IsInRanges }
{
    let number = number_within(argument(found, "NUMBER"), 0, u64::MAX)?;
    let devices = number_within(argument(found, "DEVICES"), 1, MOST_DEVICES_MADE)?;
    let calls = number_within(argument(found, "CALLS"), 0, MOST_CALLS_MADE)?;
    Some(Command::Gen {
        number,
        devices: devices as u32,
        calls: calls as u32,
    })
}

// The word that was found for an argument.
fn argument<'a>(found: &ArgMatches<'a>, id: &str) -> Option<&'a str>
    ensures { option_map (λ w. w.now) result ≡ first_of id.now (rows_of (found_of found.now)) }
{
    found.get_str(id)
}

// The number of a word that is there, where it is in this range.
fn number_within(word: Option<&str>, least: u64, most: u64) -> Option<u64>
    ensures number { result ≡ number_within least most (option_map (λ w. w.now) word.entry) }
    ensures within { IfSome result (λ number. (least ≤ number) × (number ≤ most)) }
{
    let number = word_number(word?)?;
    if least <= number && number <= most {
        Some(number)
    } else {
        None
    }
}

// The number of a word: 1 to 20 decimal digits, below 2 to the 64th.
fn word_number(word: &str) -> Option<u64>
    ensures { result ≡ word_number word.now }
{
    if is_long_number(word) {
        return None;
    }
    if has_sign(word.as_bytes()) {
        return None;
    }
    match word.parse() {
        Ok(number) => Some(number),
        Err(_) => None,
    }
}

// Whether the word has more than 20 bytes.
fn is_long_number(word: &str) -> bool
    ensures { result ≡ is_long_number word.now }
{
    word.len() > 20
}

// Whether the word begins with a plus.
fn has_sign(word: &[u8]) -> bool
    ensures { result ≡ has_sign word.now }
{
    match word {
        [] => false,
        [first, ..] => *first == b'+',
    }
}
