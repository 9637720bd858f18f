//! What is said of a text that is no value of a type, and of the JSON that a type has.
use crate::words::Words;
use orc_text::{Memory, Text};
use orc_value::Kind;

// So many ranges or names of a type are listed.
const TOLD: usize = 10;

/// Adds what a text isn't that is no value of this type (RFC 7950 section 9).
pub(crate) fn say_no_value_of(words: &mut Words, kind: &Kind) -> Result<(), Memory> {
    match kind {
        Kind::Int(int) => {
            words.say("is none of the whole numbers ")?;
            say_numbers(words, int.ranges.as_slice())?;
        }
        Kind::Decimal(digits) => {
            words.say("is no decimal number of 64 bits with at most ")?;
            words.count(u64::from(*digits))?;
            words.say(" digits after the point")?;
        }
        Kind::Str(lengths) => {
            words.say("is no text of ")?;
            say_lengths(words, lengths.as_slice())?;
            words.say(" characters")?;
        }
        Kind::Bool => words.say("is neither `true` nor `false`")?,
        Kind::Enum(names) => {
            words.say("is none of the names ")?;
            say_names(words, names.as_slice())?;
        }
        Kind::Empty => words.say("stands where the type `empty` has no text")?,
    }
    words.say(".")
}

/// The JSON that a value of this type is (RFC 7951 section 6).
pub(crate) fn json_of(kind: &Kind) -> &'static str {
    match kind {
        Kind::Int(int) => match int.quoted {
            true => "a string with a whole number in it",
            false => "a number",
        },
        Kind::Decimal(_) => "a string with a decimal number in it",
        Kind::Str(_) | Kind::Enum(_) => "a string",
        Kind::Bool => "`true` or `false`",
        Kind::Empty => "`[null]`",
    }
}

// Adds ranges of numbers.
fn say_numbers(words: &mut Words, ranges: &[(i128, i128)]) -> Result<(), Memory> {
    for (told, range) in ranges.iter().enumerate() {
        if !goes_on(words, told)? {
            return Ok(());
        }
        let (least, most) = *range;
        let said = format!(in words.alloc; "{least}..{most}")?;
        words.say(said.as_str())?;
    }
    Ok(())
}

// Adds ranges of lengths.
fn say_lengths(words: &mut Words, ranges: &[(u64, u64)]) -> Result<(), Memory> {
    for (told, range) in ranges.iter().enumerate() {
        if !goes_on(words, told)? {
            return Ok(());
        }
        let (least, most) = *range;
        words.count(least)?;
        words.say("..")?;
        if most == u64::MAX {
            words.say("max")?;
        } else {
            words.count(most)?;
        }
    }
    Ok(())
}

/// Adds names, and no more than ten.
pub(crate) fn say_names(words: &mut Words, names: &[Text]) -> Result<(), Memory> {
    for (told, name) in names.iter().enumerate() {
        if !goes_on(words, told)? {
            return Ok(());
        }
        words.quote(name.as_str())?;
    }
    Ok(())
}

// Adds what stands before the next one, and answers whether that is listed.
fn goes_on(words: &mut Words, told: usize) -> Result<bool, Memory> {
    if told == TOLD {
        words.say(", ..")?;
        return Ok(false);
    }
    if told > 0 {
        words.say(", ")?;
    }
    Ok(true)
}
