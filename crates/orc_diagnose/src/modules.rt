//! What is at fault in the text of a module.
use crate::extent::{Extent, extent_of};
use crate::places::place_of;
use crate::quoted::text_of;
use crate::words::Words;
use orc_lines::{ModuleFault, WrongModule};
use orc_text::Memory;
use orc_yang::YangFault;

/// Adds what is at fault in a text below a line `yang N` of this number, which isn't that of one `module` with a name:
/// the line and the byte in it, counted from 1; the statement in which the text ends; or how many statements there are
/// (RFC 7950 section 6). Where the first statement ends before the fault, the N is said that this one has. So
/// something is said.
pub(crate) fn say_module(
    words: &mut Words,
    line: u64,
    wrong: &WrongModule,
) -> Result<bool, Memory> {
    let text = wrong.text.as_slice();
    match &wrong.fault {
        ModuleFault::Statements(fault) => say_statements(words, line, text, fault)?,
        ModuleFault::Count(0) => words.say("There is no statement in these lines.")?,
        ModuleFault::Count(1) => words.say("The one statement is no `module` with a name.")?,
        ModuleFault::Count(_) => {
            words.say(
                "There is more than one statement; a `module` has all others in its braces.",
            )?;
            say_ended(words, line, text, &extent_of(words.alloc, text, u64::MAX)?)?;
        }
    }
    Ok(true)
}

// Adds what is at fault in a text below a line of this number that isn't statements, and in which line the first
// statement ends, where that is before it. (Bytes that are no UTF-8 are looked for first: what stands before them
// needn't be statements.)
fn say_statements(
    words: &mut Words,
    line: u64,
    text: &[u8],
    fault: &YangFault,
) -> Result<(), Memory> {
    let (at, said) = match fault {
        YangFault::NotUtf8 { at } => {
            return say_at(words, line, text, *at, "these bytes are no UTF-8.");
        }
        YangFault::BadToken { at } => (*at, "what stands here can't follow what stands before it."),
        YangFault::BadEscape { at } => (
            *at,
            "in double quotes a backslash begins \\n, \\t, \\\" or \\\\.",
        ),
        YangFault::OpenString { at } => (*at, "this string or comment has no end."),
        YangFault::Depth { at } => (*at, "this block is the 33rd in one another."),
        YangFault::Memory => return Err(Memory),
        _ => return say_open(words, line, text),
    };
    say_at(words, line, text, at, said)?;
    say_ended(words, line, text, &extent_of(words.alloc, text, at)?)
}

// Adds what is said of a byte of a text.
fn say_at(words: &mut Words, line: u64, text: &[u8], at: u64, said: &str) -> Result<(), Memory> {
    let (lines, bytes) = place_of(text, at);
    words.say("Line ")?;
    words.count(line.saturating_add(1).saturating_add(lines))?;
    words.say(", byte ")?;
    words.count(bytes.saturating_add(1))?;
    words.say(": ")?;
    words.say(said)
}

// Adds in which statement a text ends too early.
fn say_open(words: &mut Words, line: u64, text: &[u8]) -> Result<(), Memory> {
    let extent = extent_of(words.alloc, text, u64::MAX)?;
    words.say("The last line ends within ")?;
    match extent.innermost() {
        Some(at) => say_head(words, line, text, at)?,
        None => words.say("a statement")?,
    }
    words.say(": a `;` or a `}` is missing, or the module has more lines than N.")?;
    say_ended(words, line, text, &extent)
}

// Adds in which line the first statement ends, where it does.
fn say_ended(words: &mut Words, line: u64, text: &[u8], extent: &Extent) -> Result<(), Memory> {
    let Some(at) = extent.ended else {
        return Ok(());
    };
    let (lines, _) = place_of(text, at);
    let count = lines.saturating_add(1);
    words.say(" The first statement ends in line ")?;
    words.count(line.saturating_add(count))?;
    words.say(": where that is the module, N is ")?;
    words.count(count)?;
    words.say(".")
}

// Adds the statement that begins there, as far as its block or the end of its line, and its line.
fn say_head(words: &mut Words, line: u64, text: &[u8], at: u64) -> Result<(), Memory> {
    let (lines, _) = place_of(text, at);
    words.say("the statement ")?;
    words.quote(head_at(text, at))?;
    words.say(" of line ")?;
    words.count(line.saturating_add(1).saturating_add(lines))
}

// The head of the statement that begins there, as far as its block or the end of its line.
fn head_at(text: &[u8], at: u64) -> &str {
    match usize::try_from(at) {
        Ok(at) => text_of(front_of(text.get(at..).unwrap_or(&[]))),
        Err(_) => "",
    }
}

// The bytes before a block, a statement's end or the end of the line, without white space at their end.
fn front_of(bytes: &[u8]) -> &[u8] {
    let mut end: usize = 0;
    for (place, byte) in bytes.iter().enumerate() {
        if *byte == b'{' || *byte == b';' || *byte == b'\n' {
            return bytes.get(..end).unwrap_or(bytes);
        }
        if *byte != b' ' && *byte != b'\r' && *byte != b'\t' {
            end = place.saturating_add(1);
        }
    }
    bytes
}
