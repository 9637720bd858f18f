//! The lines of bytes.
ghost use Rattle.std.specs.Prelude.{◌≡◌, ◌<◌, ◌+◌, ◌^◌, ◌++◌, ◌∷◌, MatchOption, IfOk, None, Some, length, get_or, take, true};
ghost use Rattle.std.specs.List.{list_any};
ghost use Rattle.orc_lines.specs.Lines.{lacks_header, lines_of, text_of, is_end, is_large, first_kept, is_settled, is_skipped, block_of, seen};
ghost use Rattle.orc_lines.specs.inside.Blocks.{lacks};

use orc_text::{Memory, Row};
use std::alloc::Global;

/// The most bytes of a bundle.
pub const LARGEST_BUNDLE: usize = 16_777_216;

/// The most bytes of a line, without its line feed and the carriage return that goes with it.
pub const LONGEST_LINE: usize = 1_048_576;

/// What is seen of bytes: as many as a bundle can have, and one more.
pub fn seen(bytes: &[u8]) -> &[u8]
    ensures { result.now ≡ seen bytes.now }
{
    if bytes.len() <= LARGEST_BUNDLE {
        return bytes;
    }
    &bytes[..LARGEST_BUNDLE + 1]
}

// The place of the first line feed.
fn cut_line(bytes: &[u8]) -> Option<usize>
    ensures { MatchOption result (lacks 10 bytes.now ≡ true)
        (λ at. (at < length bytes.now) × (lacks 10 (take at bytes.now) ≡ true) × (get_or bytes.now at 0 ≡ 10)) }
{
    for (at, byte) in bytes.iter().enumerate() {
        if *byte == b'\n' {
            return Some(at);
        }
    }
    None
}

/// The first line and the bytes after it.
pub fn first_line<'a>(bytes: &'a [u8]) -> (&'a [u8], &'a [u8])
    requires { 0 < length bytes.now }
    ensures lines { lines_of bytes.now ≡ result.0.now ∷ lines_of result.1.now }
    ensures parts { bytes.now ≡ result.0.now ++ result.1.now }
    ensures some { 0 < length result.0.now }
{
    match cut_line(bytes) {
        Some(at) => bytes.split_at(at + 1),
        None => bytes.split_at(bytes.len()),
    }
}

/// A line without its line feed and one carriage return before that.
pub fn line_text(line: &[u8]) -> &[u8]
    ensures { result.now ≡ text_of line.now }
{
    match line {
        [text @ .., b'\r', b'\n'] => text,
        [text @ .., b'\n'] => text,
        _ => line,
    }
}

/// Whether a text is empty or a comment.
pub fn is_skipped(text: &[u8]) -> bool
    ensures { result ≡ is_skipped text.now }
{
    match text {
        [] => true,
        [first, ..] => *first == b'#',
    }
}

/// Whether the bundle passes its limit in this line, before which stand so many bytes, or the
/// line passes its own.
pub fn is_large(at: u64, line: &[u8]) -> bool
    requires { at + length line.now < 2 ^ 63 }
    ensures { result ≡ is_large at line.now }
{
    at + line.len() as u64 > LARGEST_BUNDLE as u64 || line_text(line).len() > LONGEST_LINE
}

/// Whether a later line is `end`.
pub fn ends_later(bytes: &[u8]) -> bool
    ensures { result ≡ list_any is_end (lines_of bytes.now) }
{
    let mut rest = bytes;
    'lines: while !rest.is_empty() {
        let (line, behind) = first_line(rest);
        if line_text(line) == b"end".as_slice() {
            return true;
        }
        rest = behind;
    }
    false
}

// The text of the first line that is not skipped.
fn first_kept<'a>(bytes: &'a [u8]) -> Option<&'a [u8]>
    ensures { MatchOption result (first_kept (lines_of bytes.now) ≡ None)
        (λ text. first_kept (lines_of bytes.now) ≡ Some text.now) }
{
    let mut rest = bytes;
    'lines: while !rest.is_empty() {
        let (line, behind) = first_line(rest);
        let text = line_text(line);
        if !is_skipped(text) {
            return Some(text);
        }
        rest = behind;
    }
    None
}

/// Whether the first line that is not skipped is `settle`.
pub fn is_settled(bytes: &[u8]) -> bool
    ensures { result ≡ is_settled (lines_of bytes.now) }
{
    match first_kept(bytes) {
        Some(text) => text == b"settle".as_slice(),
        None => false,
    }
}

/// Whether each line is skipped, as also where there is none.
pub fn lacks_header(bytes: &[u8]) -> bool
    ensures { result ≡ lacks_header (lines_of bytes.now) }
{
    first_kept(bytes).is_none()
}

/// The texts of the first lines, each ended by a line feed, where there are so many lines.
pub fn block_of(alloc: Global, bytes: &[u8], count: u64) -> Result<Option<Row<u8>>, Memory>
    ensures { IfOk result (λ found. found ≡ block_of count (lines_of bytes.now)) }
{
    let mut rest = bytes;
    let mut text = Vec::new(alloc);
    let mut left = count;
    'lines: while left > 0 {
        if rest.is_empty() {
            return Ok(None);
        }
        let (line, behind) = first_line(rest);
        text.extend_from_slice(line_text(line))?;
        text.push(b'\n')?;
        left -= 1;
        rest = behind;
    }
    Ok(Some(Row::from_vec(text)))
}
