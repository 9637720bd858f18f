//! The blocks of a case: texts with places for words, and bytes.

use std::alloc::{AllocError, Global};

/// The lines of the block of this kind and name, each after its `|` and the space there, with an
/// end of line after each.
pub(crate) fn text_of(
    alloc: Global,
    case: &str,
    kind: &str,
    name: &str,
) -> Result<Option<String>, AllocError> {
    let head = format!(in alloc; "{kind} {name}")?;
    let mut found = false;
    let mut text = String::new(alloc);
    for line in case.lines() {
        if line == head.as_str() {
            found = true;
        } else if found {
            let Some(content) = line.strip_prefix("|") else {
                break;
            };
            text.push_str(content.strip_prefix(" ").unwrap_or(content))?;
            text.push('\n')?;
        }
    }
    Ok(found.then_some(text))
}

/// The text with the words of a line after the first in their places: `$1`, `$2`, and so on.
pub(crate) fn filled(alloc: Global, text: String, line: &str) -> Result<String, AllocError> {
    let mut filled = text;
    let mut number: u64 = 0;
    for word in line.split_whitespace().skip(1) {
        number = number.saturating_add(1);
        filled = placed(alloc, filled.as_str(), number, word)?;
    }
    Ok(filled)
}

// The text with a word in the place of this number.
fn placed(alloc: Global, text: &str, number: u64, word: &str) -> Result<String, AllocError> {
    let place = format!(in alloc; "${number}")?;
    text.replace(alloc, place.as_str(), word)
}

/// The bytes of a text, in which `\xHH` is the byte of these two digits, `\n` a line feed, and an end
/// of line nothing.
pub(crate) fn bytes_of(alloc: Global, text: &str) -> Result<Option<Vec<u8>>, AllocError> {
    let mut bytes = Vec::new(alloc);
    for line in text.lines() {
        if !push_line(&mut bytes, line)? {
            return Ok(None);
        }
    }
    Ok(Some(bytes))
}

// Adds the bytes of a line, and says whether it is one of such.
fn push_line(bytes: &mut Vec<u8>, line: &str) -> Result<bool, AllocError> {
    let (first, rest) = line.split_once('\\').unwrap_or((line, ""));
    bytes.extend_from_slice(first.as_bytes())?;
    if first.len() == line.len() {
        return Ok(true);
    }
    for piece in rest.split('\\') {
        let Some((byte, rest)) = escaped(piece) else {
            return Ok(false);
        };
        bytes.push(byte)?;
        bytes.extend_from_slice(rest.as_bytes())?;
    }
    Ok(true)
}

/// The text in which each `\N{TEXT}` is written out: N times TEXT, where `%` is the number of the time, from 1 on.
pub(crate) fn repeated(alloc: Global, text: &str) -> Result<Option<String>, AllocError> {
    let mut out = String::new(alloc);
    for piece in text.split('}') {
        if !push_piece(&mut out, alloc, piece)? {
            return Ok(None);
        }
    }
    Ok(Some(out))
}

// Adds a piece that ends before a closing bracket or at the end, and says whether it is one.
fn push_piece(out: &mut String, alloc: Global, piece: &str) -> Result<bool, AllocError> {
    let Some((before, body)) = piece.split_once('{') else {
        out.push_str(piece)?;
        return Ok(true);
    };
    let (front, times) = before.rsplit_once('\\').unwrap_or((before, ""));
    match times.parse() {
        Ok(times) => {
            out.push_str(front)?;
            push_times(out, alloc, times, body)?;
            Ok(true)
        }
        Err(_) => Ok(false),
    }
}

// Adds a text so many times.
fn push_times(out: &mut String, alloc: Global, times: u64, body: &str) -> Result<(), AllocError> {
    if !body.contains('%') {
        for _ in 0..times {
            out.push_str(body)?;
        }
        return Ok(());
    }
    for time in 0..times {
        let number = time.saturating_add(1).to_string(alloc)?;
        out.push_str(body.replace(alloc, "%", number.as_str())?.as_str())?;
    }
    Ok(())
}

// The byte that stands after a backslash, and what follows it.
fn escaped(piece: &str) -> Option<(u8, &str)> {
    if let Some(rest) = piece.strip_prefix("n") {
        return Some((b'\n', rest));
    }
    let (digits, rest) = piece.strip_prefix("x")?.split_at_checked(2)?;
    let byte = u8::from_str_radix(digits, 16).ok()?;
    Some((byte, rest))
}

/// The text of bytes, in the form that `bytes_of` reads.
pub(crate) fn spelled(alloc: Global, bytes: &[u8]) -> Result<String, AllocError> {
    let mut text = String::new(alloc);
    for byte in bytes {
        push_spelled(&mut text, alloc, *byte)?;
    }
    Ok(text)
}

// Adds a byte.
fn push_spelled(text: &mut String, alloc: Global, byte: u8) -> Result<(), AllocError> {
    match byte {
        b'\n' => text.push_str("\\n"),
        b'\\' | 0..32 | 127.. => text.push_str(format!(in alloc; "\\x{byte:02x}")?.as_str()),
        _ => text.push(char::from(byte)),
    }
}
