//! Where a byte of a text stands.
use orc_lines::{first_line, line_text};

/// How many lines of a text stand before a byte, and how many bytes of its line.
pub(crate) fn place_of(text: &[u8], at: u64) -> (u64, u64) {
    let mut lines: u64 = 0;
    let mut bytes: u64 = 0;
    let mut left = at;
    for byte in text {
        if left == 0 {
            return (lines, bytes);
        }
        left -= 1;
        if *byte == b'\n' {
            lines = lines.saturating_add(1);
            bytes = 0;
        } else {
            bytes = bytes.saturating_add(1);
        }
    }
    (lines, bytes)
}

/// The number of the line of a bundle in which a byte of a block's text stands; the block begins with these lines, of
/// which the first has this number. The text has each line's own text and a line feed.
pub(crate) fn line_of_byte(lines: &[u8], first: u64, at: u64) -> u64 {
    let mut rest = lines;
    let mut number = first;
    let mut left = at;
    for _ in 0..lines.len() {
        if rest.is_empty() {
            return number;
        }
        let (line, later) = first_line(rest);
        let length = line_text(line).len() as u64;
        if left <= length {
            return number;
        }
        left = left.saturating_sub(length).saturating_sub(1);
        number = number.saturating_add(1);
        rest = later;
    }
    number
}
