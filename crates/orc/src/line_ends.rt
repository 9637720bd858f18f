//! Whether declarations differ by their line ends alone.
use orc_disk::Disk;
use orc_io::Failed;

// How many bytes stand before a journal's declarations: eight of a mark, and four with their length.
const HEADER: usize = 12;

// How many bytes of the declarations are read at once.
const PIECE: usize = 4_096;

/// Whether the declarations of the journal on a disk and the lines of a bundle before its `script` are one text but for
/// carriage returns.
pub(crate) fn differ_by_line_ends<D: Disk>(disk: &mut D, bundle: &[u8]) -> Result<bool, Failed> {
    let mut head = [0u8; HEADER];
    if disk.read_at(0, &mut head)? < HEADER {
        return Ok(false);
    }
    let mut left = u64::from(u32::from_be_bytes([head[8], head[9], head[10], head[11]]));
    let mut at = HEADER as u64;
    let mut rest = bundle;
    let mut piece = [0u8; PIECE];
    for _ in 0..left {
        let count = disk.read_at(at, &mut piece)?;
        let held = &piece[..count.min(PIECE)];
        let declared = &held[..held.len().min(usize::try_from(left).unwrap_or(PIECE))];
        match behind(declared, rest) {
            Some(more) if !declared.is_empty() => rest = more,
            _ => return Ok(false),
        }
        left = left.saturating_sub(declared.len() as u64);
        at = at.saturating_add(declared.len() as u64);
        if left == 0 {
            break;
        }
    }
    Ok(rest.is_empty() || rest.starts_with(b"script".as_slice()))
}

// What stands in a text after another one, where it begins so but for carriage returns.
fn behind<'a>(front: &[u8], text: &'a [u8]) -> Option<&'a [u8]> {
    let mut rest = without_return(text);
    for byte in front {
        if *byte != b'\r' {
            match rest {
                [first, more @ ..] if *first == *byte => rest = without_return(more),
                _ => return None,
            }
        }
    }
    Some(rest)
}

// A text without the carriage returns with which it begins.
fn without_return(text: &[u8]) -> &[u8] {
    for (at, byte) in text.iter().enumerate() {
        if *byte != b'\r' {
            return &text[at..];
        }
    }
    &[]
}
