//! A row of a table: what is wanted of a bundle, and the bundle, in one line.
//!
//! In the bundle `|` ends a line, `\xHH` is the byte of these two digits, and `\N{TEXT}` is N times
//! TEXT, where `%` is the number of the time.

use crate::block::{bytes_of, repeated};
use crate::run::{Ran, run_alone};
use orc_disk::MemDisk;
use orc_run::{Done, Stop, status};
use std::alloc::{AllocError, Global};

// The choice of the image that each write outlives, which is what the disk holds.
const CONTENT: u64 = 3;

/// What the rows of a table say of their bundles.
#[derive(Clone, Copy, Drop)]
pub(crate) enum Rows {
    /// A row is `LINE RULE BUNDLE`: the bundle is refused at this line for this rule, whether it is
    /// checked or run, prints nothing, and leaves its disk empty.
    Refused,
    /// A row is `DEVICES STEPS BUNDLE`: the bundle is checked with these counts, and runs to its end.
    Taken,
}

impl Rows {
    /// Whether it is as a row says, where its bundle stands after the head, and none where that is no row.
    pub(crate) fn hold(
        self,
        alloc: Global,
        head: &str,
        row: &str,
    ) -> Result<Option<bool>, AllocError> {
        let (first, second, text) = parted(row);
        let Some(bundle) = bundle_of(alloc, head, text)? else {
            return Ok(None);
        };
        match self {
            Rows::Refused => Ok(Some(is_refused(alloc, first, second, bundle)?)),
            Rows::Taken => Ok(Some(is_taken(alloc, first, second, bundle)?)),
        }
    }
}

// Whether the bundle is refused at this line for this rule.
fn is_refused(alloc: Global, line: &str, rule: &str, bundle: Vec<u8>) -> Result<bool, AllocError> {
    let wanted = format!(in alloc; "1 Bundle {line} {rule}")?;
    let checked = run_alone(alloc, "check", Vec::from_slice(alloc, bundle.as_slice())?)?;
    if !is_refusal(alloc, &checked, wanted.as_str())? {
        return Ok(false);
    }
    let ran = run_alone(alloc, "run", bundle)?;
    is_refusal(alloc, &ran, wanted.as_str())
}

// Whether a run ended so, printed nothing, and left its disk empty.
fn is_refusal(alloc: Global, ran: &Ran<MemDisk>, wanted: &str) -> Result<bool, AllocError> {
    if !ran.printed.is_empty() || !is_empty(alloc, &ran.disk) {
        return Ok(false);
    }
    Ok(ending(alloc, &ran.status)?.as_str() == wanted)
}

// Whether the bundle is checked with so many devices and steps, and runs to its end.
fn is_taken(
    alloc: Global,
    devices: &str,
    steps: &str,
    bundle: Vec<u8>,
) -> Result<bool, AllocError> {
    let wanted = format!(in alloc; "ok {devices} {steps}\n")?;
    let checked = run_alone(alloc, "check", Vec::from_slice(alloc, bundle.as_slice())?)?;
    if !is_checked(alloc, &checked, wanted.as_bytes()) {
        return Ok(false);
    }
    Ok(run_alone(alloc, "run", bundle)?.status.is_ok())
}

// Whether a run ended well, printed this, and left its disk empty.
fn is_checked(alloc: Global, ran: &Ran<MemDisk>, wanted: &[u8]) -> bool {
    ran.status.is_ok() && ran.printed.as_slice() == wanted && is_empty(alloc, &ran.disk)
}

/// How a run ended: its status and, where it isn't 0, the fault.
pub(crate) fn ending(alloc: Global, ended: &Result<Done, Stop>) -> Result<String, AllocError> {
    let code = status(ended);
    match ended {
        Ok(Done) => format!(in alloc; "{code}"),
        Err(stop) => format!(in alloc; "{code} {stop}"),
    }
}

// The first two words of a row, and its bundle.
fn parted(row: &str) -> (&str, &str, &str) {
    let (first, rest) = row.split_once(' ').unwrap_or((row, ""));
    let (second, bundle) = rest.split_once(' ').unwrap_or((rest, ""));
    (first, second, bundle)
}

// The bytes of a bundle: the head, and what stands in one line.
fn bundle_of(alloc: Global, head: &str, text: &str) -> Result<Option<Vec<u8>>, AllocError> {
    let Some(whole) = repeated(alloc, text)? else {
        return Ok(None);
    };
    let lines = whole.as_str().replace(alloc, "|", "\\n")?;
    let Some(later) = bytes_of(alloc, lines.as_str())? else {
        return Ok(None);
    };
    let mut bytes = Vec::from_slice(alloc, head.as_bytes())?;
    bytes.extend_from_slice(later.as_slice())?;
    Ok(Some(bytes))
}

// Whether a disk holds nothing.
fn is_empty(alloc: Global, disk: &MemDisk) -> bool {
    match disk.image(alloc, CONTENT) {
        Ok(holds) => holds.is_empty(),
        Err(_) => false,
    }
}
