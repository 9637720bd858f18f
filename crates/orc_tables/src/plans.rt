//! The plans of the calls of bundles, and what comes of each.
//!
//! A line of the table is `WHEN TIMES BUNDLE`: when the snapshot is taken on which a call is planned, `now`, or `late` for
//! the one that was taken before the call before it, or `first` for the one of the opening; how often besides, of which
//! nothing is printed, each call is planned, or with `first` checked where it expands a service; and the bundle's file.
//! The calls are planned, checked on the present state and committed in the order of the script; the other steps of the
//! script are left out. What is printed is each call, and below it its plan or why there is none; whether what it holds
//! fits with what the call before it holds; and what it changes on each device with its number in the history, or why
//! it isn't committed.

mod planning;
mod shown;

use crate::line::first_word;
use crate::plans::planning::{When, push_bundle};
use crate::table::{Word, tell};
use crate::undone::Undone;
use orc_bundle::read_scripted;
use orc_decls::BundleFault;
use std::alloc::Global;
use std::rt::Files;
use std::{fs, io};

/// Shows the calls of each line's bundle, and says whether all could be.
pub(crate) fn run<R: Files + Print + AllocGlobal>(rt: &R, word: Word<'_>) -> io::Result<bool> {
    let text = fs::read_to_string(rt, word.file)?;
    let mut good = true;
    for line in text.lines() {
        good = show(rt, line)? && good;
    }
    Ok(good)
}

// Shows the calls of a line's bundle, and says whether all could be.
fn show<R: Files + Print + AllocGlobal>(rt: &R, line: &str) -> io::Result<bool> {
    let (when, rest) = first_word(line);
    let (times, name) = first_word(rest);
    let bytes = fs::read(rt, name)?;
    let mut out = String::new(rt.alloc());
    let times = times.parse::<u32>().unwrap_or(0);
    let done = push_file(rt.alloc(), &mut out, bytes.as_slice(), when_of(when), times);
    tell(rt, out.as_str(), done)
}

// When the snapshot of a call is taken, by its word.
fn when_of(word: &str) -> When {
    match word {
        "late" => When::Late,
        "first" => When::First,
        _ => When::Now,
    }
}

// Adds what the calls of a bundle come to, or at which line it is at fault, and for which rule.
fn push_file(
    alloc: Global,
    out: &mut String,
    bytes: &[u8],
    when: When,
    times: u32,
) -> Result<(), Undone> {
    match read_scripted(alloc, bytes) {
        Ok(bundle) => Ok(push_bundle(alloc, out, &bundle, when, times)?),
        Err(BundleFault::At { line, rule }) => {
            out.push_str(format!(in alloc; "Bundle {line} {rule}\n")?.as_str())?;
            Err(Undone)
        }
        Err(BundleFault::Memory) => Err(Undone),
    }
}
