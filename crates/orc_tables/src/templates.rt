//! What templates, data and services come to: each line of the table is printed, and below it what that line gives.
//!
//! Beside `NAME.templates` stand the YANG modules of the data, `NAME-data.yang`, and those of the devices,
//! `NAME-devices.yang`. The devices are r1 and r2, which have the schema of these, and q, which is plain. A line of no form,
//! as a comment, gives nothing.
//!
//! - `data JSON`: the data
//! - `template LIST JSON`, `and LIST JSON`: the template of a list, which is the only one, or one more
//! - `expand PATH`: what the templates write at an instance of their list, what they read, and how many items each
//!   device has then
//! - `call ID ID`: what a call comes to that does these two services again
//! - `hold WORDS`: whether what a call holds, as `held` says, fits with what the one before holds

mod bench;
mod held;
mod shown;

use crate::shown::Shown;
use crate::table::{Word, tell};
use crate::templates::bench::Bench;
use crate::undone::Undone;
use std::rt::Files;
use std::{fs, io};

/// Prints what is shown, and says whether the whole table is.
pub(crate) fn run<R: Files + Print + AllocGlobal>(rt: &R, word: Word<'_>) -> io::Result<bool> {
    let alloc = rt.alloc();
    let name = word.name;
    let table = fs::read_to_string(rt, word.file)?;
    let data = fs::read_to_string(rt, format!(in alloc; "{name}-data.yang")?.as_str())?;
    let devices = fs::read_to_string(rt, format!(in alloc; "{name}-devices.yang")?.as_str())?;
    let mut out = Shown::new(alloc);
    let (data, devices) = (data.as_str(), devices.as_str());
    let done = push_table(&mut out, data, devices, table.as_str());
    tell(rt, out.as_str(), done)
}

// Adds the lines of a table, each with what it gives.
fn push_table(out: &mut Shown, data: &str, devices: &str, table: &str) -> Result<(), Undone> {
    let mut bench = Bench::new(out.alloc, data, devices)?;
    for line in table.lines() {
        out.add(&[line, "\n"])?;
        bench.take(out, line)?;
    }
    Ok(())
}
