//! Runs the tables that the words name, prints what they come to, and ends with 0 where all is as it must be.
//!
//! A word names a file, and what stands after its last dot says what kind of table it is: `run_table` and the functions
//! below it have the kinds, and the module of each says how its lines are written. Of most tables is printed how many
//! of their lines hold, and which don't; lines that are empty or begin with `#` say nothing. Of the others it is printed
//! what they show.
//!
//! One table more of a kind that is there: its file in `data/`, its word in `args`, and in `stdout` what is printed.
//! A kind more: a module with a type that does line after line and says of each whether it holds (`Table`), or with a
//! function from a file to what is printed; and one line in `run_table` or below.
#![tactic(auto)]

mod calls;
mod devices;
mod disks;
mod frame;
mod hub;
mod items;
mod journals;
mod line;
mod modules;
mod operations;
mod paths;
mod plans;
mod reports;
mod schemas;
mod score;
mod scripts;
mod shown;
mod stores;
mod table;
mod templates;
mod texts;
mod trees;
mod undone;
mod yang;

use crate::calls::Calls;
use crate::devices::Devices;
use crate::disks::Disks;
use crate::frame::{ended, given_words};
use crate::hub::Hubs;
use crate::journals::Journals;
use crate::paths::Paths;
use crate::scripts::Scripts;
use crate::table::{Word, run_lines};
use crate::trees::Trees;
use crate::yang::Answers;
use std::process::ExitCode;
use std::rt::{Env, Files};
use std::{fs, io};

// Ends with 0 where all is as it must be.
fn main(rt: HostRuntime) -> ExitCode {
    ended(&rt, run_all(&rt))
}

// Runs the table of each word, and says whether all is as it must be.
fn run_all<R: Files<File = fs::File> + Env + Print + AllocGlobal>(rt: &R) -> io::Result<bool> {
    let mut good = true;
    for word in given_words(rt)? {
        good = run_table(rt, Word::of(word.as_str()))? && good;
    }
    Ok(good)
}

// Runs a table, by its kind: texts and types, or else what they make.
fn run_table<R: Files<File = fs::File> + Print + AllocGlobal>(
    rt: &R,
    word: Word<'_>,
) -> io::Result<bool> {
    let alloc = rt.alloc();
    match word.kind {
        "answers" => run_lines(rt, word, Answers::new(alloc)),
        "paths" => run_lines(rt, word, Paths::new(alloc)),
        "trees" => run_lines(rt, word, Trees::new(alloc)),
        "yang" => yang::list(rt, word),
        "schemas" => schemas::run_cases(rt, word),
        "texts" => texts::run(rt, word),
        _ => run_low(rt, word),
    }
}

// Runs a table of calls, of what keeps them, or of devices, or else one of what stands on both.
fn run_low<R: Files<File = fs::File> + Print + AllocGlobal>(
    rt: &R,
    word: Word<'_>,
) -> io::Result<bool> {
    let alloc = rt.alloc();
    match word.kind {
        "calls" => run_lines(rt, word, Calls::new(alloc)),
        "disks" => run_lines(rt, word, Disks::new(alloc)),
        "file" => disks::keep(rt, word),
        "journals" => run_lines(rt, word, Journals::new(alloc)),
        "stores" => stores::run(rt),
        "devices" => run_lines(rt, word, Devices::new(alloc)),
        _ => run_high(rt, word),
    }
}

// Runs a table of templates, plans, scripts or hubs.
fn run_high<R: Files<File = fs::File> + Print + AllocGlobal>(
    rt: &R,
    word: Word<'_>,
) -> io::Result<bool> {
    let alloc = rt.alloc();
    match word.kind {
        "templates" => templates::run(rt, word),
        "plans" => plans::run(rt, word),
        "scripts" => run_lines(rt, word, Scripts::new(alloc)),
        "hub" => run_lines(rt, word, Hubs::new(alloc)),
        _ => {
            println!(rt; "{}: no kind of table", word.file)?;
            Ok(false)
        }
    }
}
