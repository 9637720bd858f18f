//! Calls of the readers of YANG texts, types and values: each line stands alone, as `CALL|GIVEN|ANSWER`.
//!
//! In what is given and in an answer `%` and two digits stand for a byte.
//!
//! - `parse|TEXT|STATEMENTS`: the text is parsed as these statements, as `statements` shows them, or is refused so
//! - `type|STATEMENTS|TYPE`: `type` statements, of which the first names a built-in type and each other one restricts
//!   what stands before it, make this type, as `restrictions` shows it, or have this fault
//! - `default|STATEMENTS|TEXT|CANONICAL`: the text is a default of the type that they make, with this canonical text,
//!   or `none`
//! - `canon|TYPE|TEXT|CANONICAL`, `from_json|TYPE|JSON|CANONICAL`: the canonical text of a value, or `rule N`. A type is
//!   named by `type` statements, or as `N places`, a decimal type of so many fraction digits
//! - `to_json|TYPE|CANONICAL|JSON`: the JSON of a canonical text

mod restrictions;
mod statements;
mod values;

use crate::line::bytes_of;
use crate::shown::Shown;
use crate::table::{Table, Word};
use crate::undone::Undone;
use crate::yang::restrictions::{push_default, push_type};
use crate::yang::statements::{push_parsed, shown_module};
use crate::yang::values::{push_canon, push_read, push_written};
use std::alloc::Global;
use std::rt::Files;
use std::{fs, io};

/// Lines that stand alone.
#[derive(Drop)]
pub(crate) struct Answers {
    alloc: Global,
}

impl Answers {
    /// No line was taken.
    pub(crate) fn new(alloc: Global) -> Answers {
        Answers { alloc }
    }
}

impl Table for Answers {
    fn take(&mut self, line: &str) -> Result<bool, Undone> {
        let (call, rest) = line.split_once('|').ok_or(Undone)?;
        let (given, expected) = rest.rsplit_once('|').ok_or(Undone)?;
        let mut answer = Shown::new(self.alloc);
        push_answer(&mut answer, call, given)?;
        let expected = bytes_of(self.alloc, expected)?;
        Ok(answer.as_str().as_bytes() == expected.as_slice())
    }
}

// Adds what a call answers.
fn push_answer(out: &mut Shown, call: &str, given: &str) -> Result<(), Undone> {
    match call {
        "parse" => push_parsed(out, given),
        "type" => push_type(out, given),
        "default" => push_default(out, given),
        "canon" => push_canon(out, given),
        "from_json" => push_read(out, given),
        "to_json" => push_written(out, given),
        _ => Err(Undone),
    }
}

/// Prints whether the module of a file has the statements of the listing beside it, and says so.
pub(crate) fn list<R: Files + Print + AllocGlobal>(rt: &R, word: Word<'_>) -> io::Result<bool> {
    let alloc = rt.alloc();
    let module = fs::read(rt, word.file)?;
    let listing = fs::read(rt, format!(in alloc; "{}.statements", word.name)?.as_str())?;
    let good = match shown_module(alloc, module.as_slice()) {
        Ok(shown) => shown.as_str().as_bytes() == listing.as_slice(),
        Err(Undone) => false,
    };
    match good {
        true => println!(rt; "{}: as listed", word.file)?,
        false => println!(rt; "{}: DIFFERS", word.file)?,
    }
    Ok(good)
}
