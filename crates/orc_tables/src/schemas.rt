//! Cases of YANG modules, of the schemas that they make and of configurations under these.
//!
//! A case begins with a line `=== TITLE`; below it stand the modules, a line `---`, and the listing: the schema path by
//! path, or its fault (`listing` says how). After a line `--- data` stand configurations in place of a listing, each
//! with what it breaks (`checks` says how). Lines before the first case say nothing.

mod checks;
mod found;
mod listing;

pub(crate) use crate::schemas::checks::add_rule;
use crate::schemas::checks::push_answers;
use crate::schemas::listing::{push_fault, push_schema};
use crate::score::Score;
use crate::shown::Shown;
use crate::table::Word;
use crate::undone::Undone;
use orc_schema::{Build, Schema};
use orc_yang::parse;
use std::rt::Files;
use std::{fs, io};

/// Prints how many cases of a file hold, and the others, and says whether there are none of these.
pub(crate) fn run_cases<R: Files + Print + AllocGlobal>(
    rt: &R,
    word: Word<'_>,
) -> io::Result<bool> {
    let text = fs::read_to_string(rt, word.file)?;
    let mut score = Score::new();
    for case in text.split("\n=== ").skip(1) {
        score.take(holds(rt, word.file, case)?);
    }
    score.told(rt, word.name, "cases")
}

// Whether a case holds; prints what came where it doesn't.
fn holds<R: Print + AllocGlobal>(rt: &R, file: &str, case: &str) -> io::Result<bool> {
    let mut listing = Shown::new(rt.alloc());
    let good = is_listed(&mut listing, case).unwrap_or(false);
    if !good {
        println!(rt; "{file}: {case} DIFFERS\n{}", listing.as_str())?;
    }
    Ok(good)
}

// Whether what comes of a case's modules is what stands below them. Of a case with `data` that is its configurations,
// each after its answer.
fn is_listed(listing: &mut Shown, case: &str) -> Result<bool, Undone> {
    let (_title, rest) = case.split_once('\n').ok_or(Undone)?;
    let (modules, below) = rest.split_once("\n---").ok_or(Undone)?;
    let data = below.strip_prefix(" data\n");
    push_listing(listing, modules, data)?;
    Ok(data.unwrap_or(below).trim() == listing.as_str().trim_end())
}

// Adds what comes of modules; the schema of configurations without modules is a plain one.
fn push_listing(out: &mut Shown, modules: &str, data: Option<&str>) -> Result<(), Undone> {
    if data.is_some() && modules.is_empty() {
        return push_under(out, &Schema::plain(out.alloc), data);
    }
    match parse(out.alloc, modules.as_bytes()) {
        Ok(modules) => match Schema::build(out.alloc, modules.as_slice()) {
            Ok(schema) => push_under(out, &schema, data),
            Err(fault) => push_fault(out, &fault),
        },
        Err(_) => {
            out.add(&["no statements\n"])?;
            Ok(())
        }
    }
}

// Adds what comes of a schema.
fn push_under(out: &mut Shown, schema: &Schema, data: Option<&str>) -> Result<(), Undone> {
    match data {
        Some(lines) => push_answers(out, schema, lines),
        None => push_schema(out, schema),
    }
}
