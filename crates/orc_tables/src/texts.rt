//! Tables of JSON texts under a schema: what they are read as, and how that is written.
//!
//! A case begins with a line `=== TITLE`; below its modules, or none for a plain schema, stand a line `---` and lines
//! of these forms:
//!
//! - `ANSWER|TEXT` or `ANSWER|TEXT|WRITTEN`: the text is read, and where it is read, written again;
//! - `body ENTRY|ANSWER|TEXT`: the text is read as the body of a service at the entry;
//! - `deep NUMBER|ANSWER`: so many arrays in one another stand in an object.
//!
//! The answer is `ok` and the items with semicolons between, or the path of the fault and its rule's
//! name, or `syntax`.
use crate::modules::schema_of;
use crate::score::Score;
use crate::shown::Shown;
use crate::table::Word;
use crate::undone::Undone;
use orc_json::{DUPLICATE, JsonFault, KEY, KIND, MEMBER, VALUE, read, read_entry, write};
use orc_path::{Item, Path};
use orc_schema::Schema;
use orc_tree::Tree;
use std::alloc::Global;
use std::rt::Files;
use std::{fs, io};

fn word(rule: u8) -> &'static str {
    match rule {
        MEMBER => " member",
        KIND => " kind",
        VALUE => " value",
        KEY => " key",
        DUPLICATE => " duplicate",
        _ => " of no name",
    }
}

fn push_fault(out: &mut Shown, fault: &JsonFault) -> Result<(), Undone> {
    match fault {
        JsonFault::Syntax => out.add(&["syntax"]),
        JsonFault::Memory => Err(Undone),
        JsonFault::Bad { path, rule } => {
            out.item(path, &Item::Entry)?;
            out.add(&[word(*rule)])
        }
    }
}

fn push_rows(out: &mut Shown, rows: &[(Path, Item)]) -> Result<(), Undone> {
    out.add(&["ok"])?;
    let mut mark = " ";
    for row in rows {
        out.add(&[mark])?;
        out.item(&row.0, &row.1)?;
        mark = ";";
    }
    Ok(())
}

// Whether a text is read as this configuration.
fn is_text_of(alloc: Global, schema: &Schema, bytes: &[u8], tree: &Tree) -> bool {
    match read(alloc, schema, bytes) {
        Ok(again) => again.equals(tree),
        Err(_) => false,
    }
}

// Adds the text that a configuration is written as, which is read back.
fn push_written(out: &mut Shown, schema: &Schema, tree: &Tree) -> Result<(), Undone> {
    let bytes = write(out.alloc, schema, tree)?;
    if !is_text_of(out.alloc, schema, bytes.as_slice(), tree) {
        return Err(Undone);
    }
    match String::from_utf8(bytes) {
        Ok(text) => out.add(&[text.as_str()]),
        Err(_) => Err(Undone),
    }
}

// Adds what a text is read as, the text, and what is written.
fn push_text(out: &mut Shown, schema: &Schema, text: &str) -> Result<(), Undone> {
    match read(out.alloc, schema, text.as_bytes()) {
        Err(fault) => {
            push_fault(out, &fault)?;
            out.add(&["|", text])
        }
        Ok(tree) => push_tree(out, schema, text, &tree),
    }
}

// Adds the configuration that a text is read as, the text, and what is written.
fn push_tree(out: &mut Shown, schema: &Schema, text: &str, tree: &Tree) -> Result<(), Undone> {
    push_rows(out, tree.walk(out.alloc)?.as_slice())?;
    out.add(&["|", text, "|"])?;
    push_written(out, schema, tree)
}

// Adds what a text is read as at an entry, with the entry and the text.
fn push_body(out: &mut Shown, schema: &Schema, line: &str) -> Result<(), Undone> {
    let (entry, below) = line.split_once('|').ok_or(Undone)?;
    let (_answer, text) = below.split_once('|').ok_or(Undone)?;
    let path = Path::parse(out.alloc, entry)?;
    out.add(&["body ", entry, "|"])?;
    match read_entry(out.alloc, schema, &path, text.as_bytes()) {
        Err(fault) => push_fault(out, &fault)?,
        Ok(rows) => push_rows(out, rows.as_slice())?,
    }
    out.add(&["|", text])
}

// An object with a member that holds so many arrays in one another.
fn deep_text(alloc: Global, depth: u64) -> Result<String, Undone> {
    let mut text = String::from_str(alloc, "{\"j:i8\":")?;
    for _ in 0..depth {
        text.push_str("[")?;
    }
    for _ in 0..depth {
        text.push_str("]")?;
    }
    text.push_str("}")?;
    Ok(text)
}

// Adds what so many arrays in one another are read as, after their number.
fn push_deep(out: &mut Shown, schema: &Schema, line: &str) -> Result<(), Undone> {
    let (depth, _answer) = line.split_once('|').ok_or(Undone)?;
    out.add(&["deep ", depth, "|"])?;
    let text = deep_text(out.alloc, depth.parse()?)?;
    match read(out.alloc, schema, text.as_bytes()) {
        Err(fault) => push_fault(out, &fault),
        Ok(_) => Ok(()),
    }
}

// Adds a line with the answer that comes.
fn push_line(out: &mut Shown, schema: &Schema, line: &str) -> Result<(), Undone> {
    if let Some(body) = line.strip_prefix("body ") {
        return push_body(out, schema, body);
    }
    if let Some(deep) = line.strip_prefix("deep ") {
        return push_deep(out, schema, deep);
    }
    let (_answer, given) = line.split_once('|').ok_or(Undone)?;
    let (text, _written) = given.split_once('|').unwrap_or((given, ""));
    push_text(out, schema, text)
}

// Whether a line holds; prints what came where it doesn't.
fn holds<R: Print + AllocGlobal>(
    rt: &R,
    file: &str,
    schema: &Schema,
    line: &str,
) -> io::Result<bool> {
    let mut out = Shown::new(rt.alloc());
    let done = push_line(&mut out, schema, line);
    let good = done.is_ok() && out.as_str() == line;
    if !good {
        println!(rt; "{file}: {line} DIFFERS\n{}", out.as_str())?;
    }
    Ok(good)
}

// The schema of a case's modules, which is a plain one where there are none, and its lines.
fn parted(alloc: Global, case: &str) -> Result<(Schema, &str), Undone> {
    let (_title, rest) = case.split_once('\n').ok_or(Undone)?;
    let (modules, lines) = rest.split_once("---\n").ok_or(Undone)?;
    let modules = modules.trim();
    if modules.is_empty() {
        return Ok((Schema::plain(alloc), lines));
    }
    Ok((schema_of(alloc, modules)?, lines))
}

// Prints the lines of a case that don't hold, and takes in which do.
fn take_case<R: Print + AllocGlobal>(
    rt: &R,
    file: &str,
    case: &str,
    score: &mut Score,
) -> io::Result<()> {
    let Ok((schema, lines)) = parted(rt.alloc(), case) else {
        println!(rt; "{file}: {case} is no case")?;
        score.take(false);
        return Ok(());
    };
    for line in lines.lines() {
        if !line.is_empty() {
            score.take(holds(rt, file, &schema, line)?);
        }
    }
    Ok(())
}

/// Prints how many lines of a file hold, and the others, and says whether there are none of these.
pub(crate) fn run<R: Files + Print + AllocGlobal>(rt: &R, word: Word<'_>) -> io::Result<bool> {
    let text = fs::read_to_string(rt, word.file)?;
    let mut score = Score::new();
    for case in text.split("\n=== ").skip(1) {
        take_case(rt, word.file, case, &mut score)?;
    }
    score.told(rt, word.name, "lines")
}
