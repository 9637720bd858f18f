//! The statements of texts and modules.
use crate::line::bytes_of;
use crate::shown::Shown;
use crate::undone::Undone;
use orc_yang::{Stmt, YangFault, parse};
use std::alloc::Global;

// How statements are shown.
#[derive(Clone, Copy)]
enum Form {
    // In one line.
    Line,
    // A line each, with the place of its keyword.
    Listing,
}

/// Adds what bytes are parsed as, or why they are refused: each statement is a keyword, `=` and the argument in
/// brackets, and a block in parentheses; a fault is its name and its place.
pub(crate) fn push_parsed(out: &mut Shown, given: &str) -> Result<(), Undone> {
    let given = bytes_of(out.alloc, given)?;
    push_shown(out, given.as_slice(), Form::Line)
}

/// The same of a module, a line for each statement, with the place of its keyword.
pub(crate) fn shown_module(alloc: Global, module: &[u8]) -> Result<Shown, Undone> {
    let mut shown = Shown::new(alloc);
    push_shown(&mut shown, module, Form::Listing)?;
    Ok(shown)
}

fn push_shown(out: &mut Shown, bytes: &[u8], form: Form) -> Result<(), Undone> {
    match parse(out.alloc, bytes) {
        Ok(list) => push_statements(out, list.as_slice(), form),
        Err(fault) => push_fault(out, fault),
    }
}

// Adds statements.
fn push_statements(out: &mut Shown, list: &[Stmt], form: Form) -> Result<(), Undone> {
    for statement in list {
        push_place(out, statement.at, form)?;
        push_head(out, statement)?;
        if !statement.subs.is_empty() {
            out.add(&[opening(form)])?;
            push_statements(out, statement.subs.as_slice(), form)?;
            out.add(&[")"])?;
        }
        out.add(&[ending(form)])?;
    }
    Ok(())
}

// Adds the place of a statement, where it is shown.
fn push_place(out: &mut Shown, at: u64, form: Form) -> Result<(), Undone> {
    match form {
        Form::Line => Ok(()),
        Form::Listing => out.add(&[at.to_string(out.alloc)?.as_str(), " "]),
    }
}

// Adds the keyword of a statement, and its argument, where it has one.
fn push_head(out: &mut Shown, statement: &Stmt) -> Result<(), Undone> {
    let keyword = statement.keyword.as_str();
    match &statement.argument {
        Some(argument) => out.add(&[keyword, "=[", argument.as_str(), "]"]),
        None => out.add(&[keyword]),
    }
}

// What stands before a block.
fn opening(form: Form) -> &'static str {
    match form {
        Form::Line => "(",
        Form::Listing => "(\n",
    }
}

// What ends a statement.
fn ending(form: Form) -> &'static str {
    match form {
        Form::Line => ";",
        Form::Listing => ";\n",
    }
}

// Adds a fault and its place.
fn push_fault(out: &mut Shown, fault: YangFault) -> Result<(), Undone> {
    let (name, at) = match fault {
        YangFault::NotUtf8 { at } => ("NotUtf8", at),
        YangFault::BadToken { at } => ("BadToken", at),
        YangFault::BadEscape { at } => ("BadEscape", at),
        YangFault::OpenString { at } => ("OpenString", at),
        YangFault::OpenBlock { at } => ("OpenBlock", at),
        YangFault::Depth { at } => ("Depth", at),
        YangFault::Memory => return Err(Undone),
    };
    out.number(name, at)
}
