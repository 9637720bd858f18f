//! The types that `type` statements make, each of what the one before it made.
use crate::line::{bytes_of, text_of};
use crate::shown::Shown;
use crate::undone::Undone;
use orc_types::{Base, EnumName, LeafType, TypeFault, built_in, default_of, type_of};
use orc_value::Kind;
use orc_yang::{Stmt, parse};
use std::alloc::Global;

/// Adds the type that statements make, or their fault.
pub(crate) fn push_type(out: &mut Shown, given: &str) -> Result<(), Undone> {
    match &made(out.alloc, given)? {
        Ok(made) => push_made(out, made),
        Err(fault) => push_fault(out, fault),
    }
}

/// Adds the canonical text of a text that is a default of the type that the statements before it make, or `none`.
pub(crate) fn push_default(out: &mut Shown, given: &str) -> Result<(), Undone> {
    let (statements, text) = given.rsplit_once('|').ok_or(Undone)?;
    let text = text_of(out.alloc, text)?;
    let kind = kind_of(out.alloc, statements)?;
    match &default_of(out.alloc, &kind, text.as_str())? {
        Some(canonical) => out.add(&[canonical.as_str()]),
        None => out.add(&["none"]),
    }
}

/// The type of values that the statements make, if they make one.
pub(crate) fn kind_of(alloc: Global, given: &str) -> Result<Kind, Undone> {
    match made(alloc, given)? {
        Ok(made) => made.kind(alloc)?.ok_or(Undone),
        Err(_) => Err(Undone),
    }
}

// What the statements make, where the first names a built-in type.
fn made(alloc: Global, given: &str) -> Result<Result<LeafType, TypeFault>, Undone> {
    let given = bytes_of(alloc, given)?;
    match parse(alloc, given.as_slice()) {
        Ok(list) => made_of(alloc, list.as_slice()),
        Err(_) => Err(Undone),
    }
}

// What parsed statements make, where the first names a built-in type.
fn made_of(alloc: Global, list: &[Stmt]) -> Result<Result<LeafType, TypeFault>, Undone> {
    let (first, others) = list.split_first().ok_or(Undone)?;
    match built_in(alloc, named(first))? {
        Some(base) => Ok(restricted(alloc, type_of(alloc, &base, first), others)),
        None => Err(Undone),
    }
}

// What further statements make of a type.
fn restricted(
    alloc: Global,
    first: Result<LeafType, TypeFault>,
    others: &[Stmt],
) -> Result<LeafType, TypeFault> {
    let mut made = first?;
    for stmt in others {
        made = type_of(alloc, &Base::Known(made), stmt)?;
    }
    Ok(made)
}

// The name of a type.
fn named(stmt: &Stmt) -> &str {
    match &stmt.argument {
        Some(name) => name.as_str(),
        None => "",
    }
}

// Adds a type in words.
fn push_made(out: &mut Shown, made: &LeafType) -> Result<(), Undone> {
    match made {
        LeafType::Int(kind) => {
            out.add(&[if kind.quoted { "quoted" } else { "int" }])?;
            out.ranges(kind.ranges.as_slice())
        }
        LeafType::Decimal(digits) => out.number("decimal", u64::from(*digits)),
        LeafType::Str(lengths) => {
            out.add(&["string"])?;
            out.lengths(lengths.as_slice())
        }
        LeafType::Bool => out.add(&["boolean"]),
        LeafType::Enum(names) => push_names(out, names.as_slice()),
        LeafType::Empty => out.add(&["empty"]),
        LeafType::Leafref(path) => out.add(&["leafref ", path.as_str()]),
    }
}

// Adds the names of an enumeration and their values.
fn push_names(out: &mut Shown, names: &[EnumName]) -> Result<(), Undone> {
    out.add(&["enum"])?;
    for known in names {
        let value = known.value.to_string(out.alloc)?;
        out.add(&[" ", known.name.as_str(), "=", value.as_str()])?;
    }
    Ok(())
}

// Adds a fault in words: what it is called, and the word that it is about.
fn push_fault(out: &mut Shown, fault: &TypeFault) -> Result<(), Undone> {
    match fault {
        TypeFault::Unsupported { keyword } => out.add(&["Unsupported ", keyword.as_str()]),
        TypeFault::Unknown { name } => out.add(&["Unknown ", name.as_str()]),
        TypeFault::Duplicate { name } => out.add(&["Duplicate ", name.as_str()]),
        TypeFault::BadArgument { keyword } => out.add(&["BadArgument ", keyword.as_str()]),
        TypeFault::Memory => Err(Undone),
    }
}
