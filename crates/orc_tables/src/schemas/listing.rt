//! How schemas and their faults are listed.
//!
//! A fault is its name and what it names. A schema has a line for each node: its names after slashes,
//! and what it is. After a list stand its keys, after it and a leaf-list how many entries it has at
//! least and at most, after `=` a default, after `->` the names to which a leafref leads and how many
//! of them stand for its own entries. A node that is not found again by its path is marked.
use crate::schemas::found::is_found;
use crate::shown::Shown;
use crate::undone::Undone;
use orc_schema::{LeafNode, Node, Schema, SchemaFault, SchemaLine, Target};
use orc_text::Text;
use orc_value::Kind;

/// Adds a fault.
pub(crate) fn push_fault(out: &mut Shown, fault: &SchemaFault) -> Result<(), Undone> {
    let (word, name) = match fault {
        SchemaFault::Unsupported { keyword } => ("Unsupported ", keyword.as_str()),
        SchemaFault::Unknown { name } => ("Unknown ", name.as_str()),
        SchemaFault::Duplicate { name } => ("Duplicate ", name.as_str()),
        SchemaFault::BadArgument { keyword } => ("BadArgument ", keyword.as_str()),
        SchemaFault::NoKey { list } => ("NoKey ", list.as_str()),
        SchemaFault::Loop { name } => ("Loop ", name.as_str()),
        SchemaFault::Memory => return Err(Undone),
    };
    out.add(&[word, name])
}

/// Adds the lines of a schema.
pub(crate) fn push_schema(out: &mut Shown, schema: &Schema) -> Result<(), Undone> {
    for line in schema.lines() {
        push_line(out, line)?;
        match is_found(out.alloc, schema, line)? {
            true => out.add(&["\n"])?,
            false => out.add(&[" IS NOT FOUND\n"])?,
        }
    }
    Ok(())
}

fn push_line(out: &mut Shown, line: &SchemaLine) -> Result<(), Undone> {
    push_names(out, "/", line.names.as_slice())?;
    match &line.node {
        Node::Container => out.add(&[" container"]),
        Node::List(list) => {
            out.add(&[" list"])?;
            push_names(out, " ", list.keys.as_slice())?;
            push_counts(out, list.least, list.most)
        }
        Node::Leaf(leaf) => push_leaf(out, leaf),
        Node::LeafList(values) => {
            out.add(&[" leaf-list"])?;
            push_kind(out, &values.kind)?;
            push_counts(out, values.least, values.most)?;
            push_target(out, &values.target)
        }
    }
}

// Adds names, each after a mark.
fn push_names(out: &mut Shown, mark: &str, names: &[Text]) -> Result<(), Undone> {
    for name in names {
        out.add(&[mark, name.as_str()])?;
    }
    Ok(())
}

fn push_counts(out: &mut Shown, least: u64, most: Option<u64>) -> Result<(), Undone> {
    out.number("", least)?;
    out.add(&[".."])?;
    match most {
        Some(number) => out.add(&[number.to_string(out.alloc)?.as_str()]),
        None => Ok(()),
    }
}

fn push_leaf(out: &mut Shown, leaf: &LeafNode) -> Result<(), Undone> {
    out.add(&[" leaf"])?;
    if let Some(place) = leaf.key {
        out.number(" key", u64::from(place))?;
    }
    if leaf.mandatory {
        out.add(&[" mandatory"])?;
    }
    push_kind(out, &leaf.kind)?;
    if let Some(text) = &leaf.default {
        out.add(&[" = ", text.as_str()])?;
    }
    push_target(out, &leaf.target)
}

fn push_kind(out: &mut Shown, kind: &Kind) -> Result<(), Undone> {
    match kind {
        Kind::Int(int) => {
            out.add(&[" int"])?;
            out.ranges(int.ranges.as_slice())
        }
        Kind::Decimal(digits) => out.number(" decimal", u64::from(*digits)),
        Kind::Str(lengths) => {
            out.add(&[" string"])?;
            out.lengths(lengths.as_slice())
        }
        Kind::Bool => out.add(&[" boolean"]),
        Kind::Enum(names) => {
            out.add(&[" enum"])?;
            push_names(out, " ", names.as_slice())
        }
        Kind::Empty => out.add(&[" empty"]),
    }
}

fn push_target(out: &mut Shown, target: &Option<Target>) -> Result<(), Undone> {
    match target {
        Some(target) => {
            out.add(&[" -> "])?;
            push_names(out, "/", target.names.as_slice())?;
            out.number(" shared", u64::from(target.shared))
        }
        None => Ok(()),
    }
}
