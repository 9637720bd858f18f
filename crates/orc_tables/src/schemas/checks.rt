//! Configurations under a schema, and what each of them breaks.
//!
//! A line is an answer, a bar, and the items of a configuration with semicolons between: a path for an
//! entry, and a path, ` = ` and a text for a leaf. The answer is `ok`, or the least path at which a rule
//! is broken and the first rule that is broken there. After a further bar stand the rules of a device
//! with semicolons between, `max PATH NUMBER` and `forbid PATH = TEXT`, and the answer is `accepted` or
//! `refused`. Lines without a bar are taken over as they are.
use crate::items::{put_of, set};
use crate::shown::Shown;
use crate::undone::Undone;
use orc_call::Put;
use orc_check::{
    Accept, CheckFault, KEY, KIND, MANDATORY, MAX_ELEMENTS, MIN_ELEMENTS, accepts, broken, valid,
};
use orc_path::{Item, Path};
use orc_schema::Schema;
use orc_text::{Row, Text};
use orc_tree::Tree;
use std::alloc::Global;

/// Adds each line with the answer that comes.
pub(crate) fn push_answers(out: &mut Shown, schema: &Schema, lines: &str) -> Result<(), Undone> {
    for line in lines.lines() {
        push_line(out, schema, line)?;
        out.add(&["\n"])?;
    }
    Ok(())
}

fn push_line(out: &mut Shown, schema: &Schema, line: &str) -> Result<(), Undone> {
    let Some((_due, given)) = line.split_once('|') else {
        return out.add(&[line]);
    };
    let (items, rules) = given.split_once('|').unwrap_or((given, ""));
    let tree = tree_of(out.alloc, items)?;
    match items.len() == given.len() {
        true => push_breach(out, schema, &tree)?,
        false => push_acceptance(out, schema, &tree, rules)?,
    }
    out.add(&["|", given])
}

// The configuration of these items; one that doesn't fit its path, or has none, stands nowhere.
fn tree_of(alloc: Global, items: &str) -> Result<Tree, Undone> {
    let mut tree = Tree::new(alloc);
    for item in items.split(';') {
        if let Ok(put) = put_of(alloc, item) {
            let _fits = set(&mut tree, put)?;
        }
    }
    Ok(tree)
}

fn word(rule: u8) -> &'static str {
    match rule {
        KIND => " kind",
        KEY => " key",
        MANDATORY => " mandatory",
        MIN_ELEMENTS => " min-elements",
        MAX_ELEMENTS => " max-elements",
        _ => " leafref",
    }
}

// Adds what is broken.
fn push_breach(out: &mut Shown, schema: &Schema, tree: &Tree) -> Result<(), Undone> {
    let any = broken(schema, tree);
    match valid(out.alloc, schema, tree) {
        Ok(()) => out.add(&[if any { "ok, but broken" } else { "ok" }]),
        Err(CheckFault::Memory) => Err(Undone),
        Err(CheckFault::Broken { path, rule }) => {
            out.item(&path, &Item::Entry)?;
            out.add(&[word(rule), if any { "" } else { ", but not broken" }])
        }
    }
}

// Adds whether a device with these rules accepts the items.
fn push_acceptance(
    out: &mut Shown,
    schema: &Schema,
    tree: &Tree,
    rules: &str,
) -> Result<(), Undone> {
    let mut accept = Accept {
        schema: schema.copy(out.alloc)?,
        max: Row::new(out.alloc),
        forbid: Row::new(out.alloc),
    };
    for rule in rules.split(';') {
        add_rule(out.alloc, &mut accept, rule)?;
    }
    out.add(&[if accepts(&accept, tree) {
        "accepted"
    } else {
        "refused"
    }])
}

/// Adds the rule of a text to what a device accepts: `max LIST NUMBER` or `forbid LEAF`.
pub(crate) fn add_rule(alloc: Global, accept: &mut Accept, rule: &str) -> Result<(), Undone> {
    match rule.split_once(' ') {
        Some(("max", list)) => push_max(alloc, &mut accept.max, list),
        Some(("forbid", leaf)) => push_forbid(alloc, &mut accept.forbid, leaf),
        _ => Err(Undone),
    }
}

// The list has at most so many entries.
fn push_max(alloc: Global, rules: &mut Row<(Path, u64)>, text: &str) -> Result<(), Undone> {
    let (list, count) = text.split_once(' ').ok_or(Undone)?;
    let count = count.parse()?;
    rules.push((Path::parse(alloc, list)?, count))?;
    Ok(())
}

// There is no leaf of this value.
fn push_forbid(alloc: Global, rules: &mut Row<(Path, Text)>, text: &str) -> Result<(), Undone> {
    let Put { path, item } = put_of(alloc, text)?;
    match item {
        Item::Leaf(value) => rules.push((path, value))?,
        Item::Entry => return Err(Undone),
    }
    Ok(())
}
