//! What a line gives, as a text of lines that are set in.

use crate::shown::Shown;
use crate::undone::Undone;
use orc_call::{Action, Answer, Put};
use orc_expr::{Read, ReadSet};
use orc_template::{ExpandFault, Expansion, TemplateFault};
use orc_text::{Row, Text};
use orc_tree::Tree;

// Adds a line with a fault: a block, and a rule.
fn push_fault(out: &mut Shown, block: u32, rule: u8) -> Result<(), Undone> {
    out.number("    fault in block", u64::from(block))?;
    out.number(", rule", u64::from(rule))?;
    out.add(&["\n"])
}

// Adds the fault of an expansion.
fn push_expand_fault(out: &mut Shown, fault: ExpandFault) -> Result<(), Undone> {
    match fault {
        ExpandFault::At { block, rule } => push_fault(out, block, rule),
        ExpandFault::Memory => Err(Undone),
    }
}

/// Adds why a text is no template.
pub(crate) fn push_template_fault(out: &mut Shown, fault: TemplateFault) -> Result<(), Undone> {
    match fault {
        TemplateFault::NotJson => out.add(&["    no JSON text"])?,
        TemplateFault::BadMember { block } => {
            out.number("    member, block", u64::from(block))?;
        }
        TemplateFault::BadExpr { block } => {
            out.number("    expression, block", u64::from(block))?;
        }
        TemplateFault::Memory => return Err(Undone),
    }
    out.add(&["\n"])
}

// Adds the items of a device.
fn push_puts(out: &mut Shown, device: u32, puts: &[Put]) -> Result<(), Undone> {
    for put in puts {
        out.number("    on", u64::from(device))?;
        out.add(&[" "])?;
        out.item(&put.path, &put.item)?;
        out.add(&["\n"])?;
    }
    Ok(())
}

/// Adds an expansion, or its fault.
pub(crate) fn push_expansion(
    out: &mut Shown,
    answer: Result<Expansion, ExpandFault>,
) -> Result<(), Undone> {
    match answer {
        Ok(expansion) => {
            for part in expansion.copy(out.alloc)?.parts.as_slice() {
                push_puts(out, part.0, part.1.as_slice())?;
            }
            Ok(())
        }
        Err(fault) => push_expand_fault(out, fault),
    }
}

/// Adds how many items each device has, or the fault.
pub(crate) fn push_trees(
    out: &mut Shown,
    answer: Result<Row<Tree>, ExpandFault>,
) -> Result<(), Undone> {
    match answer {
        Ok(trees) => {
            out.add(&["    items"])?;
            for tree in trees.as_slice() {
                out.number("", tree.walk(out.alloc)?.len() as u64)?;
            }
            out.add(&["\n"])
        }
        Err(fault) => push_expand_fault(out, fault),
    }
}

/// Adds what was read, in order.
pub(crate) fn push_reads(out: &mut Shown, reads: &ReadSet) -> Result<(), Undone> {
    for read in reads.reads.as_slice() {
        match read {
            Read::Item(path) => push_read(out, "read", &path.text(out.alloc)?)?,
            Read::Keys(path) => push_read(out, "keys", &path.text(out.alloc)?)?,
            Read::Service(id) => push_read(out, "life", id)?,
        }
    }
    Ok(())
}

// Adds a line of what was read.
fn push_read(out: &mut Shown, word: &str, text: &Text) -> Result<(), Undone> {
    out.add(&["    ", word, " ", text.as_str(), "\n"])
}

// Adds what an action writes for a literal service.
fn push_action(out: &mut Shown, action: &Action) -> Result<(), Undone> {
    if let Action::Literal(name, writes) = action {
        out.add(&["    ", name.as_str(), "\n"])?;
        for put in writes.as_slice() {
            out.add(&["      ", put.device.as_str(), " "])?;
            out.item(&put.path, &put.item)?;
            out.add(&["\n"])?;
        }
    }
    Ok(())
}

/// Adds what actions come to, or the service that can't be expanded.
pub(crate) fn push_actions(
    out: &mut Shown,
    answer: &Result<Row<Action>, Answer>,
) -> Result<(), Undone> {
    match answer {
        Ok(actions) => {
            for action in actions.as_slice() {
                push_action(out, action)?;
            }
            Ok(())
        }
        Err(Answer::Expand(name, block, rule)) => {
            out.add(&["    ", name.as_str(), "\n"])?;
            push_fault(out, *block, *rule)
        }
        Err(_) => Err(Undone),
    }
}
