//! The expansion of a service.
ghost use Rattle.std.specs.Prelude.{◌≡◌, ◌++◌, ◌∷◌, [], IfOk, OnOk, map};
ghost use Rattle.std.specs.FinMap.{entries};
ghost use Rattle.orc_template.specs.Expansions.{row_put, device_part, device_parts};

use crate::blocks::more;
use orc_call::Put;
use orc_text::{Copied, Memory, Row};
use orc_tree::Tree;
use std::alloc::Global;

/// What a service writes: for each device on which it writes an item its number, devices ascending,
/// and the items with the entries on their way, in path order.
#[derive(Drop)]
pub struct Expansion {
    pub parts: Row<(u32, Row<Put>)>,
}

impl Expansion {
    /// An equal expansion.
    pub fn copy(&self, alloc: Global) -> Result<Expansion, Memory>
        ensures { IfOk result (λ expansion. expansion ≡ self.now) }
    {
        Ok(Expansion {
            parts: copied_parts(alloc, self.parts.as_slice())?,
        })
    }

    /// The expansion of what is written on each device, in the order of the devices' numbers from 0
    /// on: the items of each tree that has some, in path order. More trees than there are numbers of
    /// devices count as running out of memory.
    pub fn gathered(alloc: Global, written: &[Tree]) -> Result<Expansion, Memory>
        ensures { IfOk result (λ expansion. expansion.parts ≡ device_parts 0 written.now) }
    {
        let mut parts = Row::new(alloc);
        let mut number: u32 = 0;
        for tree in written {
            push_part(alloc, &mut parts, number, tree)?;
            number = more(number, 1)?;
        }
        Ok(Expansion { parts })
    }
}

impl Copied for Expansion {
    fn copied(&self, alloc: Global) -> Result<Expansion, Memory> {
        self.copy(alloc)
    }
}

// Copies of the parts.
fn copied_parts(alloc: Global, parts: &[(u32, Row<Put>)]) -> Result<Row<(u32, Row<Put>)>, Memory>
    ensures { IfOk result (λ copies. copies ≡ parts.now) }
{
    let mut copies = Row::new(alloc);
    for part in parts {
        copies.push((part.0, part.1.copy(alloc)?))?;
    }
    Ok(copies)
}

// The items of a tree, in path order.
fn puts_of(alloc: Global, tree: &Tree) -> Result<Row<Put>, Memory>
    ensures { IfOk result (λ puts. puts ≡ map row_put (entries tree.now)) }
{
    let mut puts = Row::new(alloc);
    for row in tree.rows() {
        puts.push(Put {
            path: row.0.copy(alloc)?,
            item: row.1.copy(alloc)?,
        })?;
    }
    Ok(puts)
}

// Adds the part of a device, where an item is written on it.
fn push_part(
    alloc: Global,
    parts: &mut Row<(u32, Row<Put>)>,
    number: u32,
    tree: &Tree,
) -> Result<(), Memory>
    ensures { OnOk result (parts.new ≡ parts.old ++ device_part number (entries tree.now)) }
{
    let puts = puts_of(alloc, tree)?;
    if puts.is_empty() {
        return Ok(());
    }
    parts.push((number, puts))
}
