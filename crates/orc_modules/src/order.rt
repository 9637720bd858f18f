//! The groupings of a block in an order in which each comes after those that it uses.

use crate::parts::{Part, block_part};
use crate::scope::{is_near, plain_name};
use orc_text::{Memory, Row};
use orc_types::{argument, is_a};
use orc_yang::Stmt;
use std::alloc::Global;
use std::collections::BTreeMap;

// The groupings of a block: their names, which use each, and how many of those that each uses are still to come.
#[derive(Drop)]
struct Users<'m> {
    names: Vec<&'m str>,
    users: Vec<Row<usize>>,
    open: Vec<usize>,
}

// Adds a grouping under its name, where there is none yet.
fn add_grouping<'m>(
    alloc: Global,
    stmt: &'m Stmt,
    places: &mut BTreeMap<&'m str, usize>,
    found: &mut Users<'m>,
) -> Result<(), Memory> {
    let name = argument(stmt);
    if places.get(name).is_some() {
        return Ok(());
    }
    places.insert(name, found.names.len())?;
    found.names.push(name)?;
    found.users.push(Row::new(alloc))?;
    found.open.push(0)?;
    Ok(())
}

// Notes that a grouping uses another.
fn add_use(user: usize, used: usize, found: &mut Users<'_>) -> Result<(), Memory> {
    if let Some(users) = found.users.get_mut(used) {
        users.push(user)?;
        if let Some(count) = found.open.get_mut(user) {
            *count = count.saturating_add(1);
        }
    }
    Ok(())
}

// Notes that a grouping uses the one of this name, where the block has it.
fn add_use_of<'m>(
    user: usize,
    name: &str,
    places: &BTreeMap<&'m str, usize>,
    found: &mut Users<'m>,
) -> Result<(), Memory> {
    match places.get(name).copied() {
        Some(used) => add_use(user, used, found),
        None => Ok(()),
    }
}

// Notes what a grouping uses, without a prefix or with that of its module.
fn add_uses<'m>(
    prefix: &str,
    stmt: &'m Stmt,
    places: &BTreeMap<&'m str, usize>,
    found: &mut Users<'m>,
) -> Result<(), Memory> {
    let Some(user) = places.get(argument(stmt)).copied() else {
        return Ok(());
    };
    for sub in stmt.subs.as_slice() {
        match block_part(sub) {
            Part::Uses => {
                if is_near(prefix, argument(sub)) {
                    add_use_of(user, plain_name(argument(sub)), places, found)?;
                }
            },
            Part::Node => {},
            Part::Nothing => {},
        }
    }
    Ok(())
}

// The groupings of a block, and which use which.
fn users_of<'m>(alloc: Global, prefix: &str, here: &'m Stmt) -> Result<Users<'m>, Memory> {
    let mut places = BTreeMap::new(alloc);
    let mut found = Users {
        names: Vec::new(alloc),
        users: Vec::new(alloc),
        open: Vec::new(alloc),
    };
    for stmt in here.subs.as_slice() {
        if is_a("grouping", stmt) {
            add_grouping(alloc, stmt, &mut places, &mut found)?;
        }
    }
    for stmt in here.subs.as_slice() {
        if is_a("grouping", stmt) {
            add_uses(prefix, stmt, &places, &mut found)?;
        }
    }
    Ok(found)
}

// Whether one more of those that a grouping uses has come, and it was the last.
fn is_last(open: &mut [usize], user: usize) -> bool {
    match open.get_mut(user) {
        Some(count) => {
            *count = count.saturating_sub(1);
            *count == 0
        },
        None => false,
    }
}

// The places of the groupings that use none.
fn first_ready(alloc: Global, open: &[usize]) -> Result<Vec<usize>, Memory> {
    let mut ready = Vec::new(alloc);
    for (at, count) in open.iter().enumerate() {
        if *count == 0 {
            ready.push(at)?;
        }
    }
    Ok(ready)
}

// Adds the groupings for which this one was the last to come.
fn add_ready(users: &[usize], open: &mut [usize], ready: &mut Vec<usize>) -> Result<(), Memory> {
    for user in users {
        if is_last(open, *user) {
            ready.push(*user)?;
        }
    }
    Ok(())
}

/// The names of the groupings of the own block of a module of this prefix: each comes after those
/// of the block that it uses. Those that lead to themselves are left out.
pub(crate) fn order_of<'m>(
    alloc: Global,
    prefix: &str,
    here: &'m Stmt,
) -> Result<Vec<&'m str>, Memory> {
    let Users {
        names,
        users,
        mut open,
    } = users_of(alloc, prefix, here)?;
    let mut ready = first_ready(alloc, open.as_slice())?;
    let mut order = Vec::new(alloc);
    for round in 0..names.len() {
        let Some(at) = ready.get(round).copied() else {
            return Ok(order);
        };
        if let Some(name) = names.get(at).copied() {
            order.push(name)?;
        }
        if let Some(row) = users.get(at) {
            add_ready(row.as_slice(), open.as_mut_slice(), &mut ready)?;
        }
    }
    Ok(order)
}
