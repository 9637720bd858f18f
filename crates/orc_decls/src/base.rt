//! The tree of items that were declared, as those of a device's base.
//!
//! It is made in the order of the paths, so that most searches end where the one before ended. To search
//! a large tree in no order is to wait for memory at each step, so the items are put in order first: in
//! pieces that a processor's cache holds, each of which is copied in its order, and then all by a sort
//! that takes the pieces as runs.
ghost use Rattle.std.specs.Prelude.{◌≡◌, ◌++◌, map, IfOk, OnOk, IsTrue};
ghost use Rattle.std.specs.FinMap.{empty};
ghost use Rattle.orc_decls.specs.Openings.{declared_base, fits_puts, put_all};
ghost use Rattle.orc_decls.specs.inside.Orders.{KeepsOrder};

use crate::Device;
use orc_call::Put;
use orc_text::Memory;
use orc_tree::{Finger, Tree};
use std::alloc::Global;
use std::cmp::min;

// How many items are put in order at a time.
const PIECE: usize = 8192;

// These items in the order of their paths.
fn in_order<'a>(alloc: Global, puts: &'a [Put]) -> Result<Vec<&'a Put>, Memory>
    ensures { IfOk result (λ order. KeepsOrder puts.now (map (λ put. put.now) order.items)) }
{
    let mut order = Vec::new(alloc);
    for put in puts {
        order.push(put)?;
    }
    order.sort_by(|one, other| one.path.cmp(&other.path))?;
    Ok(order)
}

// Adds copies of these items at the end, in the order of their paths.
fn push_sorted(alloc: Global, sorted: &mut Vec<Put>, puts: &[Put]) -> Result<(), Memory>
    ensures { OnOk result (KeepsOrder (sorted.old.items ++ puts.now) sorted.new.items) }
{
    for put in in_order(alloc, puts)? {
        sorted.push(put.copy(alloc)?)?;
    }
    Ok(())
}

// Copies of these items in the order of their paths.
fn sorted(alloc: Global, puts: &[Put]) -> Result<Vec<Put>, Memory>
    ensures { IfOk result (λ sorted. KeepsOrder puts.now sorted.items) }
{
    let mut sorted = Vec::new(alloc);
    let mut rest = puts;
    while !rest.is_empty() {
        let (piece, behind) = rest.split_at(min(PIECE, rest.len()));
        push_sorted(alloc, &mut sorted, piece)?;
        rest = behind;
    }
    sorted.sort_by(|one, other| one.path.cmp(&other.path))?;
    Ok(sorted)
}

/// A tree with these items. Of two at one path the later one counts.
pub fn tree_of(alloc: Global, puts: &[Put]) -> Result<Tree, Memory>
    requires { IsTrue (fits_puts puts.now) }
    ensures { IfOk result (λ tree. tree ≡ put_all puts.now empty) }
{
    let mut tree = Tree::new(alloc);
    let mut finger = Finger::new();
    for put in sorted(alloc, puts)? {
        tree.set_near(&mut finger, put.path, put.item)?;
    }
    Ok(tree)
}

/// The declared base of a device.
pub fn declared_base(alloc: Global, device: &Device) -> Result<Tree, Memory>
    requires { IsTrue (fits_puts device.now.base) }
    ensures { IfOk result (λ tree. tree ≡ declared_base device.now) }
{
    tree_of(alloc, device.base.as_slice())
}
