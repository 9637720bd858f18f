//! A statement where it stands, and the modules around it all.
ghost use Rattle.std.specs.Prelude.{◌≡◌, IfOk};
ghost use Rattle.orc_modules.specs.Scopes.{the_modules};
ghost use Rattle.orc_modules.specs.Stack.{modules_of};

use crate::looks::Looks;
use crate::most::{added, all_leaders};
use crate::scope::Above;
use orc_text::Memory;
use orc_yang::Stmt;

/// So many leafrefs are followed.
pub const MAX_CHAIN: usize = 1_000;

// So many typedefs, or nodes and groupings, are followed one inside another.
const MAX_LEVELS: usize = 2_000;

/// The modules, and how many typedefs, or nodes and groupings, can lead on to one another without
/// leading back to themselves; and what may still be looked at.
#[derive(Clone, Copy)]
pub struct Modules<'a> {
    pub all: &'a [Stmt],
    pub most: usize,
    pub looks: &'a Looks,
}

impl<'a> Modules<'a> {
    /// Modules, with their typedefs, groupings and nodes counted.
    pub fn of(all: &'a [Stmt], looks: &'a Looks) -> Result<Modules<'a>, Memory>
        ensures { IfOk result (λ modules. modules_of modules ≡ the_modules all.now) }
    {
        let most = added(all_leaders(looks, all)?, 1)?;
        Ok(Modules { all, most, looks })
    }

    /// Goes one level further down, where `depth` levels are left. It runs out of memory past 2,000 levels.
    pub fn go_down(&self, depth: usize) -> Result<(), Memory> {
        if self.most.saturating_sub(depth) >= MAX_LEVELS {
            return Err(Memory);
        }
        Ok(())
    }
}

/// A statement where it stands: the statements around it, and those before it in the same block.
#[derive(Clone, Copy)]
pub struct Place<'a, 'm> {
    pub above: &'a Above<'a, 'm>,
    pub before: &'a [Stmt],
    pub here: &'a Stmt,
}
