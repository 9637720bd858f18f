//! A statement with the definitions of its block, found by their names.
ghost use Rattle.std.specs.Prelude.{◌≡◌, ◌∷◌, [], List, codes, false, IfOk, IfSome, option_map};
ghost use Rattle.std.specs.List.{find};
ghost use Rattle.orc_types.specs.Statements.{subs};
ghost use Rattle.orc_modules.specs.Statements.{defines};
ghost use Rattle.orc_modules.specs.inside.Beside.{beside_brings};

use crate::firsts::{named, names_of};
use crate::scope::first_defined;
use crate::shallow::{depth_of, depths_of};
use orc_text::Memory;
use orc_yang::Stmt;
use std::alloc::Global;
use std::collections::BTreeMap;
use std::marker::Model;

/// A statement, with the first typedef and the first grouping of each name in its block, and which
/// of these groupings bring nothing. Contracts see the statement.
#[derive(Drop)]
pub struct Block<'m> {
    here: &'m Stmt,
    typedefs: BTreeMap<&'m str, &'m Stmt>,
    groupings: BTreeMap<&'m str, &'m Stmt>,
    depths: BTreeMap<&'m str, usize>,
}

impl<'m> Model for Block<'m> {
    ghost use Rattle.orc_yang.specs.declared.statement.Stmt.{Stmt};
    ghost use Rattle.orc_yang.specs.contracts.statement.Stmt as stmt;
    ghost use Rattle.std.specs.Coded.{codes};
    ghost use Rattle.orc_modules.specs.inside.Blocks.{by_name, IsIndexed};
    ghost use Rattle.orc_modules.specs.inside.Shallow.{depth_by};

    ghost Value = { Stmt };

    ghost coded = { Prim.hlevel (codes, stmt.the_row.coded) };

    ghost view = { λ b. b.here.now };

    ghost invariant = { λ b. IsIndexed b.here.now (by_name b.typedefs) (by_name b.groupings) (depth_by b.depths) };
}

impl<'m> Block<'m> {
    /// The block of this statement.
    pub fn of(alloc: Global, here: &'m Stmt) -> Result<Block<'m>, Memory>
        ensures { IfOk result (λ block. block ≡ here.now) }
    {
        let typedefs = names_of(alloc, "typedef", here.subs.as_slice())?;
        let groupings = names_of(alloc, "grouping", here.subs.as_slice())?;
        let depths = depths_of(alloc, here, &groupings)?;
        Ok(Block {
            here,
            typedefs,
            groupings,
            depths,
        })
    }

    /// The statement.
    pub fn here(&self) -> &'m Stmt
        ensures { result.now ≡ self.now }
    {
        self.here
    }

    // The first typedef of this name.
    fn typedef(&self, name: &str) -> Option<&'m Stmt>
        ensures { option_map (λ s. s.now) result ≡ find (defines (codes "typedef") name.now) (subs self.now) }
    {
        named(&self.typedefs, name)
    }

    // The first grouping of this name.
    fn grouping(&self, name: &str) -> Option<&'m Stmt>
        ensures { option_map (λ s. s.now) result ≡ find (defines (codes "grouping") name.now) (subs self.now) }
    {
        named(&self.groupings, name)
    }

    /// The first definition of this keyword and name in the block. Typedefs and groupings are found
    /// without a look at the others.
    pub fn definition(&self, keyword: &str, name: &str) -> Option<&'m Stmt>
        ensures { option_map (λ s. s.now) result ≡ find (defines keyword.now name.now) (subs self.now) }
    {
        if keyword == "typedef" {
            return self.typedef(name);
        }
        if keyword == "grouping" {
            return self.grouping(name);
        }
        first_defined(keyword, name, self.here.subs.as_slice())
    }

    /// Through how many groupings at most the grouping of this name brings nothing, where the block is a
    /// module's own and that is known.
    pub(crate) fn depth(&self, name: &str) -> Option<usize>
        ensures { IfSome result (λ d. (modules : List Stmt)
            → beside_brings d modules (self.now ∷ []) name.now ≡ false) }
    {
        depth_of(&self.depths, name)
    }
}
