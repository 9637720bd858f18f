//! The store and its calls.
ghost use Rattle.std.specs.Prelude.{◌≡◌, ◌↔◌, ◌+◌, ◌*◌, ◌≤◌, [], IfOk, OnOk, IsErr, IfErr, IfSome, length, is_none, IsTrue};
ghost use Rattle.std.specs.List.{list_all};
ghost use Rattle.std.specs.Option.{option_copied};
ghost use Rattle.std.specs.FinMap.{get};
ghost use Rattle.orc_tree.specs.Changes.{applied};
ghost use Rattle.orc_change.specs.Differences.{difference};
ghost use Rattle.orc_refs.specs.Stores.{IsStore, empty_store, ids_at, written_by};
ghost use Rattle.orc_refs.specs.Moves.{BringWhole, IsMoved, LeadsTo, StartAt, are_distinct, count_moved, edit_fits, edited, writes_after};
ghost use Rattle.orc_refs.specs.Clashes.{IsCause};

use crate::backs::Backs;
use crate::planning::{apply_moves, preview_moves};
use crate::{BaseEdit, Meta, Move, RefsFault};
use orc_io::Steps;
use orc_path::Path;
use orc_text::Memory;
use orc_tree::{ChangeSet, Tree};
use std::alloc::Global;
use std::marker::{Brand, Model};
use std::sync::ledger::{Blank, Ledger};

/// The store of one device: its base, the tree that it should have, and the back pointers of each
/// path that services write.
pub struct Refs {
    base: Tree,
    tree: Tree,
    backs: Backs,
}

// Written out, so that a crate above lets a store go by one call.
impl Drop for Refs {
    fn drop(self) {
        let Refs {
            base: _,
            tree: _,
            backs: _,
        } = self;
    }
}

impl Model for Refs {
    ghost use Rattle.orc_refs.specs.Stores.{Store, store_code, store_of};
    ghost use Rattle.orc_refs.specs.inside.Kept.{AreKept};

    ghost Value = { Store };

    ghost coded = { store_code };

    ghost view = { λ refs. store_of refs.base refs.tree refs.backs };

    ghost invariant = { λ refs. AreKept refs.base refs.tree refs.backs };
}

impl Refs {
    /// The store of a device on which no service writes.
    pub fn new(alloc: Global, base: Tree) -> Result<Refs, Memory>
        ensures { IfOk result (λ refs. refs ≡ empty_store base) }
    {
        let tree = base.copy(alloc)?;
        let backs = Backs::new(alloc)?;
        Ok(Refs { base, tree, backs })
    }

    /// An equal store, which shares all that it holds. It costs a few counters.
    pub fn copy(&self, alloc: Global) -> Result<Refs, Memory>
        ensures { IfOk result (λ refs. refs ≡ self.now) }
    {
        Ok(Refs {
            base: self.base.copy(alloc)?,
            tree: self.tree.copy(alloc)?,
            backs: self.backs.copy()?,
        })
    }

    /// Moves services from what they write to what they are to write, edits the base, and gives the
    /// changes of the tree. It visits each path that the moves touch or at which the base changes
    /// twice, and no other one; a visit is a step. After a refusal the store is as it was.
    pub fn apply<L: Ledger>(
        &mut self,
        alloc: Global,
        moves: &[Move],
        edits: &[BaseEdit],
        steps: &mut Steps<L>,
    ) -> Result<ChangeSet, RefsFault>
        requires start { StartAt self.old moves.now }
        requires distinct { IsTrue (are_distinct moves.now) }
        requires whole { BringWhole moves.now }
        requires fits { IsTrue (list_all edit_fits edits.now) }
        ensures moved { OnOk result (IsMoved self.old moves.now edits.now self.new) }
        ensures leads { IfOk result (λ set. applied set.changes self.old.tree ≡ self.new.tree) }
        ensures exact { IfOk result (λ set. set.changes ≡ difference self.old.tree self.new.tree) }
        ensures clash { IfErr result (IsCause (writes_after moves.now (written_by self.old)) moves.now) }
        ensures kept { IsErr result → self.new ≡ self.old }
        ensures steps { steps.new
            ≤ steps.old
            + 2 * (count_moved moves.now + length (difference self.old.base (edited edits.now self.old.base))) }
        ensures few { edits.now ≡ [] → steps.new ≤ steps.old + 2 * count_moved moves.now }
        ensures store { IsStore self.new }
    {
        apply_moves(
            alloc,
            &mut self.backs,
            &mut self.tree,
            &mut self.base,
            moves,
            edits,
            steps,
        )
    }

    /// What `apply` would give. It changes nothing.
    pub fn preview(
        &self,
        alloc: Global,
        moves: &[Move],
        edits: &[BaseEdit],
    ) -> Result<ChangeSet, RefsFault>
        requires start { StartAt self.now moves.now }
        requires distinct { IsTrue (are_distinct moves.now) }
        requires whole { BringWhole moves.now }
        requires fits { IsTrue (list_all edit_fits edits.now) }
        ensures leads { IfOk result (λ set. LeadsTo self.now moves.now edits.now set.changes) }
        ensures clash { IfErr result (IsCause (writes_after moves.now (written_by self.now)) moves.now) }
    {
        preview_moves::<Brand>(
            alloc,
            &self.backs,
            &self.tree,
            &self.base,
            moves,
            edits,
            Blank::new(1),
        )
    }

    /// The base overlaid with all that services write.
    pub fn tree(&self) -> &Tree
        ensures tree { result.now ≡ self.now.tree }
        ensures store { IsStore self.now }
    {
        &self.tree
    }

    /// What no service wrote.
    pub fn base(&self) -> &Tree
        ensures base { result.now ≡ self.now.base }
        ensures store { IsStore self.now }
    {
        &self.base
    }

    /// What is known of a path; none exactly where no service writes it. It takes no memory, and
    /// costs two searches.
    pub fn meta(&self, path: &Path) -> Option<Meta<'_>>
        ensures none { IsTrue (is_none result) ↔ (ids_at self.now path.now ≡ []) }
        ensures count { IfSome result (λ meta. meta.count ≡ length (ids_at self.now path.now)) }
        ensures back { IfSome result (λ meta. meta.back.now ≡ ids_at self.now path.now) }
        ensures original { IfSome result (λ meta. option_copied meta.original ≡ get self.now.base path.now) }
        ensures store { IsStore self.now }
    {
        let back = self.backs.ids_of(path);
        if back.is_empty() {
            return None;
        }
        Some(Meta {
            count: back.len() as u64,
            back,
            original: self.base.get(path),
        })
    }
}
