//! What a call does that comes to actions which are at hand, so that no service is expanded again.
ghost use Rattle.std.specs.Prelude.{◌≡◌, All, IfOk, IsTrue, None, Ok, OnErr, OnOk};
ghost use Rattle.orc_decls.specs.Calls.{is_call};
ghost use Rattle.orc_decls.specs.Declarations.{AreDecls};
ghost use Rattle.orc_datastore.specs.Next.{IsDataAfter, IsStateOf, after, clash, expanded_call};
ghost use Rattle.orc_datastore.specs.Sets.{AreSets};

use crate::Datastore;
use crate::sets::sets_among;
use orc_call::{Action, Answer, Call};
use orc_decls::Decls;
use orc_template::written_is_typed;
use orc_text::{Memory, Row};
use orc_tree::{ChangeSet, Tree};
use std::alloc::Global;

impl Datastore {
    /// The data after a call, or why it is refused before its services are looked at: the first action at
    /// fault, else what is broken in the data after all of them.
    pub fn data_after(
        &self,
        alloc: Global,
        decls: &Decls,
        call: &Call,
    ) -> Result<Result<Tree, Answer>, Memory>
        requires decls { AreDecls decls.now }
        requires call { IsTrue (is_call decls.now call.now) }
        requires state { IsStateOf decls.now self.now }
        ensures { IfOk result (IsDataAfter decls.now self.now call.now) }
    {
        self.data_behind(alloc, decls, call)
    }

    /// What a call changes on each device that it touches, an empty set where nothing changes, where it
    /// comes to these actions; or the clash for which it isn't done. Nothing is changed.
    pub fn change_sets(
        &self,
        alloc: Global,
        decls: &Decls,
        call: &Call,
        actions: &[Action],
    ) -> Result<Result<Row<(u32, ChangeSet)>, Answer>, Memory>
        requires decls { AreDecls decls.now }
        requires call { IsTrue (is_call decls.now call.now) }
        requires state { IsStateOf decls.now self.now }
        requires actions { expanded_call decls.now self.now call.now ≡ Ok actions.now }
        ensures { IfOk result (AreSets decls.now.names actions.now self.now) }
    {
        written_is_typed();
        sets_among(alloc, decls, self, actions)
    }

    /// Does a call that comes to these actions and meets no clash, with the data after it. Where memory
    /// runs out the state stays as it was.
    pub fn perform(
        &mut self,
        alloc: Global,
        decls: &Decls,
        call: &Call,
        actions: &[Action],
        next: Tree,
    ) -> Result<(), Memory>
        requires decls { AreDecls decls.now }
        requires call { IsTrue (is_call decls.now call.now) }
        requires state { IsStateOf decls.now self.old }
        requires behind { IsDataAfter decls.now self.old call.now (Ok next) }
        requires actions { expanded_call decls.now self.old call.now ≡ Ok actions.now }
        requires apart { clash decls.now.names self.old.live actions.now ≡ None }
        ensures done { OnOk result (self.new ≡ after decls.now self.old call.now) }
        ensures still { OnErr result (self.new ≡ self.old) }
        ensures kept { IsStateOf decls.now self.new }
    {
        written_is_typed();
        match self.change(alloc, decls, actions, next)? {
            None => Ok(()),
            Some(_) => unreachable!(),
        }
    }
}
