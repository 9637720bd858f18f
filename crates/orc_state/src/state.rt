//! The state with its history: planned calls are checked on it and committed.
ghost use Rattle.std.specs.Prelude.{◌≡◌, ◌<◌, [], Ok, None, IfOk, IsTrue, length, take, unwrap_or};
ghost use Rattle.orc_decls.specs.Calls.{is_call};
ghost use Rattle.orc_decls.specs.Declarations.{AreDecls};
ghost use Rattle.orc_datastore.specs.Legal.{IsNew};
ghost use Rattle.orc_datastore.specs.Metas.{IsMeta};
ghost use Rattle.orc_datastore.specs.Next.{IsDataAfter, IsStateOf, expanded_call};
ghost use Rattle.orc_datastore.specs.Snapshots.{IsSnapshotOf};
ghost use Rattle.orc_datastore.specs.States.{tree_due};
ghost use Rattle.orc_state.specs.Checks.{Checks, CanCommit, IsUnread, clash_of, refused_early};
ghost use Rattle.orc_state.specs.Commits.{CommitsCall};
ghost use Rattle.orc_decls.specs.declared.declarations.Decls.{Decls};
ghost use Rattle.orc_state.specs.States.{IsPlanAt, IsSnapshotAt, IsStateUnder};
ghost use Rattle.orc_state.specs.Writes.{AreWritesOf};
ghost use Rattle.orc_state.specs.inside.Entering.{Enters};
ghost use Rattle.orc_state.specs.inside.Firsts.{IsAnswerAt, IsWriteAt};

use crate::conflict::first_conflict;
use crate::history::History;
use crate::literals::{made_of, made_or_own};
use crate::writes::writes;
use orc_call::{Action, Answer, Call};
use orc_datastore::{Datastore, Plan, Snapshot};
use orc_decls::Decls;
use orc_path::{Path, Write};
use orc_plans::{plan_is_enough, planned_stands, unread_plan_stands};
use orc_refs::Meta;
use orc_text::{Memory, Row};
use orc_tree::{ChangeSet, Tree};
use std::alloc::Global;
use std::marker::Model;
use std::mem;

/// The data, the bases of the devices and the living services; the committed calls, which make these;
/// and what each of the calls wrote.
pub struct State {
    pub(crate) datastore: Datastore,
    pub(crate) history: History,
    pub(crate) writes: Row<Row<Write>>,
}

// Written out, so that a crate above lets a state go by one call, and proves nothing of its parts.
impl Drop for State {
    fn drop(self) {
        let State {
            datastore: _,
            history: _,
            writes: _,
        } = self;
    }
}

impl Model for State {
    ghost use Rattle.orc_state.specs.Codes.{state_code};
    ghost use Rattle.orc_state.specs.States.{State};

    ghost Value = { State };

    ghost coded = { state_code };

    ghost view = { λ state. record {
      datastore = state.datastore;
      history = state.history;
      writes = state.writes;
    } };
}

impl State {
    /// The state that is declared, and no history.
    pub fn start(alloc: Global, decls: &Decls) -> Result<State, Memory>
        requires { AreDecls decls.now }
        ensures state { IfOk result (IsStateUnder decls.now) }
        ensures none { IfOk result (λ state. state.history ≡ []) }
    {
        Ok(State {
            datastore: Datastore::open(alloc, decls)?,
            history: History::new(alloc),
            writes: Row::new(alloc),
        })
    }

    /// The tree that is due on a device: its base overlaid with the items that living services write.
    pub fn tree(&self, device: u32) -> &Tree
        requires { device < length self.now.datastore.bases }
        ensures { result.now ≡ tree_due self.now.datastore device }
    {
        self.datastore.tree_due(device)
    }

    /// What is known of a path of a device; none exactly where no living service writes it. It takes no
    /// memory.
    pub fn meta(&self, device: u32, path: &Path) -> Option<Meta<'_>>
        requires { device < length self.now.datastore.bases }
        ensures { IsMeta self.now.datastore device path.now result }
    {
        self.datastore.meta(device, path)
    }

    /// The data.
    pub fn data_tree(&self) -> &Tree
        ensures { result.now ≡ self.now.datastore.data }
    {
        self.datastore.data()
    }

    /// The committed calls, in order. The first one is entry 1.
    pub fn history(&self) -> &[Call]
        ensures { result.now ≡ self.now.history }
    {
        self.history.as_slice()
    }

    /// A snapshot of the present state, which says its own front: how many calls are committed.
    pub fn snapshot(&self, alloc: Global) -> Result<Snapshot, Memory>
        ensures front { IfOk result (λ snapshot. snapshot.front ≡ length self.now.history) }
        ensures state { IfOk result (IsSnapshotOf self.now.datastore) }
        ensures at { (decls : Decls) → IsStateUnder decls self.now
            → IfOk result (IsSnapshotAt decls self.now.history) }
    {
        self.datastore.snapshot(alloc, self.history.len() as u64)
    }

    /// What a planned call is answered on the present state, by the first cause in this order: Exists or
    /// Missing for its first action at fault; Invalid for the data with it; Conflict with the first entry
    /// after the plan's front that wrote what the plan read, and the least such write; Clash. Where there
    /// is none it is the set of what the call changes in the tree of each device that it touches, an empty
    /// one where it changes nothing there. The plan is one that a snapshot of this state answered, however
    /// many calls were committed since. No service is expanded, and nothing is changed.
    pub fn check(
        &self,
        alloc: Global,
        decls: &Decls,
        call: &Call,
        plan: &Plan,
    ) -> Result<Result<Row<(u32, ChangeSet)>, Answer>, Memory>
        requires decls { AreDecls decls.now }
        requires call { IsTrue (is_call decls.now call.now) }
        requires state { IsStateUnder decls.now self.now }
        requires plan { IsPlanAt decls.now self.now.history call.now plan.now }
        ensures { IfOk result (Checks decls.now self.now.history call.now plan.now) }
    {
        match self.data_with(alloc, decls, call, plan)? {
            Ok(_) => self.check_reads(alloc, decls, call, plan),
            Err(answer) => Ok(Err(answer)),
        }
    }

    // The data with a planned call, or why it is refused before what it read is looked at. Where no call was
    // committed since the plan's front it is at hand, and nothing is looked at.
    fn data_with(
        &self,
        alloc: Global,
        decls: &Decls,
        call: &Call,
        plan: &Plan,
    ) -> Result<Result<Tree, Answer>, Memory>
        requires decls { AreDecls decls.now }
        requires call { IsTrue (is_call decls.now call.now) }
        requires state { IsStateUnder decls.now self.now }
        requires plan { IsPlanAt decls.now self.now.history call.now plan.now }
        ensures { IfOk result (IsDataAfter decls.now self.now.datastore call.now) }
    {
        if plan.front == self.history.len() as u64 {
            return Ok(Ok(plan.next.copy(alloc)?));
        }
        self.datastore.data_after(alloc, decls, call)
    }

    // What `check` answers where the call has no action at fault and the data is valid with it.
    fn check_reads(
        &self,
        alloc: Global,
        decls: &Decls,
        call: &Call,
        plan: &Plan,
    ) -> Result<Result<Row<(u32, ChangeSet)>, Answer>, Memory>
        requires decls { AreDecls decls.now }
        requires call { IsTrue (is_call decls.now call.now) }
        requires state { IsStateUnder decls.now self.now }
        requires plan { IsPlanAt decls.now self.now.history call.now plan.now }
        requires early { refused_early decls.now self.now.datastore call.now ≡ None }
        ensures { IfOk result (Checks decls.now self.now.history call.now plan.now) }
    {
        match first_conflict(
            &plan.held.reads,
            self.writes.as_slice(),
            plan.front as usize,
        ) {
            Some(at) => Ok(Err(self.conflict(alloc, at)?)),
            None => self.check_stores(alloc, decls, call, plan),
        }
    }

    // The answer for the write at this place of this entry's.
    fn conflict(&self, alloc: Global, at: (usize, usize)) -> Result<Answer, Memory>
        requires { IsWriteAt self.now.writes at }
        ensures { IfOk result (IsAnswerAt self.now.writes at) }
    {
        let write = &self.writes.as_slice()[at.0].as_slice()[at.1];
        Ok(Answer::Conflict(at.0 as u64 + 1, write.copy(alloc)?))
    }

    // What `check` answers where, besides, nothing that the plan read was written.
    fn check_stores(
        &self,
        alloc: Global,
        decls: &Decls,
        call: &Call,
        plan: &Plan,
    ) -> Result<Result<Row<(u32, ChangeSet)>, Answer>, Memory>
        requires decls { AreDecls decls.now }
        requires call { IsTrue (is_call decls.now call.now) }
        requires state { IsStateUnder decls.now self.now }
        requires plan { IsPlanAt decls.now self.now.history call.now plan.now }
        requires early { refused_early decls.now self.now.datastore call.now ≡ None }
        requires unread { IsUnread decls.now self.now.history plan.now }
        ensures { IfOk result (Checks decls.now self.now.history call.now plan.now) }
    {
        planned_stands();
        unread_plan_stands();
        plan_is_enough();
        let names = decls.names();
        let own = call.actions.as_slice();
        let made = made_of(alloc, names, own, plan.expansions.as_slice())?;
        self.datastore
            .change_sets(alloc, decls, call, made_or_own(&made, own))
    }

    /// Commits a call by its plan, and returns the number of its entry; or answers what is broken in the
    /// data with it. It asks that the call is new, that the plan is one that a snapshot of this state
    /// answered and still stands, and that nothing clashes. That is so of a new call that passes `check`, and
    /// of one that passed it before calls were committed that fit it. No service is expanded, and the data is
    /// looked at only where a call was committed since the plan's front. After a refusal, or where memory
    /// runs out, the state is as it was.
    pub fn commit(
        &mut self,
        alloc: Global,
        decls: &Decls,
        call: Call,
        plan: &Plan,
    ) -> Result<Result<u64, Answer>, Memory>
        requires decls { AreDecls decls.now }
        requires call { IsTrue (is_call decls.now call) }
        requires state { IsStateUnder decls.now self.old }
        requires ready { CanCommit decls.now self.old.history call plan.now }
        ensures { CommitsCall decls.now self.old call result self.new }
    {
        match self.data_with(alloc, decls, &call, plan)? {
            Ok(next) => self.commit_data(alloc, decls, call, plan, next),
            Err(answer) => Ok(Err(answer)),
        }
    }

    // Commits a call as `commit` does, where this is the data with the call.
    fn commit_data(
        &mut self,
        alloc: Global,
        decls: &Decls,
        call: Call,
        plan: &Plan,
        next: Tree,
    ) -> Result<Result<u64, Answer>, Memory>
        requires decls { AreDecls decls.now }
        requires call { IsTrue (is_call decls.now call) }
        requires state { IsStateUnder decls.now self.old }
        requires ready { CanCommit decls.now self.old.history call plan.now }
        requires behind { IsDataAfter decls.now self.old.datastore call (Ok next) }
        ensures { CommitsCall decls.now self.old call result self.new }
    {
        plan_is_enough();
        let names = decls.names();
        let own = call.actions.as_slice();
        let made = made_of(alloc, names, own, plan.expansions.as_slice())?;
        let row = writes(alloc, decls, &self.datastore, &call, plan, &next)?;
        self.commit_made(alloc, decls, call, made, row, next)
    }

    // Commits a call as `commit` does, where these actions were made of its own ones and it writes this.
    fn commit_made(
        &mut self,
        alloc: Global,
        decls: &Decls,
        call: Call,
        made: Option<Row<Action>>,
        row: Row<Write>,
        next: Tree,
    ) -> Result<Result<u64, Answer>, Memory>
        requires decls { AreDecls decls.now }
        requires call { IsTrue (is_call decls.now call) }
        requires state { IsStateUnder decls.now self.old }
        requires new { IsNew self.old.history call }
        requires behind { IsDataAfter decls.now self.old.datastore call (Ok next) }
        requires actions { expanded_call decls.now self.old.datastore call ≡ Ok (unwrap_or made call.actions) }
        requires apart { clash_of decls.now self.old.datastore call ≡ None }
        requires row { AreWritesOf self.old.datastore call row }
        ensures { CommitsCall decls.now self.old call result self.new }
    {
        let count = self.history.len();
        match self.enter(alloc, decls, call, made, row, next) {
            Ok(()) => Ok(Ok(self.history.len() as u64)),
            Err(Memory) => {
                self.forget(alloc, count);
                Err(Memory)
            }
        }
    }

    // Enters a call with its writes, and does it.
    fn enter(
        &mut self,
        alloc: Global,
        decls: &Decls,
        call: Call,
        made: Option<Row<Action>>,
        row: Row<Write>,
        next: Tree,
    ) -> Result<(), Memory>
        requires decls { AreDecls decls.now }
        requires call { IsTrue (is_call decls.now call) }
        requires kept { IsStateOf decls.now self.old.datastore }
        requires count { length self.old.writes ≡ length self.old.history }
        requires new { IsNew self.old.history call }
        requires behind { IsDataAfter decls.now self.old.datastore call (Ok next) }
        requires actions { expanded_call decls.now self.old.datastore call ≡ Ok (unwrap_or made call.actions) }
        requires apart { clash_of decls.now self.old.datastore call ≡ None }
        ensures { Enters decls.now self.old call row result self.new }
    {
        let place = self.history.len();
        self.history.push(alloc, call)?;
        self.writes.push(row)?;
        let call = &self.history.as_slice()[place];
        let actions = made_or_own(&made, call.actions.as_slice());
        self.datastore.perform(alloc, decls, call, actions, next)
    }

    // Keeps the first so many entries.
    fn forget(&mut self, alloc: Global, count: usize)
        ensures { self.new ≡ record self.old {
          history = take count self.old.history;
          writes = take count self.old.writes;
        } }
    {
        self.history.truncate(count);
        let mut rows = mem::replace(&mut self.writes, Row::new(alloc)).into_vec();
        rows.truncate(count);
        self.writes = Row::from_vec(rows);
    }
}
