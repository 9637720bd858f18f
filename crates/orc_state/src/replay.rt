//! Calls that are served one at a time: each is answered without a change, or planned on the present
//! state and committed by that plan.
ghost use Rattle.std.specs.Prelude.{◌≡◌, Ok, IfOk, IsTrue, MatchOption, Some, length, slice_get};
ghost use Rattle.orc_call.specs.declared.call.Call.{Call};
ghost use Rattle.orc_decls.specs.Calls.{is_call};
ghost use Rattle.orc_decls.specs.Declarations.{AreDecls};
ghost use Rattle.orc_datastore.specs.Legal.{AnswersAtOnce, IsDue, IsNew, IsSame};
ghost use Rattle.orc_datastore.specs.Next.{IsDataAfter};
ghost use Rattle.orc_datastore.specs.Plans.{planned};
ghost use Rattle.orc_decls.specs.declared.declarations.Decls.{Decls};
ghost use Rattle.orc_state.specs.Checks.{CanCommit};
ghost use Rattle.orc_state.specs.Commits.{Replays};
ghost use Rattle.orc_state.specs.States.{IsStateUnder};
ghost use Rattle.orc_state.specs.inside.Entering.{ReplaysBy};

use crate::State;
use crate::laws::{passed_can_commit, plan_is_at_front};
use orc_call::{Answer, Call};
use orc_datastore::Plan;
use orc_decls::Decls;
use orc_plans::plan_refuses_first;
use orc_text::Memory;
use std::alloc::Global;

impl State {
    /// The place of the call with this one's caller and number, one below its entry's number. It takes
    /// memory for a copy of the caller's name.
    pub fn place_of(&self, alloc: Global, call: &Call) -> Result<Option<usize>, Memory>
        ensures { IfOk result (λ found. MatchOption found (IsNew self.now.history call.now)
            (λ place. (entry : Call) × (slice_get self.now.history place ≡ Some entry) × IsSame entry call.now)) }
    {
        self.history.place_of(alloc, call)
    }

    /// The answer to a call whose caller and number the history has: that it is committed where the
    /// actions are equal, else that the number is taken.
    pub fn repeated(&self, alloc: Global, call: &Call) -> Result<Option<Answer>, Memory>
        ensures { IfOk result (λ found. MatchOption found (IsNew self.now.history call.now)
            (λ answer. (decls : Decls) → AnswersAtOnce decls self.now.history call.now answer)) }
    {
        match self.place_of(alloc, call)? {
            Some(place) => Ok(Some(answer_at(self.history(), place, call))),
            None => Ok(None),
        }
    }

    /// Plans a call on the present state, checks it and commits it by that plan, as each call of a journal
    /// that is opened; or answers why it isn't committed: it was before, its number is taken, or it is
    /// refused. Then, and where memory runs out, the state stays as it was.
    pub fn replay(
        &mut self,
        alloc: Global,
        decls: &Decls,
        call: &Call,
    ) -> Result<Result<Plan, Answer>, Memory>
        requires decls { AreDecls decls.now }
        requires call { IsTrue (is_call decls.now call.now) }
        requires state { IsStateUnder decls.now self.old }
        ensures { Replays decls.now self.old call.now result self.new }
    {
        match self.repeated(alloc, call)? {
            Some(answer) => Ok(Err(answer)),
            None => self.replay_new(alloc, decls, call),
        }
    }

    // Plans, checks and commits a call that is new, or answers why it isn't committed.
    fn replay_new(
        &mut self,
        alloc: Global,
        decls: &Decls,
        call: &Call,
    ) -> Result<Result<Plan, Answer>, Memory>
        requires decls { AreDecls decls.now }
        requires call { IsTrue (is_call decls.now call.now) }
        requires state { IsStateUnder decls.now self.old }
        requires new { IsNew self.old.history call.now }
        ensures { Replays decls.now self.old call.now result self.new }
    {
        plan_refuses_first();
        match self.planned(alloc, decls, call)? {
            Ok(plan) => self.replay_by(alloc, decls, call, plan),
            Err(answer) => Ok(Err(answer)),
        }
    }

    // The plan of a call on the present state, or why it has none.
    fn planned(
        &self,
        alloc: Global,
        decls: &Decls,
        call: &Call,
    ) -> Result<Result<Plan, Answer>, Memory>
        requires decls { AreDecls decls.now }
        requires call { IsTrue (is_call decls.now call.now) }
        requires state { IsStateUnder decls.now self.now }
        ensures { IfOk result (λ found.
            found ≡ planned decls.now self.now.datastore (length self.now.history) call.now) }
    {
        self.snapshot(alloc)?.plan(alloc, decls, call)
    }

    // Replays a new call by this plan, and hands it on.
    fn replay_by(
        &mut self,
        alloc: Global,
        decls: &Decls,
        call: &Call,
        plan: Plan,
    ) -> Result<Result<Plan, Answer>, Memory>
        requires decls { AreDecls decls.now }
        requires call { IsTrue (is_call decls.now call.now) }
        requires state { IsStateUnder decls.now self.old }
        requires new { IsNew self.old.history call.now }
        requires planned { planned decls.now self.old.datastore (length self.old.history) call.now ≡ Ok plan }
        ensures { Replays decls.now self.old call.now result self.new }
    {
        match self.replay_planned(alloc, decls, call, &plan) {
            Ok(None) => Ok(Ok(plan)),
            Ok(Some(answer)) => Ok(Err(answer)),
            Err(Memory) => Err(Memory),
        }
    }

    // Checks a new call by its plan and commits it.
    fn replay_planned(
        &mut self,
        alloc: Global,
        decls: &Decls,
        call: &Call,
        plan: &Plan,
    ) -> Result<Option<Answer>, Memory>
        requires decls { AreDecls decls.now }
        requires call { IsTrue (is_call decls.now call.now) }
        requires state { IsStateUnder decls.now self.old }
        requires new { IsNew self.old.history call.now }
        requires planned { planned decls.now self.old.datastore (length self.old.history) call.now ≡ Ok plan.now }
        ensures { ReplaysBy decls.now self.old call.now plan.now result self.new }
    {
        plan_is_at_front();
        passed_can_commit();
        plan_refuses_first();
        match self.check(alloc, decls, call, plan)? {
            Ok(_) => self.replay_checked(alloc, decls, call, plan),
            Err(answer) => Ok(Some(answer)),
        }
    }

    // Commits a new call that passed the check.
    fn replay_checked(
        &mut self,
        alloc: Global,
        decls: &Decls,
        call: &Call,
        plan: &Plan,
    ) -> Result<Option<Answer>, Memory>
        requires decls { AreDecls decls.now }
        requires call { IsTrue (is_call decls.now call.now) }
        requires state { IsStateUnder decls.now self.old }
        requires ready { CanCommit decls.now self.old.history call.now plan.now }
        requires due { IsDue decls.now self.old.history call.now }
        requires planned { planned decls.now self.old.datastore (length self.old.history) call.now ≡ Ok plan.now }
        ensures { ReplaysBy decls.now self.old call.now plan.now result self.new }
    {
        match self.commit(alloc, decls, call.copy(alloc)?, plan)? {
            Ok(_) => Ok(None),
            Err(answer) => Ok(Some(answer)),
        }
    }
}

// The answer to a call whose caller and number the call at a place of the history has.
fn answer_at(history: &[Call], place: usize, call: &Call) -> Answer
    requires { (entry : Call) × (slice_get history.now place ≡ Some entry) × IsSame entry call.now }
    ensures { (decls : Decls) → AnswersAtOnce decls history.now call.now result }
{
    let entry = place as u64 + 1;
    if history[place] == *call {
        return Answer::Committed(entry);
    }
    Answer::Reused(entry)
}
