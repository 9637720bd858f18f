//! Submission: a call is answered at once, or waits.
ghost use Rattle.std.specs.Prelude.{◌≡◌, ◌⊎◌, ◌≤◌, ℕ, List, false, Err, IfOk, IsTrue, MatchOption, MatchResult, None, Some, length, slice_get, take};
ghost use Rattle.orc_call.specs.declared.call.Call.{Call};
ghost use Rattle.orc_datastore.specs.Legal.{IsNew, IsSame, state_of};
ghost use Rattle.orc_datastore.specs.Plans.{planned};
ghost use Rattle.orc_decls.specs.Calls.{is_call};
ghost use Rattle.orc_journal.specs.declared.entry.Entry.{Entry};
ghost use Rattle.orc_rules.specs.Asked.{open_of, slot_of};
ghost use Rattle.orc_rules.specs.Worlds.{IsNextNumber};
ghost use Rattle.orc_hub.specs.Hubs.{record_of};
ghost use Rattle.orc_hub.specs.Keeps.{IsHub, IsSoundHub, KeepsHub};
ghost use Rattle.orc_hub.specs.Submits.{AnswersAgain, AnswersNow, AnswersWith, Queues, Submits, Waits};
ghost use Rattle.orc_hub.specs.declared.hub.Submitted.TheVariants as submitted;
ghost use Rattle.orc_hub_parts.specs.Numbered.{IsLeastFree};

use crate::hub::{Hub, Submitted};
use crate::kept::each_submission_keeps;
use crate::writing::twice;
use orc_call::{Answer, Call};
use orc_datastore::Plan;
use orc_disk::Disk;
use orc_rules::Waiting;
use orc_text::{Memory, Text};
use std::alloc::Global;

// The answer to a call whose caller and number the call at a place of the history has.
fn answer_at(history: &[Call], place: usize, call: &Call) -> Answer
    requires { (entry : Call) × (slice_get history.now place ≡ Some entry) × IsSame entry call.now }
    ensures { AnswersAgain history.now call.now result }
{
    let entry = place as u64 + 1;
    if history[place] == *call {
        return Answer::Committed(entry);
    }
    Answer::Reused(entry)
}

impl<D: Disk> Hub<D> {
    /// Submits a call that was planned on a snapshot of this front. It is answered at once: Down; Busy where
    /// its caller has an open call; Committed or Reused where an entry has its caller and number; what
    /// refuses its plan; or Memory. Else it waits. The answer is kept as the last of its caller and number.
    pub fn submit(
        &mut self,
        alloc: Global,
        call: Call,
        front: u64,
        plan: Result<Plan, Answer>,
    ) -> Submitted
        requires hub { IsSoundHub D.disk self.old }
        requires call { IsTrue (is_call self.old.decls call) }
        requires front { self.old.down ≡ false → front ≤ length self.old.state.history }
        requires plan { self.old.down ≡ false → (plan ≡ Err Answer.Memory)
            ⊎ (plan ≡ planned self.old.decls (state_of self.old.decls (take front self.old.state.history)) front call) }
        ensures submits { Submits self.old call front plan result self.new }
        ensures number { (entries : List Entry) (t : ℕ) → IsHub D.disk self.old entries → result ≡ submitted.Queued t
            → IsNextNumber (record_of self.old) entries t }
        ensures kept { KeepsHub D.disk self.old self.new }
    {
        each_submission_keeps::<D>();
        self.submit_call(alloc, call, front, plan)
    }

    // Submits a call.
    fn submit_call(
        &mut self,
        alloc: Global,
        call: Call,
        front: u64,
        plan: Result<Plan, Answer>,
    ) -> Submitted
        requires plan { self.old.down ≡ false → (plan ≡ Err Answer.Memory)
            ⊎ (plan ≡ planned self.old.decls (state_of self.old.decls (take front self.old.state.history)) front call) }
        ensures { Submits self.old call front plan result self.new }
    {
        if self.down {
            return self.answer_with(alloc, &call, Answer::Down, Answer::Down);
        }
        match self.askers.open_of(&call.caller) {
            Some(number) => self.answer_busy(alloc, &call, number),
            None => self.submit_closed(alloc, call, front, plan),
        }
    }

    // Answers a call whose caller's open call has this number.
    fn answer_busy(&mut self, alloc: Global, call: &Call, number: u64) -> Submitted
        ensures { AnswersWith self.old call.now (Answer.Busy number) result self.new }
    {
        self.answer_with(alloc, call, Answer::Busy(number), Answer::Busy(number))
    }

    // Submits a call where the hub is up and its caller has no open call.
    fn submit_closed(
        &mut self,
        alloc: Global,
        call: Call,
        front: u64,
        plan: Result<Plan, Answer>,
    ) -> Submitted
        requires up { self.old.down ≡ false }
        requires closed { open_of self.old.askers call.caller ≡ None }
        requires plan { (plan ≡ Err Answer.Memory)
            ⊎ (plan ≡ planned self.old.decls (state_of self.old.decls (take front self.old.state.history)) front call) }
        ensures { Submits self.old call front plan result self.new }
    {
        let _front = front;
        match self.answer_again(alloc, &call) {
            Ok(Some(answer)) => self.answer_now(alloc, &call, answer),
            Ok(None) => self.submit_free(alloc, call, plan),
            Err(Memory) => self.answer_now(alloc, &call, Answer::Memory),
        }
    }

    // What a call is answered whose caller and number an entry has.
    fn answer_again(&self, alloc: Global, call: &Call) -> Result<Option<Answer>, Memory>
        ensures { IfOk result (λ found. MatchOption found (IsNew self.now.state.history call.now)
            (AnswersAgain self.now.state.history call.now)) }
    {
        match self.state.place_of(alloc, call)? {
            Some(place) => Ok(Some(answer_at(self.state.history(), place, call))),
            None => Ok(None),
        }
    }

    // Submits a call that is answered by no more than its plan.
    fn submit_free(&mut self, alloc: Global, call: Call, plan: Result<Plan, Answer>) -> Submitted
        requires closed { open_of self.old.askers call.caller ≡ None }
        ensures { MatchResult plan (λ it. Queues self.old call it result self.new)
            (λ said. AnswersNow self.old call said result self.new) }
    {
        match plan {
            Ok(plan) => self.queue(alloc, call, plan),
            Err(answer) => self.answer_now(alloc, &call, answer),
        }
    }

    // Answers a call at once, and keeps the answer.
    fn answer_now(&mut self, alloc: Global, call: &Call, answer: Answer) -> Submitted
        ensures { AnswersNow self.old call.now answer result self.new }
    {
        let (answer, kept) = twice(alloc, answer);
        self.answer_with(alloc, call, answer, kept)
    }

    // Answers a call at once, and keeps the same answer.
    fn answer_with(&mut self, alloc: Global, call: &Call, answer: Answer, kept: Answer) -> Submitted
        requires { kept ≡ answer }
        ensures { AnswersWith self.old call.now answer result self.new }
    {
        match self.askers.put(alloc, call, kept) {
            Ok(_) => Submitted::Answered(answer),
            Err(Memory) => Submitted::Answered(Answer::Memory),
        }
    }

    // Lets a call wait by this plan, or answers that memory ran out.
    fn queue(&mut self, alloc: Global, call: Call, plan: Plan) -> Submitted
        requires { open_of self.old.askers call.caller ≡ None }
        ensures { Queues self.old call plan result self.new }
    {
        match call.caller.copy(alloc) {
            Ok(name) => self.queue_as(alloc, call, plan, name),
            Err(Memory) => self.answer_now(alloc, &call, Answer::Memory),
        }
    }

    // Lets a call wait by this plan, where this is its caller's name once more.
    fn queue_as(&mut self, alloc: Global, call: Call, plan: Plan, name: Text) -> Submitted
        requires closed { open_of self.old.askers call.caller ≡ None }
        requires name { name ≡ call.caller }
        ensures { Queues self.old call plan result self.new }
    {
        match self.askers.put(alloc, &call, Answer::Memory) {
            Ok((asker, last)) => self.number(alloc, call, plan, asker, name, last),
            Err(Memory) => Submitted::Answered(Answer::Memory),
        }
    }

    // Lets a call wait whose slot is at this place, answered that memory ran out, where this was its
    // last answer before.
    fn number(
        &mut self,
        alloc: Global,
        call: Call,
        plan: Plan,
        asker: usize,
        name: Text,
        last: Option<Answer>,
    ) -> Submitted
        requires name { name ≡ call.caller }
        requires closed { open_of self.old.askers call.caller ≡ None }
        requires slot { slot_of self.old.askers call ≡ Some asker }
        ensures { Waits self.old call plan asker last result self.new }
    {
        match self.numbers.least() {
            Some(t) => self.wait(
                alloc,
                Waiting {
                    t,
                    call,
                    plan,
                    asker,
                },
                name,
                last,
            ),
            None => Submitted::Answered(Answer::Memory),
        }
    }

    // Lets a call wait, whose number is the least that is free.
    fn wait(&mut self, alloc: Global, it: Waiting, name: Text, last: Option<Answer>) -> Submitted
        requires name { name ≡ it.call.caller }
        requires closed { open_of self.old.askers it.call.caller ≡ None }
        requires slot { slot_of self.old.askers it.call ≡ Some it.asker }
        requires number { IsLeastFree self.old.numbers it.t }
        ensures { Waits self.old it.call it.plan it.asker last result self.new }
    {
        let t = it.t;
        let asker = it.asker;
        match self.waiting.push(it) {
            Ok(()) => {
                self.numbers.give(t);
                self.askers.open(alloc, asker, name, last);
                Submitted::Queued(t)
            }
            Err(Memory) => Submitted::Answered(Answer::Memory),
        }
    }
}
