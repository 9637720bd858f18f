//! Decisions: a transaction whose devices were all heard is committed or given up, and one whose work has
//! ended is settled.
ghost use Rattle.std.specs.Prelude.{◌≡◌, ◌⊎◌, false, true, MatchOption, None, Some, length, slice_get};
ghost use Rattle.orc_call.specs.Answers.{HoldsText};
ghost use Rattle.orc_journal.specs.Opened.{IsReady};
ghost use Rattle.orc_rules.specs.Asked.{answered_at};
ghost use Rattle.orc_rules.specs.Due.{is_decision_due, is_entry_due, least_due};
ghost use Rattle.orc_rules.specs.Hubs.{answered, hub_told};
ghost use Rattle.orc_rules.specs.Verdicts.{verdict};
ghost use Rattle.orc_state.specs.Commits.{CommitsCall};
ghost use Rattle.orc_hub_parts.specs.Askers.{IsOpenAt, named_at};
ghost use Rattle.orc_hub.specs.Decisions.{answered_to, CommitsOne, Decides, DecidesOn, GivesUp, WritesAbort, WritesDecide, WritesSettled};
ghost use Rattle.orc_hub.specs.Hubs.{record_of, with_record};
ghost use Rattle.orc_hub.specs.Keeps.{IsHub, IsSoundHub, KeepsHub};

use crate::hub::{Decided, Hub};
use crate::kept::each_decision_keeps;
use orc_call::Answer;
use orc_disk::Disk;
use orc_hub_parts::{
    come_all, is_settling, least_due, leave, place_due, retire_all, tell_all, verdict,
};
use orc_journal::{AppendFault, Entry};
use orc_plans::{plan_stands, unclashed_stands};
use orc_rules::Phase;
use orc_text::{Memory, Row};
use std::alloc::Global;
use std::mem;

impl<D: Disk> Hub<D> {
    /// Decides or settles the transaction of the least number for which one of these is due. Whatever it
    /// answers, it takes memory only before it appends.
    pub fn decide(&mut self, alloc: Global) -> Decided
        requires { IsSoundHub D.disk self.old }
        ensures decides { Decides D.disk self.old result self.new }
        ensures kept { KeepsHub D.disk self.old self.new }
    {
        each_decision_keeps::<D>();
        self.decide_next(alloc)
    }

    // Decides or settles what is due next.
    fn decide_next(&mut self, alloc: Global) -> Decided
        requires { IsSoundHub D.disk self.old }
        ensures { Decides D.disk self.old result self.new }
    {
        if self.down {
            return Decided::Down;
        }
        match least_due(self.duties.as_slice(), self.active.as_slice()) {
            None => Decided::Nothing,
            Some(t) => self.decide_on(alloc, t),
        }
    }

    // Decides or settles a transaction of this number.
    fn decide_on(&mut self, alloc: Global, t: u64) -> Decided
        requires hub { IsSoundHub D.disk self.old }
        requires up { self.old.down ≡ false }
        requires due { least_due self.old.duties self.old.active ≡ Some t }
        ensures { Decides D.disk self.old result self.new }
    {
        match place_due(self.duties.as_slice(), self.active.as_slice(), t) {
            Some(place) => self.decide_at(alloc, place),
            None => unreachable!(),
        }
    }

    // Decides or settles the transaction at this place, for which one of these is due.
    fn decide_at(&mut self, alloc: Global, place: usize) -> Decided
        requires hub { IsSoundHub D.disk self.old }
        requires up { self.old.down ≡ false }
        requires due { MatchOption (slice_get self.old.active place) ⊥ (λ it. is_entry_due self.old.duties it ≡ true) }
        ensures { MatchOption (slice_get self.old.active place) ⊥
            (λ it. DecidesOn D.disk self.old it result self.new) }
    {
        let it = &self.active.as_slice()[place];
        let t = it.t;
        let asker = it.asker;
        if is_settling(it.phase) {
            return self.settle(alloc, t);
        }
        match verdict(self.duties.as_slice(), t, it.plan.held.devices.as_slice()) {
            Some(answer) => self.abort(alloc, t, asker, answer),
            None => self.commit(alloc, place),
        }
    }

    // Commits the transaction at this place, whose devices are all prepared, or gives it up.
    fn commit(&mut self, alloc: Global, place: usize) -> Decided
        requires hub { IsSoundHub D.disk self.old }
        requires up { self.old.down ≡ false }
        requires preparing { MatchOption (slice_get self.old.active place) ⊥
            (λ it. is_decision_due self.old.duties it ≡ true) }
        requires prepared { MatchOption (slice_get self.old.active place) ⊥
            (λ it. verdict self.old.duties it.t it.plan.held.devices ≡ None) }
        ensures { MatchOption (slice_get self.old.active place) ⊥
            (λ it. CommitsOne D.disk self.old it result self.new ⊎ GivesUp D.disk self.old it result self.new) }
    {
        let it = &self.active.as_slice()[place];
        let t = it.t;
        let asker = it.asker;
        match self.enter(alloc, place) {
            Ok(Ok(number)) => self.write_decide(alloc, t, asker, number),
            Ok(Err(answer)) => self.abort(alloc, t, asker, answer),
            Err(Memory) => self.abort(alloc, t, asker, Answer::Memory),
        }
    }

    // Commits the call of the transaction at this place to the state, and gives the number of its entry; or
    // answers what is broken in the data with it. Then, and if memory runs out, the state is as it was.
    fn enter(&mut self, alloc: Global, place: usize) -> Result<Result<u64, Answer>, Memory>
        requires hub { IsSoundHub D.disk self.old }
        requires up { self.old.down ≡ false }
        requires preparing { MatchOption (slice_get self.old.active place) ⊥
            (λ it. is_decision_due self.old.duties it ≡ true) }
        ensures commits { MatchOption (slice_get self.old.active place) ⊥
            (λ it. CommitsCall self.old.decls self.old.state it.call result self.new.state) }
        ensures rest { self.new ≡ record self.old { state = self.new.state } }
    {
        plan_stands();
        unclashed_stands();
        let it = &self.active.as_slice()[place];
        let call = it.call.copy(alloc)?;
        self.state.commit(alloc, &self.decls, call, &it.plan)
    }

    // Appends the Decide of a transaction whose call is the entry of this number, the last one.
    fn write_decide(&mut self, alloc: Global, t: u64, asker: usize, n: u64) -> Decided
        requires ready { IsReady D.disk self.old.log.journal }
        requires asks { IsOpenAt self.old.askers asker }
        ensures { WritesDecide D.disk self.old t asker (named_at self.old.askers asker) n result self.new }
    {
        match self.write(alloc, &Entry::Decide { t }) {
            Ok(()) => {
                self.tell(alloc, t, Phase::Decided, true);
                self.answered(alloc, asker, Answer::Committed(n), Answer::Committed(n))
            }
            Err(AppendFault::DiskFault) => self.fail(alloc, asker),
            Err(AppendFault::Full { len }) => Decided::Full { len },
            Err(AppendFault::Memory) => unreachable!(),
        }
    }

    // Appends the Abort of a transaction whose caller is to get this answer; or that memory ran out, where a
    // copy of it takes some.
    fn abort(&mut self, alloc: Global, t: u64, asker: usize, answer: Answer) -> Decided
        requires ready { IsReady D.disk self.old.log.journal }
        requires asks { IsOpenAt self.old.askers asker }
        ensures { WritesAbort D.disk self.old t asker (named_at self.old.askers asker) answer result self.new
            ⊎ (HoldsText answer
            × WritesAbort D.disk self.old t asker (named_at self.old.askers asker) Answer.Memory result self.new) }
    {
        match answer.copy(alloc) {
            Ok(kept) => self.write_abort(alloc, t, asker, answer, kept),
            Err(Memory) => self.write_abort(alloc, t, asker, Answer::Memory, Answer::Memory),
        }
    }

    // Appends the Abort of a transaction whose caller is to get this answer, which is given twice.
    fn write_abort(
        &mut self,
        alloc: Global,
        t: u64,
        asker: usize,
        answer: Answer,
        kept: Answer,
    ) -> Decided
        requires ready { IsReady D.disk self.old.log.journal }
        requires asks { IsOpenAt self.old.askers asker }
        requires same { kept ≡ answer }
        ensures { WritesAbort D.disk self.old t asker (named_at self.old.askers asker) answer result self.new }
    {
        match self.write(alloc, &Entry::Abort { t }) {
            Ok(()) => {
                self.tell(alloc, t, Phase::Aborted, false);
                self.answered(alloc, asker, answer, kept)
            }
            Err(AppendFault::DiskFault) => self.fail(alloc, asker),
            Err(AppendFault::Full { len }) => Decided::Full { len },
            Err(AppendFault::Memory) => unreachable!(),
        }
    }

    // Answers the one who asked at this place, and keeps the answer.
    fn answered(&mut self, alloc: Global, asker: usize, answer: Answer, kept: Answer) -> Decided
        requires { IsOpenAt self.old.askers asker }
        ensures result { result ≡ answered_to (named_at self.old.askers asker) answer }
        ensures state { self.new ≡ with_record self.old (answered asker kept (record_of self.old)) }
    {
        let (caller, number) = self.askers.answer(alloc, asker, kept);
        Decided::Answered {
            caller,
            number,
            answer,
        }
    }

    // The disk failed and the hub is down, and the one who asked at this place is answered.
    fn fail(&mut self, alloc: Global, asker: usize) -> Decided
        requires { IsOpenAt self.old.askers asker }
        ensures result { result ≡ answered_to (named_at self.old.askers asker) Answer.JournalFault }
        ensures log { self.new.log ≡ self.old.log }
        ensures decls { self.new.decls ≡ self.old.decls }
        ensures down { self.new.down ≡ self.old.down }
        ensures answers { self.new.askers ≡ answered_at asker Answer.JournalFault self.old.askers }
    {
        let (caller, number) = self.askers.answer(alloc, asker, Answer::JournalFault);
        Decided::Answered {
            caller,
            number,
            answer: Answer::JournalFault,
        }
    }

    // Appends the Settled of a transaction.
    fn settle(&mut self, alloc: Global, t: u64) -> Decided
        requires { IsReady D.disk self.old.log.journal }
        ensures { WritesSettled D.disk self.old t result self.new }
    {
        match self.write(alloc, &Entry::Settled { t }) {
            Ok(()) => {
                let mut active = mem::replace(&mut self.active, Row::new(alloc)).into_vec();
                leave(&mut active, t);
                self.active = Row::from_vec(active);
                Decided::Settled(t)
            }
            Err(AppendFault::DiskFault) => Decided::Down,
            Err(AppendFault::Full { len }) => Decided::Full { len },
            Err(AppendFault::Memory) => unreachable!(),
        }
    }

    // The decision on a transaction is told to all its workers.
    fn tell(&mut self, alloc: Global, t: u64, phase: Phase, commit: bool)
        ensures { self.new ≡ with_record self.old (hub_told t phase commit (record_of self.old)) }
    {
        let mut duties = mem::replace(&mut self.duties, Row::new(alloc)).into_vec();
        let mut active = mem::replace(&mut self.active, Row::new(alloc)).into_vec();
        tell_all(duties.as_mut_slice(), t, commit);
        come_all(active.as_mut_slice(), t, phase);
        retire_all(alloc, active.as_mut_slice(), duties.as_slice());
        self.duties = Row::from_vec(duties);
        self.active = Row::from_vec(active);
    }
}
