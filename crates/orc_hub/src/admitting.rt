//! Admission: the first waiting call that fits gets its Intent and its workers, or an answer.
ghost use Rattle.std.specs.Prelude.{◌≡◌, ◌<◌, ◌-◌, ◌⊎◌, false, take, All, IfErr, IfOk, IsTrue, MatchOption, None, OnOk, Some, length, slice_get};
ghost use Rattle.orc_decls.specs.Declarations.{AreDecls};
ghost use Rattle.orc_journal.specs.Entries.{IsEntry};
ghost use Rattle.orc_journal.specs.Opened.{IsReady};
ghost use Rattle.orc_rules.specs.Admissions.{IsTurnedAway, Passes, transaction_begun, intent_entry, started, without};
ghost use Rattle.orc_rules.specs.Fits.{first_stale};
ghost use Rattle.orc_rules.specs.Standing.{IsWaiting};
ghost use Rattle.orc_state.specs.States.{IsStateUnder};
ghost use Rattle.orc_hub.specs.Admits.{Admits, AdmitsOne, HasFields, TurnsAway, WritesIntent, WritesIntentOf, waiting_name};
ghost use Rattle.orc_hub_parts.specs.Askers.{IsOpenAt, named_at};
ghost use Rattle.orc_hub.specs.Hubs.{record_of};
ghost use Rattle.orc_hub.specs.Keeps.{IsSoundHub, KeepsHub};

use crate::hub::{Admit, Hub};
use crate::kept::each_admission_keeps;
use crate::writing::twice;
use orc_call::Answer;
use orc_disk::Disk;
use orc_hub_parts::first_stale;
use orc_journal::{AppendFault, Entry};
use orc_plans::planned_stands;
use orc_rules::{Duty, Phase, Transaction, Waiting};
use orc_text::{Memory, Row};
use orc_tree::ChangeSet;
use orc_worker::Worker;
use std::alloc::Global;
use std::mem;

// Begins workers on the devices of these sets.
fn start_all(duties: &mut [Duty], t: u64, mut sets: Vec<(u32, ChangeSet)>)
    requires { All (λ one. one.0 < length duties.old) sets.items }
    ensures { duties.new ≡ started t sets.items duties.old }
{
    while !sets.is_empty() {
        let (device, set) = sets.remove(0);
        duties[device as usize] = Duty::Works(Worker::new(t, set));
    }
}

// The Intent of a waiting call.
fn intent(alloc: Global, it: &Waiting) -> Result<Entry, Memory>
    ensures { IfOk result (λ entry. entry ≡ intent_entry it.now) }
{
    let mut devices = Row::new(alloc);
    for device in it.plan.held.devices.as_slice() {
        devices.push(*device)?;
    }
    Ok(Entry::Intent {
        t: it.t,
        call: it.call.copy(alloc)?,
        devices,
    })
}

// The waiting call as a transaction, after so many calls.
fn transaction_begun(it: Waiting, since: usize) -> Transaction
    ensures { result ≡ transaction_begun since it }
{
    Transaction {
        t: it.t,
        call: it.call,
        plan: it.plan,
        asker: it.asker,
        since,
        phase: Phase::Preparing,
    }
}

// The transactions but the last one.
fn without_last(alloc: Global, active: &mut Row<Transaction>)
    ensures { active.new ≡ take (length active.old - 1) active.old }
{
    let mut items = mem::replace(active, Row::new(alloc)).into_vec();
    items.pop();
    *active = Row::from_vec(items);
}

impl<D: Disk> Hub<D> {
    /// Admits the first waiting call that fits with each active one and each earlier waiting one, or
    /// answers it. It asks that the hub is up and that no reconciliation is begun and unfinished.
    pub fn admit(&mut self, alloc: Global) -> Admit
        requires hub { IsSoundHub D.disk self.old }
        requires up { self.old.down ≡ false }
        requires mended { self.old.mends ≡ None }
        ensures admits { Admits D.disk self.old result self.new }
        ensures kept { KeepsHub D.disk self.old self.new }
    {
        each_admission_keeps::<D>();
        self.admit_first(alloc)
    }

    // Admits the first that fits, or answers it.
    fn admit_first(&mut self, alloc: Global) -> Admit
        requires hub { IsSoundHub D.disk self.old }
        requires up { self.old.down ≡ false }
        ensures { Admits D.disk self.old result self.new }
    {
        match self.waiting.first_fit(self.active.as_slice()) {
            None => Admit::Nothing,
            Some(place) => self.admit_at(alloc, place),
        }
    }

    // Admits the waiting call at this place, or answers it.
    fn admit_at(&mut self, alloc: Global, place: usize) -> Admit
        requires hub { IsSoundHub D.disk self.old }
        requires up { self.old.down ≡ false }
        requires within { place < length self.old.waiting }
        ensures { MatchOption (slice_get self.old.waiting place) ⊥
            (λ it. AdmitsOne D.disk (record self.old { waiting = without place self.old.waiting }) it result self.new) }
    {
        planned_stands();
        let it = self.waiting.take(alloc, place);
        self.admit_one(alloc, it)
    }

    // Admits a call that waits no more, or answers it.
    fn admit_one(&mut self, alloc: Global, it: Waiting) -> Admit
        requires decls { AreDecls self.old.decls }
        requires state { IsStateUnder self.old.decls self.old.state }
        requires waits { IsWaiting self.old.decls self.old.state.history it }
        requires ready { IsReady D.disk self.old.log.journal }
        requires fields { HasFields it }
        requires asks { IsOpenAt self.old.askers it.asker }
        requires name { named_at self.old.askers it.asker ≡ waiting_name it }
        requires duties { length self.old.duties ≡ length self.old.decls.names }
        ensures { AdmitsOne D.disk self.old it result self.new }
    {
        let asker = it.asker;
        match self.looked_at(alloc, &it) {
            Err(answer) => self.turn_away(alloc, asker, answer),
            Ok(sets) => self.begin_work(alloc, it, sets),
        }
    }

    // What a call changes on each of its devices, or why it isn't admitted.
    fn looked_at(&self, alloc: Global, it: &Waiting) -> Result<Row<(u32, ChangeSet)>, Answer>
        requires decls { AreDecls self.now.decls }
        requires state { IsStateUnder self.now.decls self.now.state }
        requires waits { IsWaiting self.now.decls self.now.state.history it.now }
        ensures passes { IfOk result (Passes self.now.decls self.now.state.history it.now.call it.now.plan) }
        ensures known { OnOk result (first_stale it.now.plan.held.devices self.now.stale ≡ None) }
        ensures refused { IfErr result
            (IsTurnedAway self.now.decls self.now.state.history (record_of self.now) it.now) }
    {
        match self.state.check(alloc, &self.decls, &it.call, &it.plan) {
            Err(Memory) => Err(Answer::Memory),
            Ok(Err(answer)) => Err(answer),
            Ok(Ok(sets)) => {
                let devices = it.plan.held.devices.as_slice();
                match first_stale(devices, self.stale.as_slice()) {
                    Some(answer) => Err(answer),
                    None => Ok(sets),
                }
            }
        }
    }

    // Answers the one who asked at this place, who isn't admitted.
    fn turn_away(&mut self, alloc: Global, asker: usize, answer: Answer) -> Admit
        requires { IsOpenAt self.old.askers asker }
        ensures { TurnsAway self.old asker (named_at self.old.askers asker) answer result self.new
            ⊎ TurnsAway self.old asker (named_at self.old.askers asker) Answer.Memory result self.new }
    {
        let (answer, kept) = twice(alloc, answer);
        let (caller, number) = self.askers.answer(alloc, asker, kept);
        Admit::Answered {
            caller,
            number,
            answer,
        }
    }

    // Appends the Intent of a call that was waiting, and begins its workers.
    fn begin_work(&mut self, alloc: Global, it: Waiting, sets: Row<(u32, ChangeSet)>) -> Admit
        requires ready { IsReady D.disk self.old.log.journal }
        requires asks { IsOpenAt self.old.askers it.asker }
        requires name { named_at self.old.askers it.asker ≡ waiting_name it }
        requires fields { HasFields it }
        requires within { All (λ one. one.0 < length self.old.duties) sets }
        ensures { WritesIntent D.disk self.old it sets result self.new }
    {
        let t = it.t;
        let asker = it.asker;
        match intent(alloc, &it) {
            Ok(entry) => {
                let since = self.state.history().len();
                match self.active.push(transaction_begun(it, since)) {
                    Ok(()) => self.write_intent(alloc, t, asker, &entry, sets),
                    Err(Memory) => self.turn_away(alloc, asker, Answer::Memory),
                }
            }
            Err(Memory) => self.turn_away(alloc, asker, Answer::Memory),
        }
    }

    // Appends the Intent of the last transaction, and begins its workers.
    fn write_intent(
        &mut self,
        alloc: Global,
        t: u64,
        asker: usize,
        entry: &Entry,
        sets: Row<(u32, ChangeSet)>,
    ) -> Admit
        requires ready { IsReady D.disk self.old.log.journal }
        requires asks { IsOpenAt self.old.askers asker }
        requires entry { IsEntry entry.now }
        requires within { All (λ one. one.0 < length self.old.duties) sets }
        ensures { WritesIntentOf D.disk self.old t asker (named_at self.old.askers asker) entry.now sets
            result self.new }
    {
        match self.write(alloc, entry) {
            Ok(()) => {
                let mut duties = mem::replace(&mut self.duties, Row::new(alloc)).into_vec();
                start_all(duties.as_mut_slice(), t, sets.into_vec());
                self.duties = Row::from_vec(duties);
                Admit::Admitted(t)
            }
            Err(AppendFault::Memory) => {
                without_last(alloc, &mut self.active);
                self.turn_away(alloc, asker, Answer::Memory)
            }
            Err(AppendFault::DiskFault) => {
                let (caller, number) = self.askers.answer(alloc, asker, Answer::JournalFault);
                Admit::Answered {
                    caller,
                    number,
                    answer: Answer::JournalFault,
                }
            }
            Err(AppendFault::Full { len }) => Admit::Full { len },
        }
    }
}
