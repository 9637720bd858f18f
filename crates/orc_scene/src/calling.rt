//! Snapshots and submissions.
ghost use Rattle.std.specs.Prelude.{◌≡◌, ◌⊎◌, ◌≤◌, ◌++◌, ◌∷◌, [], List, true, Err, IfOk, IsTrue, MatchOption, MatchResult, None, Some, is_some, length, take};
ghost use Rattle.orc_datastore.specs.Legal.{state_of};
ghost use Rattle.orc_datastore.specs.Plans.{planned};
ghost use Rattle.orc_call.specs.declared.call.Call.{Call};
ghost use Rattle.orc_datastore.specs.Snapshots.{IsSnapshotUnder};
ghost use Rattle.orc_decls.specs.Calls.{is_call};
ghost use Rattle.orc_decls.specs.Declarations.{AreDecls};
ghost use Rattle.orc_state.specs.States.{IsSnapshotAt};
ghost use Rattle.orc_print.specs.Printed.{is_answer_among};
ghost use Rattle.orc_rules.specs.declared.event.Event.TheVariants as event;
ghost use Rattle.orc_runs.specs.Scripts.{Part as part};
ghost use Rattle.orc_scene.specs.Effects.{hub_in};
ghost use Rattle.orc_scene.specs.inside.Effects.{PutsSnapshot, SaysAnswer};
ghost use Rattle.orc_scene.specs.Courses.{HasEvents, HasRoom, RowOrEnd, TurnOrEnd};
ghost use Rattle.orc_scene.specs.Snapshots.{fronts_of};
ghost use Rattle.orc_scene.specs.Stands.{HasFront, IsBetweenLines, IsSoundScene, decls_in};

use crate::laws::scene_is_carried;
use crate::scene::{Place, Scene};
use crate::stop::WorldStop;
use orc_call::{Answer, Call};
use orc_datastore::{Plan, Snapshot};
use orc_disk::{Disk, StopDisk};
use orc_hub::Submitted;
use orc_hub_laws::{snapshot_begins, submissions_are_named, submit_is_event};
use orc_print::Transcript;
use orc_rules::Event;
use orc_state::snapshot_stays_at_front;
use orc_text::{Memory, Text};

impl<D: Disk> Scene<D> {
    /// Takes room for what comes, and then a snapshot, where a hub is up.
    pub fn take_new(&mut self, caller: &Text) -> Result<(), WorldStop>
        requires sound { IsBetweenLines D.disk self.old }
        requires up { is_some (hub_in self.old.place) ≡ true }
        ensures turn { TurnOrEnd D.disk (part.Snapshot caller.now) self.old result self.new [] [] }
        ensures taken { MatchResult result (λ done. is_some (fronts_of self.new.snapshots.taken caller.now) ≡ true)
            (λ why. Unit {0}) }
        ensures place { self.new.place ≡ self.old.place }
    {
        match self.make_room() {
            Ok(()) => self.take_snapshot(caller),
            Err(stop) => Err(stop),
        }
    }

    /// Whether a hub is up.
    pub fn is_up(&self) -> bool
        ensures { result ≡ is_some (hub_in self.now.place) }
    {
        match &self.place {
            Place::Up(_) => true,
            _ => false,
        }
    }

    // A caller takes a snapshot, where a hub is up.
    fn take_snapshot(&mut self, caller: &Text) -> Result<(), WorldStop>
        requires sound { IsBetweenLines D.disk self.old }
        requires up { is_some (hub_in self.old.place) ≡ true }
        requires room { HasRoom 1 self.old }
        ensures turn { TurnOrEnd D.disk (part.Snapshot caller.now) self.old result self.new [] [] }
        ensures taken { MatchResult result (λ done. is_some (fronts_of self.new.snapshots.taken caller.now) ≡ true)
            (λ why. Unit {0}) }
        ensures place { self.new.place ≡ self.old.place }
    {
        match self.names_of(caller) {
            Ok((named, kept)) => self.take_named(caller, named, kept),
            Err(Memory) => Err(WorldStop::Memory),
        }
    }

    // A caller takes a snapshot, where a hub is up, and these are copies of its name.
    fn take_named(&mut self, caller: &Text, named: Text, kept: Text) -> Result<(), WorldStop>
        requires sound { IsBetweenLines D.disk self.old }
        requires up { is_some (hub_in self.old.place) ≡ true }
        requires room { HasRoom 1 self.old }
        requires names { (named ≡ caller.now) × (kept ≡ caller.now) }
        ensures turn { TurnOrEnd D.disk (part.Snapshot caller.now) self.old result self.new [] [] }
        ensures taken { MatchResult result (λ done. is_some (fronts_of self.new.snapshots.taken caller.now) ≡ true)
            (λ why. Unit {0}) }
        ensures place { self.new.place ≡ self.old.place }
    {
        scene_is_carried::<D>();
        snapshot_stays_at_front();
        snapshot_begins::<D>();
        match self.hub_snapshot() {
            Ok(snapshot) => self.put_snapshot(named, kept, snapshot),
            Err(Memory) => Err(WorldStop::Memory),
        }
    }

    // Two copies of a caller's name.
    fn names_of(&self, caller: &Text) -> Result<(Text, Text), Memory>
        ensures { IfOk result (λ found. (found.0 ≡ caller.now) × (found.1 ≡ caller.now)) }
    {
        let named = caller.copy(self.alloc)?;
        let kept = caller.copy(self.alloc)?;
        Ok((named, kept))
    }

    // A snapshot of the hub's state.
    fn hub_snapshot(&self) -> Result<Snapshot, Memory>
        requires sound { IsSoundScene D.disk self.now }
        requires up { is_some (hub_in self.now.place) ≡ true }
        ensures { MatchOption (hub_in self.now.place) ⊥ (λ hub. IfOk result (λ snapshot.
            (snapshot.front ≡ length hub.state.history) × IsSnapshotAt hub.decls hub.state.history snapshot)) }
    {
        match &self.place {
            Place::Up(hub) => hub.begin(self.alloc),
            _ => unreachable!(),
        }
    }

    // Keeps a snapshot of a caller, whose name these both are.
    fn put_snapshot(&mut self, named: Text, kept: Text, snapshot: Snapshot) -> Result<(), WorldStop>
        requires { HasRoom 1 self.old }
        ensures { PutsSnapshot self.old named kept snapshot result self.new }
    {
        let front = snapshot.front();
        match self.snapshots.put(self.alloc, kept, snapshot) {
            Ok(()) => {
                self.keep(Event::Begin(named, front));
                Ok(())
            }
            Err(Memory) => Err(WorldStop::Memory),
        }
    }

    /// A caller takes a snapshot, where a hub is up and it has none.
    pub fn take_first(&mut self, caller: &Text) -> Result<(), WorldStop>
        requires { IsBetweenLines D.disk self.old }
        ensures row { RowOrEnd D.disk (λ here. part.FirstSnapshot caller.now ∷ []) self.old result self.new [] [] }
        ensures taken { MatchResult result (λ done. HasFront self.new caller.now) (λ why. Unit {0}) }
        ensures place { self.new.place ≡ self.old.place }
    {
        if !self.is_up() {
            return Ok(());
        }
        if self.snapshots.of(caller).is_some() {
            return Ok(());
        }
        self.take_new(caller)
    }

    /// Takes room for what comes, and submits a call on the snapshot of its caller.
    pub fn submit_now(&mut self, call: Call, out: &mut Transcript) -> Result<(), WorldStop>
        requires sound { IsBetweenLines D.disk self.old }
        requires lawful { MatchOption (decls_in self.old.place) ⊥ (λ decls. IsTrue (is_call decls call)) }
        requires front { HasFront self.old call.caller }
        ensures { TurnOrEnd D.disk (part.Submission call) self.old result self.new out.old out.new }
    {
        match self.make_room() {
            Ok(()) => self.submit_copied(call, out),
            Err(stop) => Err(stop),
        }
    }

    // Submits a call, of which the event has a copy, on the snapshot of its caller.
    fn submit_copied(&mut self, call: Call, out: &mut Transcript) -> Result<(), WorldStop>
        requires sound { IsBetweenLines D.disk self.old }
        requires lawful { MatchOption (decls_in self.old.place) ⊥ (λ decls. IsTrue (is_call decls call)) }
        requires front { HasFront self.old call.caller }
        requires room { HasRoom 2 self.old }
        ensures { TurnOrEnd D.disk (part.Submission call) self.old result self.new out.old out.new }
    {
        match call.copy(self.alloc) {
            Ok(kept) => self.submit(call, kept, out),
            Err(Memory) => Err(WorldStop::Memory),
        }
    }

    // Submits a call, of which this is a copy, on the snapshot of its caller.
    fn submit(&mut self, call: Call, kept: Call, out: &mut Transcript) -> Result<(), WorldStop>
        requires sound { IsBetweenLines D.disk self.old }
        requires lawful { MatchOption (decls_in self.old.place) ⊥ (λ decls. IsTrue (is_call decls call)) }
        requires same { kept ≡ call }
        requires front { HasFront self.old call.caller }
        requires room { HasRoom 2 self.old }
        ensures { TurnOrEnd D.disk (part.Submission call) self.old result self.new out.old out.new }
    {
        match self.planned(&call) {
            Some((front, plan)) => self.submit_on(front, plan, call, kept, out),
            None => self.submit_down(kept, out),
        }
    }

    // Answers a call that no hub is up.
    fn submit_down(&mut self, kept: Call, out: &mut Transcript) -> Result<(), WorldStop>
        requires sound { IsSoundScene D.disk self.old }
        requires down { hub_in self.old.place ≡ None }
        requires room { HasRoom 1 self.old }
        ensures { TurnOrEnd D.disk (part.Submission kept) self.old result self.new out.old out.new }
    {
        scene_is_carried::<D>();
        snapshot_stays_at_front();
        self.submitted(kept, 0, Answer::Down, out)
    }

    // The front of the snapshot of a call's caller and the plan of the call on it, where a hub is up.
    fn planned(&self, call: &Call) -> Option<(u64, Result<Plan, Answer>)>
        requires sound { IsSoundScene D.disk self.now }
        requires lawful { MatchOption (decls_in self.now.place) ⊥ (λ decls. IsTrue (is_call decls call.now)) }
        requires front { HasFront self.now call.now.caller }
        ensures { MatchOption result (hub_in self.now.place ≡ None) (λ found. MatchOption (hub_in self.now.place) ⊥
            (λ hub. (fronts_of self.now.snapshots.taken call.now.caller ≡ Some found.0)
            × (found.0 ≤ length hub.state.history)
            × ((found.1 ≡ Err Answer.Memory) ⊎ (found.1 ≡ planned hub.decls
            (state_of hub.decls (take found.0 hub.state.history)) found.0 call.now)))) }
    {
        if !self.is_up() {
            return None;
        }
        match self.snapshots.of(&call.caller) {
            Some(taken) => Some((taken.snapshot.front(), self.plan(&taken.snapshot, call))),
            None => unreachable!(),
        }
    }

    // The plan of a call on a snapshot.
    fn plan(&self, snapshot: &Snapshot, call: &Call) -> Result<Plan, Answer>
        requires decls { MatchOption (decls_in self.now.place) ⊥ AreDecls }
        requires lawful { MatchOption (decls_in self.now.place) ⊥ (λ decls. IsTrue (is_call decls call.now)) }
        requires under { MatchOption (decls_in self.now.place) ⊥ (λ decls. IsSnapshotUnder decls snapshot.now) }
        ensures { MatchOption (decls_in self.now.place) ⊥ (λ decls. (result ≡ Err Answer.Memory)
            ⊎ ((history : List Call) → IsSnapshotAt decls history snapshot.now → result
            ≡ planned decls (state_of decls (take snapshot.now.front history)) snapshot.now.front call.now)) }
    {
        match snapshot.plan(self.alloc, self.decls(), call) {
            Ok(plan) => plan,
            Err(Memory) => Err(Answer::Memory),
        }
    }

    // Submits a call that is planned so on a snapshot of this front.
    fn submit_on(
        &mut self,
        front: u64,
        plan: Result<Plan, Answer>,
        call: Call,
        kept: Call,
        out: &mut Transcript,
    ) -> Result<(), WorldStop>
        requires sound { IsBetweenLines D.disk self.old }
        requires same { kept ≡ call }
        requires room { HasRoom 2 self.old }
        requires planned { MatchOption (hub_in self.old.place) ⊥ (λ hub. IsTrue (is_call hub.decls call)
            × (fronts_of self.old.snapshots.taken call.caller ≡ Some front) × (front ≤ length hub.state.history)
            × ((plan ≡ Err Answer.Memory) ⊎ (plan ≡ planned hub.decls
            (state_of hub.decls (take front hub.state.history)) front call))) }
        ensures { TurnOrEnd D.disk (part.Submission call) self.old result self.new out.old out.new }
    {
        scene_is_carried::<D>();
        snapshot_stays_at_front();
        submit_is_event::<D>();
        submissions_are_named::<StopDisk<D>>();
        self.snapshots.drop_of(self.alloc, &call.caller);
        match &mut self.place {
            Place::Up(hub) => match hub.submit(self.alloc, call, front, plan) {
                Submitted::Queued(_t) => {
                    self.keep(Event::Submit(kept, front, None));
                    Ok(())
                }
                Submitted::Answered(said) => self.submitted(kept, front, said, out),
            },
            _ => unreachable!(),
        }
    }

    // A call got this answer at once.
    fn submitted(
        &mut self,
        kept: Call,
        front: u64,
        said: Answer,
        out: &mut Transcript,
    ) -> Result<(), WorldStop>
        requires named { MatchOption (decls_in self.old.place) ⊥ (λ decls.
            IsTrue (is_answer_among (length decls.names) said)) }
        requires room { HasRoom 1 self.old }
        ensures state { HasEvents self.old self.new
            (self.old.events.items.items ++ event.Submit kept front (Some said) ∷ []) }
        ensures said { MatchOption (decls_in self.old.place) ⊥ (λ decls.
            SaysAnswer decls.names kept.caller kept.number said out.old result out.new) }
    {
        let line = self.answer_line(&kept.caller, kept.number, &said);
        self.keep(Event::Submit(kept, front, Some(said)));
        self.say(line, out)
    }
}
