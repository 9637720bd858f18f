//! Admissions.
ghost use Rattle.std.specs.Prelude.{◌≡◌, IsTrue, MatchOption, None, Some, length};
ghost use Rattle.orc_hub.specs.Admits.{IsNextToAdmit, NoneFits};
ghost use Rattle.orc_print.specs.Printed.{is_answer_among};
ghost use Rattle.orc_rules.specs.declared.event.Event.TheVariants as event;
ghost use Rattle.orc_runs.specs.Scripts.{Part as part};
ghost use Rattle.orc_scene.specs.Effects.{hub_in};
ghost use Rattle.orc_scene.specs.inside.Effects.{ConcludesAnswer, ConcludesCall};
ghost use Rattle.orc_scene.specs.Courses.{HasRoom, TurnOrEnd, TurnOrNone};
ghost use Rattle.orc_scene.specs.Stands.{IsBetweenLines, decls_in};

use crate::laws::scene_is_carried;
use crate::scene::{Place, Scene};
use crate::stop::WorldStop;
use orc_call::Answer;
use orc_disk::{Disk, StopDisk};
use orc_hub::Admit;
use orc_hub_laws::{admissions_are_named, admit_is_event, no_admission};
use orc_print::Transcript;
use orc_rules::Event;
use orc_state::snapshot_stays_at_front;
use orc_text::{Memory, Text};

impl<D: Disk> Scene<D> {
    // The number of the transaction that would be admitted next.
    fn next_to_admit(&self) -> Option<u64>
        ensures { MatchOption (hub_in self.now.place) (result ≡ None)
            (λ hub. MatchOption result (NoneFits hub.active hub.waiting) (IsNextToAdmit hub.active hub.waiting)) }
    {
        match &self.place {
            Place::Up(hub) => hub.next_to_admit(),
            _ => None,
        }
    }

    /// Admits or answers the first waiting call that fits, and says whether there was one.
    pub fn admit_next(&mut self, out: &mut Transcript) -> Result<bool, WorldStop>
        requires { IsBetweenLines D.disk self.old }
        ensures { TurnOrNone D.disk part.Admission self.old result self.new out.old out.new }
    {
        no_admission::<D>();
        match self.next_to_admit() {
            None => Ok(false),
            Some(t) => match self.admit_now(t, out) {
                Ok(()) => Ok(true),
                Err(stop) => Err(stop),
            },
        }
    }

    // Takes room for what comes, and admits or answers the waiting call of this number, which is the first that fits.
    fn admit_now(&mut self, t: u64, out: &mut Transcript) -> Result<(), WorldStop>
        requires sound { IsBetweenLines D.disk self.old }
        requires next { MatchOption (hub_in self.old.place) ⊥ (λ hub. IsNextToAdmit hub.active hub.waiting t) }
        ensures { TurnOrEnd D.disk part.Admission self.old result self.new out.old out.new }
    {
        match self.make_room() {
            Ok(()) => self.admit_as(t, out),
            Err(stop) => Err(stop),
        }
    }

    // Admits or answers the waiting call of this number, which is the first that fits.
    fn admit_as(&mut self, t: u64, out: &mut Transcript) -> Result<(), WorldStop>
        requires sound { IsBetweenLines D.disk self.old }
        requires next { MatchOption (hub_in self.old.place) ⊥ (λ hub. IsNextToAdmit hub.active hub.waiting t) }
        requires room { HasRoom 2 self.old }
        ensures { TurnOrEnd D.disk part.Admission self.old result self.new out.old out.new }
    {
        scene_is_carried::<D>();
        snapshot_stays_at_front();
        admit_is_event::<D>();
        admissions_are_named::<StopDisk<D>>();
        match &mut self.place {
            Place::Up(hub) => match hub.admit(self.alloc) {
                Admit::Nothing => unreachable!(),
                Admit::Admitted(t) => {
                    self.keep(Event::Admit(t, None));
                    Ok(())
                }
                Admit::Answered {
                    caller,
                    number,
                    answer,
                } => self.not_admitted(t, caller, number, answer, out),
                Admit::Full { len } => Err(self.full(len)),
            },
            _ => unreachable!(),
        }
    }

    // The call of this caller and number, of this transaction, was not admitted.
    fn not_admitted(
        &mut self,
        t: u64,
        caller: Text,
        number: u64,
        said: Answer,
        out: &mut Transcript,
    ) -> Result<(), WorldStop>
        requires named { MatchOption (decls_in self.old.place) ⊥ (λ decls.
            IsTrue (is_answer_among (length decls.names) said)) }
        requires room { HasRoom 1 self.old }
        ensures { MatchOption (decls_in self.old.place) ⊥ (λ decls. ConcludesAnswer decls.names self.old caller number
            said (event.Admit t (Some said)) out.old result self.new out.new) }
    {
        let line = self.answer_line(&caller, number, &said);
        self.conclude(&caller, Event::Admit(t, Some(said)), line, out)
    }

    // A call of this caller got its answer, or the append of that failed.
    pub(crate) fn conclude(
        &mut self,
        caller: &Text,
        event: Event,
        line: Result<Vec<u8>, Memory>,
        out: &mut Transcript,
    ) -> Result<(), WorldStop>
        requires { HasRoom 1 self.old }
        ensures { ConcludesCall self.old caller.now event line out.old result self.new out.new }
    {
        if self.is_down() {
            return self.failed(Some(event), line, out);
        }
        self.answered(caller, event, line, out)
    }
}
