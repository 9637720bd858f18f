//! Decisions.
ghost use Rattle.std.specs.Prelude.{◌≡◌, IsTrue, MatchOption, None, Some, if◌then◌else◌, length};
ghost use Rattle.orc_print.specs.Printed.{is_answer_among};
ghost use Rattle.orc_rules.specs.Due.{least_due};
ghost use Rattle.orc_rules.specs.declared.event.Event.TheVariants as event;
ghost use Rattle.orc_runs.specs.Scripts.{Part as part};
ghost use Rattle.orc_scene.specs.Effects.{hub_in};
ghost use Rattle.orc_scene.specs.inside.Effects.{ConcludesAnswer};
ghost use Rattle.orc_scene.specs.Courses.{HasRoom, TurnOrEnd, TurnOrNone};
ghost use Rattle.orc_scene.specs.Stands.{IsBetweenLines, decls_in};

use crate::laws::scene_is_carried;
use crate::scene::{Place, Scene};
use crate::stop::WorldStop;
use orc_call::Answer;
use orc_disk::{Disk, StopDisk};
use orc_hub::Decided;
use orc_hub_laws::{decide_is_event, decisions_are_named, no_decision};
use orc_print::Transcript;
use orc_rules::Event;
use orc_state::snapshot_stays_at_front;
use orc_text::Text;

impl<D: Disk> Scene<D> {
    // The number of the transaction for which something is due next.
    fn next_to_decide(&self) -> Option<u64>
        ensures { MatchOption (hub_in self.now.place) (result ≡ None)
            (λ hub. result ≡ (if hub.down then None else least_due hub.duties hub.active)) }
    {
        match &self.place {
            Place::Up(hub) => hub.next_to_decide(),
            _ => None,
        }
    }

    /// Decides or settles what is due next, and says whether anything was.
    pub fn decide_next(&mut self, out: &mut Transcript) -> Result<bool, WorldStop>
        requires { IsBetweenLines D.disk self.old }
        ensures { TurnOrNone D.disk part.Decisions self.old result self.new out.old out.new }
    {
        no_decision::<D>();
        match self.next_to_decide() {
            None => Ok(false),
            Some(t) => match self.decide_now(t, out) {
                Ok(()) => Ok(true),
                Err(stop) => Err(stop),
            },
        }
    }

    // Takes room for what comes, and decides or settles the transaction of this number, for which that is due next.
    fn decide_now(&mut self, t: u64, out: &mut Transcript) -> Result<(), WorldStop>
        requires sound { IsBetweenLines D.disk self.old }
        requires next { MatchOption (hub_in self.old.place) ⊥ (λ hub. least_due hub.duties hub.active ≡ Some t) }
        ensures { TurnOrEnd D.disk part.Decisions self.old result self.new out.old out.new }
    {
        match self.make_room() {
            Ok(()) => self.decide_as(t, out),
            Err(stop) => Err(stop),
        }
    }

    // Decides or settles the transaction of this number, for which that is due next.
    fn decide_as(&mut self, t: u64, out: &mut Transcript) -> Result<(), WorldStop>
        requires sound { IsBetweenLines D.disk self.old }
        requires next { MatchOption (hub_in self.old.place) ⊥ (λ hub. least_due hub.duties hub.active ≡ Some t) }
        requires room { HasRoom 2 self.old }
        ensures { TurnOrEnd D.disk part.Decisions self.old result self.new out.old out.new }
    {
        scene_is_carried::<D>();
        snapshot_stays_at_front();
        decide_is_event::<D>();
        decisions_are_named::<StopDisk<D>>();
        match &mut self.place {
            Place::Up(hub) => match hub.decide(self.alloc) {
                Decided::Nothing => unreachable!(),
                Decided::Answered {
                    caller,
                    number,
                    answer,
                } => self.decided(t, caller, number, answer, out),
                Decided::Settled(t) => {
                    self.keep(Event::Settle(t));
                    Ok(())
                }
                Decided::Down => self.failed(None, Ok(Vec::new(self.alloc)), out),
                Decided::Full { len } => Err(self.full(len)),
            },
            _ => unreachable!(),
        }
    }

    // The call of this caller and number, of this transaction, got its answer.
    fn decided(
        &mut self,
        t: u64,
        caller: Text,
        number: u64,
        said: Answer,
        out: &mut Transcript,
    ) -> Result<(), WorldStop>
        requires named { MatchOption (decls_in self.old.place) ⊥ (λ decls.
            IsTrue (is_answer_among (length decls.names) said)) }
        requires room { HasRoom 1 self.old }
        ensures { MatchOption (decls_in self.old.place) ⊥ (λ decls. ConcludesAnswer decls.names self.old caller number
            said (event.Decide t said) out.old result self.new out.new) }
    {
        let line = self.answer_line(&caller, number, &said);
        self.conclude(&caller, Event::Decide(t, said), line, out)
    }
}
