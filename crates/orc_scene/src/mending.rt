//! Reconciliations.
ghost use Rattle.std.specs.Prelude.{◌≡◌, [], true, IsTrue, MatchOption, OnOk, Some, is_some, length};
ghost use Rattle.orc_hub.specs.Hubs.{record_of};
ghost use Rattle.orc_print.specs.Printed.{is_end_among};
ghost use Rattle.orc_rules.specs.Worlds.{IsIdle};
ghost use Rattle.orc_runs.specs.Scripts.{Part as part};
ghost use Rattle.orc_scene.specs.Effects.{hub_in};
ghost use Rattle.orc_scene.specs.inside.Effects.{ConcludesMending, FailsMending, GivesUpMending, full_at};
ghost use Rattle.orc_scene.specs.Courses.{HasRoom, MendsDevices, TurnOrEnd};
ghost use Rattle.orc_scene.specs.Stands.{IsBetweenLines, IsSoundScene, IsNotReconciling, decls_in};

use crate::laws::scene_is_carried;
use crate::scene::{Place, Scene};
use crate::stop::WorldStop;
use orc_call::RecFault;
use orc_disk::Disk;
use orc_hub_laws::{mending_begins, mending_end_is_named, mending_ends};
use orc_print::{Transcript, reconciled};
use orc_rules::Event;
use orc_state::snapshot_stays_at_front;
use orc_text::Memory;

impl<D: Disk> Scene<D> {
    /// Whether nothing waits, and nothing is under way, under the hub that is up.
    pub fn is_idle(&self) -> bool
        ensures { result ≡ true → MatchOption (hub_in self.now.place) ⊥ (λ hub. IsIdle (record_of hub)) }
    {
        match &self.place {
            Place::Up(hub) => hub.idle(),
            _ => false,
        }
    }

    /// A reconciliation begins.
    pub fn begin_mending(&mut self) -> Result<(), WorldStop>
        requires sound { IsBetweenLines D.disk self.old }
        requires idle { MatchOption (hub_in self.old.place) ⊥ (λ hub. IsIdle (record_of hub)) }
        requires room { HasRoom 2 self.old }
        ensures turn { TurnOrEnd D.disk part.Beginning self.old result self.new [] [] }
        ensures begun { OnOk result (MatchOption (hub_in self.new.place) ⊥ (λ hub. is_some hub.mends ≡ true)) }
    {
        scene_is_carried::<D>();
        mending_begins::<D>();
        snapshot_stays_at_front();
        match &mut self.place {
            Place::Up(hub) => match hub.begin_reconcile(self.alloc) {
                Ok(()) => {
                    self.keep(Event::Reconcile(None));
                    Ok(())
                }
                Err(Memory) => Err(WorldStop::Memory),
            },
            _ => unreachable!(),
        }
    }

    /// Ends the reconciliation.
    pub fn finish_mending(&mut self, out: &mut Transcript) -> Result<(), WorldStop>
        requires sound { IsSoundScene D.disk self.old }
        requires done { MatchOption (hub_in self.old.place) ⊥ MendsDevices }
        requires room { HasRoom 2 self.old }
        ensures turn { TurnOrEnd D.disk part.Ending self.old result self.new out.old out.new }
        ensures unmended { OnOk result (IsNotReconciling self.new.place) }
    {
        scene_is_carried::<D>();
        mending_ends::<D>();
        mending_end_is_named::<D>();
        snapshot_stays_at_front();
        match &mut self.place {
            Place::Up(hub) => {
                let ended = hub.finish_reconcile(self.alloc);
                self.mended(ended, out)
            }
            _ => unreachable!(),
        }
    }

    // Prints that the reconciliation ended so.
    fn mended(&mut self, ended: Result<(), RecFault>, out: &mut Transcript) -> Result<(), WorldStop>
        requires named { MatchOption (decls_in self.old.place) ⊥ (λ decls.
            IsTrue (is_end_among (length decls.names) (Some ended))) }
        requires room { HasRoom 1 self.old }
        ensures { MatchOption (decls_in self.old.place) ⊥ (λ decls.
            ConcludesMending decls.names self.old ended out.old result self.new out.new) }
    {
        if self.is_down() {
            return self.give_up(full_at(&ended), out);
        }
        let line = reconciled(self.alloc, Some(&ended), self.names());
        self.keep(Event::Reconcile(Some(ended)));
        self.say(line, out)
    }

    // An append of its end failed, or had no room in a journal of this length.
    fn give_up(&mut self, full: Option<u64>, out: &mut Transcript) -> Result<(), WorldStop>
        requires { HasRoom 1 self.old }
        ensures { GivesUpMending full self.old out.old result self.new out.new }
    {
        match full {
            Some(len) => Err(self.full(len)),
            None => self.fail_to_mend(out),
        }
    }

    // An append of its end failed.
    fn fail_to_mend(&mut self, out: &mut Transcript) -> Result<(), WorldStop>
        requires { HasRoom 1 self.old }
        ensures { FailsMending self.old out.old result self.new out.new }
    {
        self.failed(
            Some(Event::Reconcile(Some(Err(RecFault::DiskFault)))),
            Ok(Vec::new(self.alloc)),
            out,
        )
    }
}
// The length of the journal that had no room, where a reconciliation ended by that.
fn full_at(ended: &Result<(), RecFault>) -> Option<u64>
    ensures { result ≡ full_at ended.now }
{
    match ended {
        Ok(()) => None,
        Err(RecFault::LinkFault { .. }) => None,
        Err(RecFault::DiskFault) => None,
        Err(RecFault::Refused { .. }) => None,
        Err(RecFault::Memory) => None,
        Err(RecFault::Full { len }) => Some(*len),
    }
}
