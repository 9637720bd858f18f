//! Reconciliations.
ghost use Rattle.std.specs.Prelude.{◌≡◌, ◌<◌, ◌∷◌, ◌++◌, [], true, MatchOption, OnOk, is_some, length, map};
ghost use Rattle.orc_rules.specs.Worlds.{declared};
ghost use Rattle.orc_runs.specs.Scripts.{Part as part};
ghost use Rattle.orc_scene.specs.Effects.{hub_in};
ghost use Rattle.orc_scene.specs.Courses.{MendsDevices, RowOrEnd};
ghost use Rattle.orc_world.specs.Lines.{IsLineCall};
ghost use Rattle.orc_scene.specs.Stands.{Allows, IsBetweenLines, IsSoundScene, IsNotReconciling};
ghost use Rattle.orc_script.specs.declared.step.ScriptStep.TheVariants as step;

use crate::world::World;
use orc_disk::Disk;
use orc_print::{Transcript, reconciled};
use orc_scene::{WorldStop, scene_is_carried};
use orc_text::Memory;

impl<D: Disk> World<D> {
    /// The line `reconcile`: rounds, until one has nothing to do; and then a reconciliation of each device, in order.
    pub fn reconcile(&mut self, out: &mut Transcript) -> Result<(), WorldStop>
        requires sound { IsBetweenLines D.disk self.old.scene }
        requires allowed { Allows self.old.scene step.Reconcile }
        ensures { IsLineCall D.disk step.Reconcile self.old.scene result self.new.scene out.old out.new }
    {
        if !self.scene.is_up() {
            return self.scene.say(reconciled(self.scene.alloc, None, self.scene.names()), out);
        }
        scene_is_carried::<D>();
        match self.settle_all(out) {
            Ok(()) => self.mend(out),
            Err(stop) => Err(stop),
        }
    }

    // A reconciliation of each device, in order, where a hub is up.
    fn mend(&mut self, out: &mut Transcript) -> Result<(), WorldStop>
        requires sound { IsBetweenLines D.disk self.old.scene }
        ensures row { RowOrEnd D.disk
            (λ here. part.Beginning ∷ map part.Operations (declared here.decls) ++ part.Ending ∷ [])
            self.old.scene result self.new.scene out.old out.new }
        ensures unmended { OnOk result (IsNotReconciling self.new.scene.place) }
    {
        if !self.scene.is_up() {
            return Ok(());
        }
        if !self.scene.is_idle() {
            return Err(WorldStop::Memory);
        }
        match self.scene.make_room() {
            Ok(()) => match self.scene.begin_mending() {
                Ok(()) => self.mend_devices(out),
                Err(stop) => Err(stop),
            },
            Err(stop) => Err(stop),
        }
    }

    // What is left of a reconciliation that was begun.
    fn mend_devices(&mut self, out: &mut Transcript) -> Result<(), WorldStop>
        requires sound { IsSoundScene D.disk self.old.scene }
        requires begun { MatchOption (hub_in self.old.scene.place) ⊥ (λ hub. is_some hub.mends ≡ true) }
        ensures row { RowOrEnd D.disk (λ here. map part.Operations (declared here.decls) ++ part.Ending ∷ [])
            self.old.scene result self.new.scene out.old out.new }
        ensures unmended { OnOk result (IsNotReconciling self.new.scene.place) }
    {
        match self.mend_each() {
            Ok(()) => match self.scene.make_room() {
                Ok(()) => self.scene.finish_mending(out),
                Err(stop) => Err(stop),
            },
            Err(stop) => Err(stop),
        }
    }

    // Each device, in order, does all operations that are due there.
    fn mend_each(&mut self) -> Result<(), WorldStop>
        requires sound { IsSoundScene D.disk self.old.scene }
        requires begun { MatchOption (hub_in self.old.scene.place) ⊥ (λ hub. is_some hub.mends ≡ true) }
        ensures row { RowOrEnd D.disk (λ here. map part.Operations (declared here.decls))
            self.old.scene result self.new.scene [] [] }
        ensures done { OnOk result (MatchOption (hub_in self.new.scene.place) ⊥ MendsDevices) }
    {
        for device in 0..self.device_count() {
            match self.mend_on(device) {
                Ok(()) => {}
                Err(stop) => return Err(stop),
            }
        }
        Ok(())
    }

    // A device does all operations that are due there.
    fn mend_on(&mut self, device: u32) -> Result<(), WorldStop>
        requires sound { IsSoundScene D.disk self.old.scene }
        requires declared { device < length self.old.scene.links.links }
        ensures { RowOrEnd D.disk (λ here. part.Operations device ∷ []) self.old.scene result self.new.scene [] [] }
    {
        'operations: for _turn in 0..u64::MAX {
            match self.scene.perform_next(device) {
                Ok(came) => {
                    if !came {
                        return Ok(());
                    }
                }
                Err(stop) => return Err(stop),
            }
        }
        Err(WorldStop::Memory)
    }
}
