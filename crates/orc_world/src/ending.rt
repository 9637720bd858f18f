//! Stops and recoveries.
ghost use Rattle.std.specs.Prelude.{◌≡◌, true, false, is_some};
ghost use Rattle.orc_scene.specs.Effects.{hub_in};
ghost use Rattle.orc_world.specs.Lines.{IsLineCall};
ghost use Rattle.orc_scene.specs.Stands.{Allows, IsBetweenLines};
ghost use Rattle.orc_script.specs.declared.step.ScriptStep.TheVariants as step;

use crate::world::World;
use orc_disk::Disk;
use orc_hub_laws::arming_arms;
use orc_print::{Transcript, stopped};
use orc_scene::{WorldStop, scene_is_carried};

impl<D: Disk> World<D> {
    /// The line `stop`: the controller stops, where it is up.
    pub fn stop(&mut self, out: &mut Transcript) -> Result<(), WorldStop>
        requires sound { IsBetweenLines D.disk self.old.scene }
        requires allowed { Allows self.old.scene step.Stop }
        ensures { IsLineCall D.disk step.Stop self.old.scene result self.new.scene out.old out.new }
    {
        if !self.scene.is_up() {
            return self.scene.say(stopped(self.scene.alloc), out);
        }
        self.stop_up(out)
    }

    // The line `stop`, where the controller is up.
    fn stop_up(&mut self, out: &mut Transcript) -> Result<(), WorldStop>
        requires sound { IsBetweenLines D.disk self.old.scene }
        requires up { is_some (hub_in self.old.scene.place) ≡ true }
        ensures { IsLineCall D.disk step.Stop self.old.scene result self.new.scene out.old out.new }
    {
        match self.scene.make_room() {
            Ok(()) => {
                self.scene.stop_hub();
                self.scene.say(stopped(self.scene.alloc), out)
            }
            Err(stop) => Err(stop),
        }
    }

    /// The line `stop K B`: a stop is armed in the journal's disk, where the controller is up.
    pub fn stop_at(&mut self, k: u64, b: u64, out: &mut Transcript) -> Result<(), WorldStop>
        requires sound { IsBetweenLines D.disk self.old.scene }
        requires allowed { Allows self.old.scene (step.StopAt k b) }
        ensures { IsLineCall D.disk (step.StopAt k b) self.old.scene result self.new.scene out.old out.new }
    {
        scene_is_carried::<D>();
        arming_arms::<D>();
        self.scene.arm(k, b);
        Ok(())
    }

    /// The line `recover`: the controller stops, where it is up, and opens its journal again.
    pub fn recover(&mut self, out: &mut Transcript) -> Result<(), WorldStop>
        requires sound { IsBetweenLines D.disk self.old.scene }
        requires allowed { Allows self.old.scene step.Recover }
        ensures { IsLineCall D.disk step.Recover self.old.scene result self.new.scene out.old out.new }
    {
        if !self.scene.is_up() {
            return self.recover_only(out);
        }
        self.recover_up(out)
    }

    // The line `recover`, where the controller is up: it stops first.
    fn recover_up(&mut self, out: &mut Transcript) -> Result<(), WorldStop>
        requires sound { IsBetweenLines D.disk self.old.scene }
        requires up { is_some (hub_in self.old.scene.place) ≡ true }
        ensures { IsLineCall D.disk step.Recover self.old.scene result self.new.scene out.old out.new }
    {
        match self.scene.make_room() {
            Ok(()) => {
                self.scene.stop_hub();
                self.scene.recover_down(out)
            }
            Err(stop) => Err(stop),
        }
    }

    // The line `recover`, where the controller is down.
    fn recover_only(&mut self, out: &mut Transcript) -> Result<(), WorldStop>
        requires sound { IsBetweenLines D.disk self.old.scene }
        requires down { is_some (hub_in self.old.scene.place) ≡ false }
        ensures { IsLineCall D.disk step.Recover self.old.scene result self.new.scene out.old out.new }
    {
        match self.scene.make_room() {
            Ok(()) => self.scene.recover_down(out),
            Err(stop) => Err(stop),
        }
    }
}
