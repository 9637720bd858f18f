//! Time, restarts and listed faults.
ghost use Rattle.orc_world.specs.Lines.{IsLineCall};
ghost use Rattle.orc_scene.specs.Stands.{Allows, IsBetweenLines};
ghost use Rattle.orc_script.specs.declared.step.ScriptStep.TheVariants as step;

use crate::world::World;
use orc_device::{OpKind, When};
use orc_disk::Disk;
use orc_print::Transcript;
use orc_rules::Event;
use orc_scene::{WorldStop, scene_is_carried};
use orc_text::Memory;

impl<D: Disk> World<D> {
    /// The line `tick`: so many seconds pass at each device.
    pub fn tick(&mut self, seconds: u32, out: &mut Transcript) -> Result<(), WorldStop>
        requires sound { IsBetweenLines D.disk self.old.scene }
        requires allowed { Allows self.old.scene (step.Tick seconds) }
        ensures { IsLineCall D.disk (step.Tick seconds) self.old.scene result self.new.scene out.old out.new }
    {
        scene_is_carried::<D>();
        match self.scene.make_room() {
            Ok(()) => {
                self.scene.links.tick(seconds);
                self.scene.keep(Event::Tick(seconds));
                Ok(())
            }
            Err(stop) => Err(stop),
        }
    }

    /// The line `restart`: the device restarts.
    pub fn restart(&mut self, device: u32, out: &mut Transcript) -> Result<(), WorldStop>
        requires sound { IsBetweenLines D.disk self.old.scene }
        requires allowed { Allows self.old.scene (step.Restart device) }
        ensures { IsLineCall D.disk (step.Restart device) self.old.scene result self.new.scene out.old out.new }
    {
        scene_is_carried::<D>();
        match self.scene.make_room() {
            Ok(()) => {
                self.scene.links.restart(device);
                self.scene.keep(Event::Restart(device));
                Ok(())
            }
            Err(stop) => Err(stop),
        }
    }

    /// The line `fault`: the device's next operation of this kind fails, before its effect or after.
    pub fn fault(
        &mut self,
        device: u32,
        op: OpKind,
        when: When,
        out: &mut Transcript,
    ) -> Result<(), WorldStop>
        requires sound { IsBetweenLines D.disk self.old.scene }
        requires allowed { Allows self.old.scene (step.Fault device op when) }
        ensures { IsLineCall D.disk (step.Fault device op when) self.old.scene result self.new.scene out.old out.new }
    {
        scene_is_carried::<D>();
        match self.scene.links.fail_next(device, op, when) {
            Ok(()) => Ok(()),
            Err(Memory) => Err(WorldStop::Memory),
        }
    }
}
