//! The lines of calls: a snapshot, a call, an admission, an operation, decisions.
ghost use Rattle.std.specs.Prelude.{◌∷◌, []};
ghost use Rattle.orc_call.specs.declared.call.Call.{Call};
ghost use Rattle.orc_runs.specs.Scripts.{Part as part, NoneOf};
ghost use Rattle.orc_world.specs.inside.Rows.{RowOrQuiet};
ghost use Rattle.orc_world.specs.Lines.{IsLineCall};
ghost use Rattle.orc_scene.specs.Stands.{Allows, IsBetweenLines};
ghost use Rattle.orc_script.specs.declared.step.ScriptStep.TheVariants as step;

use crate::world::World;
use orc_call::Call;
use orc_disk::Disk;
use orc_hub::Admit;
use orc_print::Transcript;
use orc_scene::{WorldStop, scene_is_carried};
use orc_text::{Memory, Text};

impl<D: Disk> World<D> {
    /// The line `begin`: the caller takes a snapshot, where a hub is up.
    pub fn begin(&mut self, caller: &Text, out: &mut Transcript) -> Result<(), WorldStop>
        requires sound { IsBetweenLines D.disk self.old.scene }
        requires allowed { Allows self.old.scene (step.Begin caller.now) }
        ensures { IsLineCall D.disk (step.Begin caller.now) self.old.scene result self.new.scene out.old out.new }
    {
        scene_is_carried::<D>();
        if !self.scene.is_up() {
            return Ok(());
        }
        self.scene.take_new(caller)
    }

    /// The line of a call: its caller takes a snapshot, where it has none, and the call is planned on that and
    /// submitted.
    pub fn call(&mut self, call: Call, out: &mut Transcript) -> Result<(), WorldStop>
        requires sound { IsBetweenLines D.disk self.old.scene }
        requires allowed { Allows self.old.scene (step.Call call) }
        ensures { IsLineCall D.disk (step.Call call) self.old.scene result self.new.scene out.old out.new }
    {
        scene_is_carried::<D>();
        match self.scene.take_first(&call.caller) {
            Ok(()) => self.scene.submit_now(call, out),
            Err(stop) => Err(stop),
        }
    }

    /// The line `admit`: the first waiting call that fits is admitted, or answered.
    pub fn admit(&mut self, out: &mut Transcript) -> Result<(), WorldStop>
        requires sound { IsBetweenLines D.disk self.old.scene }
        requires allowed { Allows self.old.scene step.Admit }
        ensures { IsLineCall D.disk step.Admit self.old.scene result self.new.scene out.old out.new }
    {
        scene_is_carried::<D>();
        match self.scene.admit_next(out) {
            Ok(_came) => Ok(()),
            Err(stop) => Err(stop),
        }
    }

    /// The line `step`: the device does the operation that is due there, if one is.
    pub fn step(&mut self, device: u32, out: &mut Transcript) -> Result<(), WorldStop>
        requires sound { IsBetweenLines D.disk self.old.scene }
        requires allowed { Allows self.old.scene (step.Step device) }
        ensures { IsLineCall D.disk (step.Step device) self.old.scene result self.new.scene out.old out.new }
    {
        scene_is_carried::<D>();
        match self.scene.perform_next(device) {
            Ok(_came) => Ok(()),
            Err(stop) => Err(stop),
        }
    }

    /// The line `decide`: all that is due in the journal is decided and settled, the least transaction first.
    pub fn decide(&mut self, out: &mut Transcript) -> Result<(), WorldStop>
        requires sound { IsBetweenLines D.disk self.old.scene }
        requires allowed { Allows self.old.scene step.Decide }
        ensures { IsLineCall D.disk step.Decide self.old.scene result self.new.scene out.old out.new }
    {
        scene_is_carried::<D>();
        match self.decide_all(out) {
            Ok(_came) => Ok(()),
            Err(stop) => Err(stop),
        }
    }

    // Decides and settles all that is due, and says whether anything was.
    pub(crate) fn decide_all(&mut self, out: &mut Transcript) -> Result<bool, WorldStop>
        requires { IsBetweenLines D.disk self.old.scene }
        ensures row { RowOrQuiet D.disk (λ here. part.Decisions ∷ []) (λ here seen. NoneOf here seen part.Decisions)
            self.old.scene result self.new.scene out.old out.new }
    {
        scene_is_carried::<D>();
        let mut came = false;
        // Over a file no contract binds what reads give: nothing is known of devices after a recovery, so how many
        // decisions there are isn't known either.
        'decisions: for _turn in 0..u64::MAX {
            match self.scene.decide_next(out) {
                Ok(one) => {
                    if !one {
                        return Ok(came);
                    }
                    came = true;
                }
                Err(stop) => return Err(stop),
            }
        }
        Err(WorldStop::Memory)
    }
}
