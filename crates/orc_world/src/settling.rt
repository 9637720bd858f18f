//! Rounds, until nothing is left for one.
ghost use Rattle.std.specs.Prelude.{◌≡◌, ◌∷◌, ◌||◌, [], OnOk, length};
ghost use Rattle.std.specs.List.{flat_map};
ghost use Rattle.orc_rules.specs.Worlds.{declared};
ghost use Rattle.orc_runs.specs.Scripts.{IsStill, NoneOf, Part as part, round};
ghost use Rattle.orc_world.specs.inside.Rows.{NoneOrdered, RowOrQuiet, SettlesRounds};
ghost use Rattle.orc_world.specs.Lines.{IsLineCall};
ghost use Rattle.orc_scene.specs.Stands.{Allows, IsBetweenLines, IsSoundScene, IsNotReconciling};
ghost use Rattle.orc_script.specs.declared.step.ScriptStep.TheVariants as step;

use crate::world::World;
use orc_disk::Disk;
use orc_print::Transcript;
use orc_scene::{WorldStop, scene_is_carried};

impl<D: Disk> World<D> {
    /// The line `settle`: rounds, until one has nothing to do.
    pub fn settle(&mut self, out: &mut Transcript) -> Result<(), WorldStop>
        requires sound { IsBetweenLines D.disk self.old.scene }
        requires allowed { Allows self.old.scene step.Settle }
        ensures { IsLineCall D.disk step.Settle self.old.scene result self.new.scene out.old out.new }
    {
        self.settle_all(out)
    }

    // Rounds, until one has nothing to do.
    pub(crate) fn settle_all(&mut self, out: &mut Transcript) -> Result<(), WorldStop>
        requires { IsBetweenLines D.disk self.old.scene }
        ensures row { SettlesRounds D.disk self.old.scene result self.new.scene out.old out.new }
        ensures unmended { OnOk result (IsNotReconciling self.new.scene.place) }
    {
        scene_is_carried::<D>();
        // Over a file no contract binds what reads give: nothing is known of devices after a recovery, so how many
        // rounds there are isn't known either.
        'rounds: for _round in 0..u64::MAX {
            match self.round(out) {
                Ok(came) => {
                    if !came {
                        return Ok(());
                    }
                }
                Err(stop) => return Err(stop),
            }
        }
        Err(WorldStop::Memory)
    }

    // A round: all that fit are admitted, each device does the operation that is due, and what is due is decided.
    // Says whether anything was.
    fn round(&mut self, out: &mut Transcript) -> Result<bool, WorldStop>
        requires { IsBetweenLines D.disk self.old.scene }
        ensures row { RowOrQuiet D.disk (λ here. round here.decls) IsStill
            self.old.scene result self.new.scene out.old out.new }
        ensures unmended { OnOk result (IsNotReconciling self.new.scene.place) }
    {
        scene_is_carried::<D>();
        match self.admit_all(out) {
            Ok(admitted) => match self.perform_each() {
                Ok(performed) => match self.decide_all(out) {
                    Ok(decided) => Ok(any_came(admitted, performed, decided)),
                    Err(stop) => Err(stop),
                },
                Err(stop) => Err(stop),
            },
            Err(stop) => Err(stop),
        }
    }

    // Admits or answers all that fit, one after the other. Says whether any did.
    fn admit_all(&mut self, out: &mut Transcript) -> Result<bool, WorldStop>
        requires { IsBetweenLines D.disk self.old.scene }
        ensures row { RowOrQuiet D.disk (λ here. part.Admissions ∷ []) (λ here seen. NoneOf here seen part.Admission)
            self.old.scene result self.new.scene out.old out.new }
        ensures unmended { OnOk result (IsNotReconciling self.new.scene.place) }
    {
        scene_is_carried::<D>();
        let mut came = false;
        'admissions: for _turn in 0..u64::MAX {
            match self.scene.admit_next(out) {
                Ok(one) => {
                    if !one {
                        return Ok(came);
                    }
                    came = true;
                }
                Err(stop) => return Err(stop),
            }
        }
        Err(WorldStop::Memory)
    }

    // Each device does the operation that is due there. Says whether any was.
    fn perform_each(&mut self) -> Result<bool, WorldStop>
        requires { IsBetweenLines D.disk self.old.scene }
        ensures row { RowOrQuiet D.disk
            (λ here. flat_map (λ device. part.Operation device ∷ part.Hearing device ∷ []) (declared here.decls))
            NoneOrdered self.old.scene result self.new.scene [] [] }
        ensures unmended { OnOk result (IsNotReconciling self.new.scene.place) }
    {
        scene_is_carried::<D>();
        let mut came = false;
        for device in 0..self.device_count() {
            match self.scene.perform_next(device) {
                Ok(one) => came = either(came, one),
                Err(stop) => return Err(stop),
            }
        }
        Ok(came)
    }

    // How many devices there are.
    pub(crate) fn device_count(&self) -> u32
        requires { IsSoundScene D.disk self.now.scene }
        ensures { result ≡ length self.now.scene.links.links }
    {
        let count = self.scene.links.as_slice().len() as u32;
        count
    }
}

// One of two is so.
fn either(one: bool, other: bool) -> bool
    ensures { result ≡ (one || other) }
{
    one || other
}

// One of three is so.
fn any_came(admitted: bool, performed: bool, decided: bool) -> bool
    ensures { result ≡ (admitted || (performed || decided)) }
{
    either(admitted, either(performed, decided))
}
