//! Whole scripts.
ghost use Rattle.std.specs.Prelude.{IsTrue, MatchOption};
ghost use Rattle.std.specs.List.{list_all};
ghost use Rattle.orc_script.specs.Steps.{is_step};
ghost use Rattle.orc_world.specs.Lines.{IsLineCall};
ghost use Rattle.orc_world.specs.Scripts.{GoesOnAfter, RunsScript, TakesAnyLine};
ghost use Rattle.orc_scene.specs.Stands.{Allows, IsBetweenLines, decls_in};
ghost use Rattle.orc_script.specs.declared.step.ScriptStep.TheVariants as step;

use crate::world::World;
use orc_call::Call;
use orc_disk::Disk;
use orc_print::Transcript;
use orc_scene::WorldStop;
use orc_script::ScriptStep;
use orc_text::Memory;

impl<D: Disk> World<D> {
    /// Does the lines of a script, in order, up to the end, or up to a line in which the run ends. The world takes any
    /// line after the last one, under the same declarations.
    pub fn run_steps(&mut self, steps: &[ScriptStep], out: &mut Transcript) -> Result<(), WorldStop>
        requires sound { TakesAnyLine D.disk self.old.scene }
        requires allowed { MatchOption (decls_in self.old.scene.place) ⊥
            (λ decls. IsTrue (list_all (is_step decls) steps.now)) }
        ensures script { RunsScript D.disk steps.now self.old.scene result self.new.scene out.old out.new }
        ensures after { GoesOnAfter D.disk self.old.scene result self.new.scene }
    {
        for step in steps {
            match self.run_step(step, out) {
                Ok(()) => {}
                Err(stop) => return Err(stop),
            }
        }
        Ok(())
    }

    /// Does a line of a script. The world takes any line after it, under the same declarations.
    pub fn run_step(&mut self, step: &ScriptStep, out: &mut Transcript) -> Result<(), WorldStop>
        requires sound { TakesAnyLine D.disk self.old.scene }
        requires allowed { Allows self.old.scene step.now }
        ensures line { IsLineCall D.disk step.now self.old.scene result self.new.scene out.old out.new }
        ensures after { GoesOnAfter D.disk self.old.scene result self.new.scene }
    {
        self.do_line(step, out)
    }

    // Does it.
    fn do_line(&mut self, step: &ScriptStep, out: &mut Transcript) -> Result<(), WorldStop>
        requires sound { IsBetweenLines D.disk self.old.scene }
        requires allowed { Allows self.old.scene step.now }
        ensures { IsLineCall D.disk step.now self.old.scene result self.new.scene out.old out.new }
    {
        match step {
            ScriptStep::Begin(caller) => self.begin(caller, out),
            ScriptStep::Call(call) => self.call_copy(call, out),
            ScriptStep::Admit => self.admit(out),
            ScriptStep::Step(device) => self.step(*device, out),
            ScriptStep::Decide => self.decide(out),
            ScriptStep::Settle => self.settle(out),
            ScriptStep::Tick(seconds) => self.tick(*seconds, out),
            ScriptStep::Restart(device) => self.restart(*device, out),
            ScriptStep::Fault(device, op, when) => self.fault(*device, *op, *when, out),
            ScriptStep::Stop => self.stop(out),
            ScriptStep::StopAt(k, b) => self.stop_at(*k, *b, out),
            ScriptStep::Recover => self.recover(out),
            ScriptStep::Reconcile => self.reconcile(out),
            ScriptStep::Show(device) => self.show(*device, out),
            ScriptStep::Json(device) => self.json(*device, out),
            ScriptStep::Log(device) => self.log(*device, out),
            ScriptStep::Meta(device, path) => self.meta(*device, path, out),
            ScriptStep::ShowData => self.show_data(out),
            ScriptStep::History => self.history(out),
        }
    }

    // Does the line of a call, of which it makes a copy.
    fn call_copy(&mut self, call: &Call, out: &mut Transcript) -> Result<(), WorldStop>
        requires sound { IsBetweenLines D.disk self.old.scene }
        requires allowed { Allows self.old.scene (step.Call call.now) }
        ensures { IsLineCall D.disk (step.Call call.now) self.old.scene result self.new.scene out.old out.new }
    {
        match call.copy(self.scene.alloc) {
            Ok(call) => self.call(call, out),
            Err(Memory) => Err(WorldStop::Memory),
        }
    }
}
