//! The lines of a script, each of which is written as it is done.
ghost use Rattle.std.specs.Prelude.{◌≡◌, ◌≤◌, true, IfErr, IsErrOf, IsTrue, MatchOption, OnOk};
ghost use Rattle.std.specs.List.{list_all};
ghost use Rattle.orc_decls.specs.declared.declarations.Decls.{Decls};
ghost use Rattle.orc_io.specs.Counts.{Rose};
ghost use Rattle.orc_rules.specs.Worlds.{World as Seen};
ghost use Rattle.orc_run.specs.declared.opening.TheConstants.{LARGEST_JOURNAL};
ghost use Rattle.orc_run.specs.declared.stop.Stop.{Stop};
ghost use Rattle.orc_run.specs.inside.Inputs.{IsRunStop};
ghost use Rattle.orc_run.specs.inside.Scripts.{Finishes, GreetsAndFinishes, IsFirst, WritesLine};
ghost use Rattle.orc_script.specs.Steps.{is_step};
ghost use Rattle.orc_scene.specs.Begins.{HasBegun};
ghost use Rattle.orc_world.specs.Scripts.{TakesAnyLine};
ghost use Rattle.orc_scene.specs.Stands.{Allows, decls_in, is_somewhere};

use crate::laws::read_back_runs_have_the_headline;
use crate::notes::bytes_after_end;
use crate::opening::greeting;
use crate::stop::stop_of_world;
use crate::{Done, Ended, Notes, Stop};
use orc_disk::Disk;
use orc_io::{Sink, write_whole};
use orc_print::Transcript;
use orc_script::ScriptStep;
use orc_text::Memory;
use orc_world::World;
use std::alloc::Global;

/// Greets where the disk was not empty, and does the lines of a script in a world that has begun.
pub(crate) fn run_script<K: Sink, D: Disk>(
    alloc: Global,
    world: World<D>,
    steps: &[ScriptStep],
    sink: &mut K,
) -> Ended<D>
    requires going { TakesAnyLine D.disk world.scene }
    requires allowed { MatchOption (decls_in world.scene.place) ⊥
        (λ decls. IsTrue (list_all (is_step decls) steps.now)) }
    ensures ends { (decls : Decls) (from : D) → HasBegun D.disk decls from LARGEST_JOURNAL world.scene
        → GreetsAndFinishes D.disk decls from (K.sink.held sink.old) (K.sink.held sink.new) steps.now
        result.disk result.status }
    ensures write { IsErrOf result.status Stop.WriteFault → Rose (K.sink.faults sink.old) (K.sink.faults sink.new) }
    ensures causes { IfErr result.status IsRunStop }
{
    read_back_runs_have_the_headline::<D>();
    let after_end = bytes_after_end(&world);
    let text = match greeting(alloc, &world) {
        Ok(text) => text,
        Err(Memory) => return Ended::at(world.into_disk(), Stop::Memory, Notes::none(alloc)),
    };
    if write_whole(sink, text.as_slice()).is_err() {
        let notes = Notes::of_world(alloc, &world, after_end);
        return Ended::at(world.into_disk(), Stop::WriteFault, notes);
    }
    run_lines(alloc, world, after_end, steps, sink)
}

// Does the lines in order, and writes what each prints as it is done. So many bytes stood after the journal's ending gate.
fn run_lines<K: Sink, D: Disk>(
    alloc: Global,
    world: World<D>,
    after_end: u64,
    steps: &[ScriptStep],
    sink: &mut K,
) -> Ended<D>
    requires going { TakesAnyLine D.disk world.scene }
    requires allowed { MatchOption (decls_in world.scene.place) ⊥
        (λ decls. IsTrue (list_all (is_step decls) steps.now)) }
    ensures ends { (decls : Decls) (first : Seen D) → IsFirst D.disk decls first world.scene
        → Finishes D.disk decls first (K.sink.held sink.old) (K.sink.held sink.new) steps.now
        result.disk result.status }
    ensures later { K.sink.faults sink.old ≤ K.sink.faults sink.new }
    ensures write { IsErrOf result.status Stop.WriteFault → Rose (K.sink.faults sink.old) (K.sink.faults sink.new) }
    ensures causes { IfErr result.status IsRunStop }
{
    read_back_runs_have_the_headline::<D>();
    let mut world = world;
    for step in steps {
        match run_line(alloc, &mut world, step, sink) {
            Ok(()) => {}
            Err(stop) => {
                let notes = Notes::of_world(alloc, &world, after_end);
                return Ended::at(world.into_disk(), stop, notes);
            }
        }
    }
    let notes = Notes::of_world(alloc, &world, after_end);
    Ended {
        disk: world.into_disk(),
        status: Ok(Done),
        notes,
    }
}

// Does a line, and writes what it prints.
fn run_line<K: Sink, D: Disk>(
    alloc: Global,
    world: &mut World<D>,
    step: &ScriptStep,
    sink: &mut K,
) -> Result<(), Stop>
    requires going { TakesAnyLine D.disk world.old.scene }
    requires allowed { Allows world.old.scene step.now }
    ensures line { WritesLine D.disk (K.sink.held sink.old) (K.sink.held sink.new) step.now world.old.scene result
        world.new.scene }
    ensures there { is_somewhere world.new.scene.place ≡ true }
    ensures going { OnOk result (TakesAnyLine D.disk world.new.scene) }
    ensures decls { OnOk result (decls_in world.new.scene.place ≡ decls_in world.old.scene.place) }
    ensures later { K.sink.faults sink.old ≤ K.sink.faults sink.new }
    ensures write { IsErrOf result Stop.WriteFault → Rose (K.sink.faults sink.old) (K.sink.faults sink.new) }
    ensures causes { IfErr result IsRunStop }
{
    let mut out = Transcript::new(alloc);
    let ended = world.run_step(step, &mut out);
    match write_whole(sink, out.bytes()) {
        Ok(()) => match ended {
            Ok(()) => Ok(()),
            Err(why) => Err(stop_of_world(why)),
        },
        Err(_) => Err(Stop::WriteFault),
    }
}
