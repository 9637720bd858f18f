//! The top call.
ghost use Rattle.std.specs.Prelude.{List, Option, ◌≡◌, ◌<◌, ◌^◌, ℕ, map, length, IfErr, IsErrOf, IsTrue};
ghost use Rattle.std.specs.List.{list_all};
ghost use Rattle.std.specs.String.{string_bytes};
ghost use Rattle.orc_bundle.specs.Bundles.{IsBundle};
ghost use Rattle.orc_decls.specs.declared.rule.Rule.{Rule};
ghost use Rattle.orc_io.specs.Counts.{Rose};
ghost use Rattle.orc_run.specs.Ends.{EndsBy};
ghost use Rattle.orc_run.specs.inside.Inputs.{IsRunStop};
ghost use Rattle.orc_run.specs.inside.Scripts.{EndsOrNeverBegins};
ghost use Rattle.orc_script.specs.Steps.{is_step};
ghost use Rattle.orc_words.specs.Words.{command_of};

use crate::checking::check_bundle;
use crate::opening::LARGEST_JOURNAL;
use crate::reading::{Input, input_for};
use crate::running::run_script;
use crate::stop::stop_of_world;
use crate::summing::sum_over;
use crate::{Ended, Notes, Stop};
use orc_declarations::Bundle;
use orc_disk::Disk;
use orc_io::{Sink, Source};
use orc_script::ScriptStep;
use orc_words::{Command, WordsFault, command_of};
use orc_world::World;
use std::alloc::Global;

/// Does what the words ask for with the bundle that a source gives: checks it, or runs its script over
/// the journal on a disk, with the devices that it declares, or prints the history that the journal
/// holds, and writes what that prints to a sink, line by line. Or it makes a bundle, runs it, and writes
/// a summary. The disk is handed back.
///
/// The words come first, then the whole source, where a bundle is read of it, then the bundle, the
/// journal, and the steps. `Usage` and `Bundle` leave the sink and the disk as they were, and a check
/// never touches the disk. After `WriteFault` the sink took a prefix of what was printed. Memory may run
/// out at any place.
pub fn orchestrate<S: Source, K: Sink, D: Disk>(
    alloc: Global,
    words: &[String],
    source: &mut S,
    sink: &mut K,
    disk: D,
) -> Ended<D>
    ensures ends { EndsBy D.disk (command_of (map (λ w. string_bytes w) words.now))
        (record { left = S.source.left source.old; held = K.sink.held sink.old; disk = disk })
        (record { left = S.source.left source.new; held = K.sink.held sink.new; disk = result.disk })
        result.status }
    ensures usage_keeps { IsErrOf result.status Stop.Usage
        → (source.new ≡ source.old) × (sink.new ≡ sink.old) × (result.disk ≡ disk) }
    ensures bundle_keeps { (line : ℕ) (rule : Rule) → IsErrOf result.status (Stop.Bundle line rule)
        → (sink.new ≡ sink.old) × (result.disk ≡ disk) }
    ensures read { IsErrOf result.status Stop.ReadFault
        → Rose (S.source.faults source.old) (S.source.faults source.new) }
    ensures read_keeps { IsErrOf result.status Stop.ReadFault → (sink.new ≡ sink.old) × (result.disk ≡ disk) }
    ensures write { IsErrOf result.status Stop.WriteFault → Rose (K.sink.faults sink.old) (K.sink.faults sink.new) }
    ensures journal { IsErrOf result.status Stop.JournalFault → Rose (D.disk.faults disk) (D.disk.faults result.disk) }
{
    let command = match command_of(alloc, words) {
        Ok(command) => command,
        Err(WordsFault::Usage) => return Ended::at(disk, Stop::Usage, Notes::none(alloc)),
        Err(WordsFault::Memory) => return Ended::at(disk, Stop::Memory, Notes::none(alloc)),
    };
    let mut notes = Notes::none(alloc);
    let input = match input_for(alloc, &command, source, &mut notes) {
        Ok(input) => input,
        Err(stop) => return Ended::at(disk, stop, notes),
    };
    let Input { bundle, steps } = input;
    match command {
        Command::Check => Ended {
            disk,
            status: check_bundle(alloc, &bundle.decls, steps.as_slice(), sink),
            notes,
        },
        Command::Run => run_over(alloc, bundle, steps.as_slice(), sink, disk),
        Command::History => run_over(alloc, bundle, &[ScriptStep::History], sink, disk),
        Command::Gen { .. } => sum_over(alloc, bundle, steps.as_slice(), sink, disk),
    }
}

// Does the steps with what a bundle declares, over the journal on a disk.
fn run_over<K: Sink, D: Disk>(
    alloc: Global,
    bundle: Bundle,
    steps: &[ScriptStep],
    sink: &mut K,
    disk: D,
) -> Ended<D>
    requires bundle { IsBundle bundle }
    requires short { length bundle.decls.text < 2 ^ 32 }
    requires allowed { IsTrue (list_all (is_step bundle.decls) steps.now) }
    ensures ends { (before after : Option (List ℕ)) → EndsOrNeverBegins D.disk
        (record { decls = bundle.decls; steps = steps.now })
        (record { left = before; held = K.sink.held sink.old; disk = disk })
        (record { left = after; held = K.sink.held sink.new; disk = result.disk })
        result.status }
    ensures write { IsErrOf result.status Stop.WriteFault → Rose (K.sink.faults sink.old) (K.sink.faults sink.new) }
    ensures journal { IsErrOf result.status Stop.JournalFault → Rose (D.disk.faults disk) (D.disk.faults result.disk) }
    ensures causes { IfErr result.status IsRunStop }
{
    match World::open(alloc, bundle, disk, LARGEST_JOURNAL) {
        Ok(world) => run_script(alloc, world, steps, sink),
        Err((why, disk)) => Ended::at(disk, stop_of_world(why), Notes::none(alloc)),
    }
}
