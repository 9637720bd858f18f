//! The run of a bundle that was made, and its summary.
ghost use Rattle.std.specs.Prelude.{◌≡◌, ◌<◌, ◌^◌, ◌++◌, ℕ, IfErr, IfOk, IsErrOf, IsTrue, List, MatchOption, None, OnOk, Option, count_by, length, true};
ghost use Rattle.std.specs.Fmt.{decimal};
ghost use Rattle.std.specs.List.{list_all};
ghost use Rattle.std.specs.Option.{option_map_or};
ghost use Rattle.std.specs.String.{string_bytes};
ghost use Rattle.orc_bundle.specs.Bundles.{IsBundle};
ghost use Rattle.orc_decls.specs.declared.declarations.Decls.{Decls};
ghost use Rattle.orc_io.specs.Counts.{Rose};
ghost use Rattle.orc_run.specs.Ends.{WroteSummary};
ghost use Rattle.orc_run.specs.Summaries.{is_call_line, is_commit, summary_text};
ghost use Rattle.orc_run.specs.declared.opening.TheConstants.{LARGEST_JOURNAL};
ghost use Rattle.orc_run.specs.declared.stop.Stop.{Stop};
ghost use Rattle.orc_run.specs.inside.Inputs.{IsRunStop};
ghost use Rattle.orc_run.specs.inside.Sums.{SumsFrom, SumsOrNeverBegins, counted, counts_in, items_over};
ghost use Rattle.orc_script.specs.Steps.{is_step};
ghost use Rattle.orc_text.specs.Counts.{capped};
ghost use Rattle.orc_scene.specs.Begins.{HasBegun};
ghost use Rattle.orc_scene.specs.Effects.{hub_in};
ghost use Rattle.orc_world.specs.Scripts.{TakesAnyLine};
ghost use Rattle.orc_scene.specs.Stands.{HasDisk, decls_in, is_somewhere};

use crate::laws::read_back_runs_have_the_headline;
use crate::notes::bytes_after_end;
use crate::opening::LARGEST_JOURNAL;
use crate::stop::stop_of_world;
use crate::{Done, Ended, Notes, Stop};
use orc_call::Answer;
use orc_declarations::Bundle;
use orc_disk::Disk;
use orc_io::{Sink, write_whole};
use orc_node::Link;
use orc_print::Transcript;
use orc_rules::Event;
use orc_script::ScriptStep;
use orc_text::Memory;
use orc_world::World;
use std::alloc::Global;

/// Does the steps with what a bundle declares, over the journal on a disk, and prints a summary alone.
pub(crate) fn sum_over<K: Sink, D: Disk>(
    alloc: Global,
    bundle: Bundle,
    steps: &[ScriptStep],
    sink: &mut K,
    disk: D,
) -> Ended<D>
    requires bundle { IsBundle bundle }
    requires short { length bundle.decls.text < 2 ^ 32 }
    requires allowed { IsTrue (list_all (is_step bundle.decls) steps.now) }
    ensures ends { (before after : Option (List ℕ)) → SumsOrNeverBegins D.disk
        (record { decls = bundle.decls; steps = steps.now })
        (record { left = before; held = K.sink.held sink.old; disk = disk })
        (record { left = after; held = K.sink.held sink.new; disk = result.disk })
        result.status }
    ensures write { IsErrOf result.status Stop.WriteFault → Rose (K.sink.faults sink.old) (K.sink.faults sink.new) }
    ensures journal { IsErrOf result.status Stop.JournalFault → Rose (D.disk.faults disk) (D.disk.faults result.disk) }
    ensures causes { IfErr result.status IsRunStop }
{
    match World::open(alloc, bundle, disk, LARGEST_JOURNAL) {
        Ok(world) => sum_run(alloc, world, steps, sink),
        Err((why, disk)) => Ended::at(disk, stop_of_world(why), Notes::none(alloc)),
    }
}

// Does the lines of a script in a world that has begun, and prints the summary after them.
fn sum_run<K: Sink, D: Disk>(
    alloc: Global,
    world: World<D>,
    steps: &[ScriptStep],
    sink: &mut K,
) -> Ended<D>
    requires going { TakesAnyLine D.disk world.scene }
    requires allowed { MatchOption (decls_in world.scene.place) ⊥
        (λ decls. IsTrue (list_all (is_step decls) steps.now)) }
    requires begun { (decls : Decls) × (from : D) × HasBegun D.disk decls from LARGEST_JOURNAL world.scene }
    ensures ends { (decls : Decls) (from : D) → HasBegun D.disk decls from LARGEST_JOURNAL world.scene
        → SumsFrom D.disk decls from (K.sink.held sink.old) (K.sink.held sink.new) steps.now
        result.disk result.status }
    ensures write { IsErrOf result.status Stop.WriteFault → Rose (K.sink.faults sink.old) (K.sink.faults sink.new) }
    ensures causes { IfErr result.status IsRunStop }
{
    read_back_runs_have_the_headline::<D>();
    let mut world = world;
    let after_end = bytes_after_end(&world);
    let mut out = Transcript::new(alloc);
    match world.run_steps(steps, &mut out) {
        Ok(()) => sum_up(alloc, world, after_end, steps, sink),
        Err(why) => {
            let notes = Notes::of_world(alloc, &world, after_end);
            Ended::at(world.into_disk(), stop_of_world(why), notes)
        }
    }
}

// Hands back the disk of a world in which a script was run, and prints the summary of that.
fn sum_up<K: Sink, D: Disk>(
    alloc: Global,
    world: World<D>,
    after_end: u64,
    steps: &[ScriptStep],
    sink: &mut K,
) -> Ended<D>
    requires { is_somewhere world.scene.place ≡ true }
    ensures disk { HasDisk world.scene.place result.disk }
    ensures wrote { WroteSummary (K.sink.held sink.old) (K.sink.held sink.new)
        (summary_text (counts_in steps.now world.scene)) None result.status }
    ensures write { IsErrOf result.status Stop.WriteFault → Rose (K.sink.faults sink.old) (K.sink.faults sink.new) }
    ensures causes { IfErr result.status IsRunStop }
{
    let status = write_summary(alloc, steps, &world, sink);
    let notes = Notes::of_world(alloc, &world, after_end);
    Ended {
        disk: world.into_disk(),
        status,
        notes,
    }
}

// Writes the summary of a world in which these steps were done.
fn write_summary<K: Sink, D: Disk>(
    alloc: Global,
    steps: &[ScriptStep],
    world: &World<D>,
    sink: &mut K,
) -> Result<Done, Stop>
    ensures wrote { WroteSummary (K.sink.held sink.old) (K.sink.held sink.new)
        (summary_text (counts_in steps.now world.now.scene)) None result }
    ensures write { IsErrOf result Stop.WriteFault → Rose (K.sink.faults sink.old) (K.sink.faults sink.new) }
    ensures causes { IfErr result IsRunStop }
{
    let text = match summary(alloc, steps, world) {
        Ok(text) => text,
        Err(Memory) => return Err(Stop::Memory),
    };
    match write_whole(sink, text.as_slice()) {
        Ok(()) => Ok(Done),
        Err(_) => Err(Stop::WriteFault),
    }
}

// The summary of a world in which these steps were done.
fn summary<D: Disk>(
    alloc: Global,
    steps: &[ScriptStep],
    world: &World<D>,
) -> Result<Vec<u8>, Memory>
    ensures { IfOk result (λ text. text.items ≡ summary_text (counts_in steps.now world.now.scene)) }
{
    let calls = calls_in(steps);
    let committed = commits_in(world.events());
    let entries = entries_in(world);
    let items = items_over(world.links());
    summary_of(alloc, calls, committed, entries, items)
}

// The summary of these counts.
fn summary_of(
    alloc: Global,
    calls: u64,
    committed: u64,
    entries: u64,
    items: u64,
) -> Result<Vec<u8>, Memory>
    ensures { IfOk result (λ text. text.items ≡ summary_text (counted calls committed entries items)) }
{
    let mut out = String::new(alloc);
    push_count(&mut out, alloc, "calls ", calls)?;
    push_count(&mut out, alloc, " committed ", committed)?;
    push_count(
        &mut out,
        alloc,
        " refused ",
        calls.saturating_sub(committed),
    )?;
    push_count(&mut out, alloc, "\nhistory ", entries)?;
    push_count(&mut out, alloc, "\nitems ", items)?;
    out.push_str("\n")?;
    Ok(out.into_bytes())
}

// Adds a word and a count.
fn push_count(out: &mut String, alloc: Global, word: &str, count: u64) -> Result<(), Memory>
    ensures { OnOk result (string_bytes out.new ≡ string_bytes out.old ++ word.now ++ decimal count) }
{
    out.push_str(word)?;
    out.push_str(count.to_string(alloc)?.as_str())?;
    Ok(())
}

// How many of the steps are calls.
fn calls_in(steps: &[ScriptStep]) -> u64
    ensures { result ≡ capped (count_by is_call_line steps.now) }
{
    let mut count: u64 = 0;
    for step in steps {
        if is_call_line(step) {
            count = count.saturating_add(1);
        }
    }
    count
}

fn is_call_line(step: &ScriptStep) -> bool
    ensures { result ≡ is_call_line step.now }
{
    matches!(step, ScriptStep::Call(_))
}

// How many of the events answer a call that it is committed.
fn commits_in(events: &[Event]) -> u64
    ensures { result ≡ capped (count_by is_commit events.now) }
{
    let mut count: u64 = 0;
    for event in events {
        if is_commit(event) {
            count = count.saturating_add(1);
        }
    }
    count
}

fn is_commit(event: &Event) -> bool
    ensures { result ≡ is_commit event.now }
{
    match event {
        Event::Submit(_, _, Some(Answer::Committed(_))) => true,
        Event::Admit(_, Some(Answer::Committed(_))) => true,
        Event::Decide(_, Answer::Committed(_)) => true,
        _ => false,
    }
}

// How many entries the history has, where a hub is up.
fn entries_in<D: Disk>(world: &World<D>) -> u64
    ensures { result ≡ option_map_or (λ hub. length hub.state.history) (hub_in world.now.scene.place) 0 }
{
    match world.hub() {
        Some(hub) => hub.state().history().len() as u64,
        None => 0,
    }
}

// How many items the devices run together.
fn items_over(links: &[Link]) -> u64
    ensures { result ≡ capped (items_over links.now) }
{
    let mut count: u64 = 0;
    for link in links {
        count = count.saturating_add(link.node().running().len());
    }
    count
}
