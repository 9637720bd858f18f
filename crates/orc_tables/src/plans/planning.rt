//! The calls of a bundle, each planned on a snapshot, checked on the present state and committed.
ghost use Rattle.std.specs.Prelude.{◌≡◌, IfOk, IsTrue};
ghost use Rattle.std.specs.List.{list_all};
ghost use Rattle.orc_call.specs.declared.call.Call.{Call};
ghost use Rattle.orc_script.specs.Steps.{is_step};
ghost use Rattle.orc_script.specs.declared.step.ScriptStep.TheVariants as ScriptStep;
ghost use Rattle.orc_bundle.specs.Bundles.{IsScripted};
ghost use Rattle.orc_decls.specs.Calls.{is_call};
ghost use Rattle.orc_decls.specs.Declarations.{AreDecls};
ghost use Rattle.orc_datastore.specs.Legal.{IsNew};
ghost use Rattle.orc_state.specs.Checks.{CanCommit};
ghost use Rattle.orc_state.specs.States.{IsPlanAt, IsSnapshotAt, IsStateUnder};
ghost use Rattle.orc_tables.specs.Benches.{IsBench};

use crate::plans::shown::{push_answer, push_call, push_changes, push_number, push_plan};
use orc_bundle::{ScriptStep, ScriptedBundle};
use orc_call::{Answer, Call};
use orc_datastore::{Plan, Snapshot};
use orc_decls::Decls;
use orc_queue::Held;
use orc_state::{State, passed_can_commit, plan_is_at_front, snapshot_stays_at_front};
use orc_text::Memory;
use std::alloc::Global;
use std::mem;

/// When the snapshot is taken on which a call is planned: right before it, before the call before it, or
/// at the opening.
#[derive(Clone, Copy)]
pub enum When {
    Now,
    Late,
    First,
}

/// The state after the calls so far; the snapshot of the opening, the one that was taken before the last
/// call but one, and the one before the last; and what the last one holds.
#[derive(Drop)]
pub struct Bench {
    pub state: State,
    pub first: Snapshot,
    pub older: Snapshot,
    pub newer: Snapshot,
    pub held: Option<Held>,
}

/// Adds the plans of a bundle's calls and what comes of them. Each call is planned so many times besides
/// on snapshots that are taken for it and dropped, or, on the snapshot of the opening, checked so many
/// times where it expands a service.
pub(crate) fn push_bundle(
    alloc: Global,
    out: &mut String,
    bundle: &ScriptedBundle,
    when: When,
    times: u32,
) -> Result<(), Memory>
    requires { IsScripted bundle.now }
{
    let steps = bundle.steps.as_slice();
    push_steps(alloc, out, &bundle.decls, steps, when, times)
}

// Adds the plans of the calls in these steps and what comes of them.
fn push_steps(
    alloc: Global,
    out: &mut String,
    decls: &Decls,
    steps: &[ScriptStep],
    when: When,
    times: u32,
) -> Result<(), Memory>
    requires decls { AreDecls decls.now }
    requires steps { IsTrue (list_all (is_step decls.now) steps.now) }
{
    let mut bench = opened(alloc, decls)?;
    for step in steps {
        take_step(alloc, out, decls, &mut bench, step, when, times)?;
    }
    Ok(())
}

// Takes a step, where it is a call.
fn take_step(
    alloc: Global,
    out: &mut String,
    decls: &Decls,
    bench: &mut Bench,
    step: &ScriptStep,
    when: When,
    times: u32,
) -> Result<(), Memory>
    requires decls { AreDecls decls.now }
    requires call { (call : Call) → step.now ≡ ScriptStep.Call call → IsTrue (is_call decls.now call) }
    requires bench { IsBench decls.now bench.old }
    ensures { IsBench decls.now bench.new }
{
    match step {
        ScriptStep::Call(call) => take(alloc, out, decls, bench, call, when, times),
        _ => Ok(()),
    }
}

// The opening state.
fn opened(alloc: Global, decls: &Decls) -> Result<Bench, Memory>
    requires { AreDecls decls.now }
    ensures { IfOk result (IsBench decls.now) }
{
    let state = State::start(alloc, decls)?;
    let first = state.snapshot(alloc)?;
    let older = state.snapshot(alloc)?;
    let newer = state.snapshot(alloc)?;
    Ok(Bench {
        state,
        first,
        older,
        newer,
        held: None,
    })
}

// Adds a call with its plan and what comes of it.
fn take(
    alloc: Global,
    out: &mut String,
    decls: &Decls,
    bench: &mut Bench,
    call: &Call,
    when: When,
    times: u32,
) -> Result<(), Memory>
    requires decls { AreDecls decls.now }
    requires call { IsTrue (is_call decls.now call.now) }
    requires bench { IsBench decls.now bench.old }
    ensures { IsBench decls.now bench.new }
{
    push_call(alloc, out, call)?;
    renew(alloc, decls, bench)?;
    match bench.state.repeated(alloc, call)? {
        Some(answer) => push_answer(alloc, out, &answer),
        None => take_new(alloc, out, decls, bench, call, when, times),
    }
}

// Adds the plan of a call that is new, and what comes of it.
fn take_new(
    alloc: Global,
    out: &mut String,
    decls: &Decls,
    bench: &mut Bench,
    call: &Call,
    when: When,
    times: u32,
) -> Result<(), Memory>
    requires decls { AreDecls decls.now }
    requires call { IsTrue (is_call decls.now call.now) }
    requires bench { IsBench decls.now bench.old }
    requires new { IsNew bench.old.state.history call.now }
    ensures { IsBench decls.now bench.new }
{
    match planned_when(alloc, decls, bench, call, when, times)? {
        Ok(plan) => serve(alloc, out, decls, bench, call, when, times, plan),
        Err(answer) => {
            bench.held = None;
            push_answer(alloc, out, &answer)
        }
    }
}

// Takes a snapshot of the present state.
fn renew(alloc: Global, decls: &Decls, bench: &mut Bench) -> Result<(), Memory>
    requires { IsBench decls.now bench.old }
    ensures { IsBench decls.now bench.new }
{
    let now = bench.state.snapshot(alloc)?;
    bench.older = mem::replace(&mut bench.newer, now);
    Ok(())
}

// The plan of a call on the snapshot that is asked for.
fn planned_when(
    alloc: Global,
    decls: &Decls,
    bench: &Bench,
    call: &Call,
    when: When,
    times: u32,
) -> Result<Result<Plan, Answer>, Memory>
    requires decls { AreDecls decls.now }
    requires call { IsTrue (is_call decls.now call.now) }
    requires bench { IsBench decls.now bench.now }
    ensures { IfOk result (λ found. IfOk found (IsPlanAt decls.now bench.now.state.history call.now)) }
{
    match when {
        When::First => planned(alloc, decls, &bench.state, &bench.first, call),
        When::Late => planned(alloc, decls, &bench.state, &bench.older, call),
        When::Now => planned_now(alloc, decls, &bench.state, call, times),
    }
}

// The plan of a call on a snapshot at a front of the state's history.
fn planned(
    alloc: Global,
    decls: &Decls,
    state: &State,
    snapshot: &Snapshot,
    call: &Call,
) -> Result<Result<Plan, Answer>, Memory>
    requires decls { AreDecls decls.now }
    requires call { IsTrue (is_call decls.now call.now) }
    requires snapshot { IsSnapshotAt decls.now state.now.history snapshot.now }
    ensures { IfOk result (λ found. IfOk found (IsPlanAt decls.now state.now.history call.now)) }
{
    plan_is_at_front();
    snapshot.plan(alloc, decls, call)
}

// The plan of a call on the present state, which it is planned on so many times besides.
fn planned_now(
    alloc: Global,
    decls: &Decls,
    state: &State,
    call: &Call,
    times: u32,
) -> Result<Result<Plan, Answer>, Memory>
    requires decls { AreDecls decls.now }
    requires call { IsTrue (is_call decls.now call.now) }
    requires state { IsStateUnder decls.now state.now }
    ensures { IfOk result (λ found. IfOk found (IsPlanAt decls.now state.now.history call.now)) }
{
    for _ in 0..times {
        let _found = planned_once(alloc, decls, state, call)?;
    }
    planned_once(alloc, decls, state, call)
}

// The plan of a call on a snapshot that is taken for it.
fn planned_once(
    alloc: Global,
    decls: &Decls,
    state: &State,
    call: &Call,
) -> Result<Result<Plan, Answer>, Memory>
    requires decls { AreDecls decls.now }
    requires call { IsTrue (is_call decls.now call.now) }
    requires state { IsStateUnder decls.now state.now }
    ensures { IfOk result (λ found. IfOk found (IsPlanAt decls.now state.now.history call.now)) }
{
    let snapshot = state.snapshot(alloc)?;
    planned(alloc, decls, state, &snapshot, call)
}

// Checks a call that expands a service so many times.
fn check_again(
    alloc: Global,
    decls: &Decls,
    state: &State,
    call: &Call,
    plan: &Plan,
    times: u32,
) -> Result<(), Memory>
    requires decls { AreDecls decls.now }
    requires call { IsTrue (is_call decls.now call.now) }
    requires state { IsStateUnder decls.now state.now }
    requires plan { IsPlanAt decls.now state.now.history call.now plan.now }
{
    if plan.expansions.is_empty() {
        return Ok(());
    }
    for _ in 0..times {
        let _found = state.check(alloc, decls, call, plan)?;
    }
    Ok(())
}

// Adds what comes of a planned call, and keeps what it holds.
fn serve(
    alloc: Global,
    out: &mut String,
    decls: &Decls,
    bench: &mut Bench,
    call: &Call,
    when: When,
    times: u32,
    plan: Plan,
) -> Result<(), Memory>
    requires decls { AreDecls decls.now }
    requires call { IsTrue (is_call decls.now call.now) }
    requires bench { IsBench decls.now bench.old }
    requires plan { IsPlanAt decls.now bench.old.state.history call.now plan }
    requires new { IsNew bench.old.state.history call.now }
    ensures { IsBench decls.now bench.new }
{
    match show(alloc, out, decls, bench, call, when, times, &plan) {
        Ok(()) => {
            bench.held = Some(plan.into_held());
            Ok(())
        }
        Err(Memory) => Err(Memory),
    }
}

// Adds a plan and whether it fits with the one before, checks its call and commits it.
fn show(
    alloc: Global,
    out: &mut String,
    decls: &Decls,
    bench: &mut Bench,
    call: &Call,
    when: When,
    times: u32,
    plan: &Plan,
) -> Result<(), Memory>
    requires decls { AreDecls decls.now }
    requires call { IsTrue (is_call decls.now call.now) }
    requires bench { IsBench decls.now bench.old }
    requires plan { IsPlanAt decls.now bench.old.state.history call.now plan.now }
    requires new { IsNew bench.old.state.history call.now }
    ensures { IsBench decls.now bench.new }
{
    push_plan(alloc, out, plan, decls.names())?;
    push_fit(out, plan, &bench.held)?;
    if let When::First = when {
        check_again(alloc, decls, &bench.state, call, plan, times)?;
    }
    check(alloc, out, decls, bench, call, plan)
}

// Checks a call, and commits it.
fn check(
    alloc: Global,
    out: &mut String,
    decls: &Decls,
    bench: &mut Bench,
    call: &Call,
    plan: &Plan,
) -> Result<(), Memory>
    requires decls { AreDecls decls.now }
    requires call { IsTrue (is_call decls.now call.now) }
    requires bench { IsBench decls.now bench.old }
    requires plan { IsPlanAt decls.now bench.old.state.history call.now plan.now }
    requires new { IsNew bench.old.state.history call.now }
    ensures { IsBench decls.now bench.new }
{
    passed_can_commit();
    match bench.state.check(alloc, decls, call, plan)? {
        Ok(sets) => {
            push_changes(alloc, out, decls.names(), sets.as_slice())?;
            commit(alloc, out, decls, bench, call, plan)
        }
        Err(answer) => push_answer(alloc, out, &answer),
    }
}

// Commits a call.
#[tactic(auto, using(crate::proofs::Benching::committed_bench))]
fn commit(
    alloc: Global,
    out: &mut String,
    decls: &Decls,
    bench: &mut Bench,
    call: &Call,
    plan: &Plan,
) -> Result<(), Memory>
    requires decls { AreDecls decls.now }
    requires call { IsTrue (is_call decls.now call.now) }
    requires bench { IsBench decls.now bench.old }
    requires ready { CanCommit decls.now bench.old.state.history call.now plan.now }
    ensures { IsBench decls.now bench.new }
{
    snapshot_stays_at_front();
    match bench.state.commit(alloc, decls, call.copy(alloc)?, plan)? {
        Ok(number) => push_number(alloc, out, number),
        Err(answer) => push_answer(alloc, out, &answer),
    }
}

// Adds whether what a plan holds fits with what the call before it holds.
fn push_fit(out: &mut String, plan: &Plan, before: &Option<Held>) -> Result<(), Memory> {
    match before {
        Some(held) => {
            out.push_str(if plan.held.fits(held) {
                "  fits with the call before\n"
            } else {
                "  waits for the call before\n"
            })?;
            Ok(())
        }
        None => Ok(()),
    }
}
