//! The plan of a call: what it holds while it is under way, and what its services write.
ghost use Rattle.std.specs.Prelude.{◌≡◌, ◌++◌, ◌<◌, ◌^◌, All, IfOk, IsTrue, Ok, OnOk, false, length};
ghost use Rattle.std.specs.List.{list_any};
ghost use Rattle.orc_services.specs.Expanded.{is_templated};
ghost use Rattle.orc_services.specs.Fitting.{FitActions, fits_action};
ghost use Rattle.orc_datastore.specs.inside.Sights.{all_expansions, expansions_by, literal_parts, planned_known, service_key};

use crate::expanding::expanded_reading;
use crate::expansion::{gathered, written_by};
use crate::held::held;
use orc_call::{Action, Answer};
use orc_decls::Decls;
use orc_expr::ReadSet;
use orc_queue::Held;
use orc_services::any_templated;
use orc_template::Expansion;
use orc_text::{Memory, Row, Text};
use orc_tree::Tree;
use std::alloc::Global;

/// The plan of a call: the front of the snapshot that it was made on; what the call holds; for each
/// service of a list that it creates, modifies or redeploys, in the order of the actions, what its
/// expansion writes on each device; and the data of that snapshot with the call, which is valid. What a
/// literal service writes stands in the call itself.
pub struct Plan {
    pub front: u64,
    pub held: Held,
    pub expansions: Row<(Text, Expansion)>,
    pub next: Tree,
}

// Written out, so that a crate above lets a plan go by one call.
impl Drop for Plan {
    fn drop(self) {
        let Plan {
            front: _,
            held: _,
            expansions: _,
            next: _,
        } = self;
    }
}

impl Plan {
    /// What the call holds, without what its services write.
    pub fn into_held(self) -> Held
        ensures { result ≡ self.held }
    {
        let Plan {
            front: _,
            held,
            expansions: _,
            next: _,
        } = self;
        held
    }
}

// What a literal service writes, by the devices' numbers.
fn literal_parts(alloc: Global, decls: &Decls, action: &Action) -> Result<Expansion, Memory>
    requires fit { IsTrue (fits_action action.now) }
    requires few { length decls.now.names < 2 ^ 32 }
    ensures { IfOk result (λ expansion. expansion ≡ literal_parts decls.now.names action.now) }
{
    match action {
        Action::Literal(_, writes) => {
            let written = written_by(alloc, decls, writes.as_slice())?;
            let parts = gathered(alloc, decls.names().len(), written.as_slice())?;
            Ok(Expansion { parts })
        }
        _ => Ok(Expansion {
            parts: Row::new(alloc),
        }),
    }
}

// Adds the expansion of the service that an action creates, modifies or redeploys, by the action that
// it came to.
fn push_expansion(
    expansions: &mut Row<(Text, Expansion)>,
    alloc: Global,
    decls: &Decls,
    action: &Action,
    made: &Action,
) -> Result<(), Memory>
    requires fit { IsTrue (fits_action made.now) }
    requires few { length decls.now.names < 2 ^ 32 }
    ensures { OnOk result (expansions.new ≡ expansions.old ++ expansions_by decls.now.names action.now made.now) }
{
    match action {
        Action::Create(id, _) | Action::Modify(id, _) | Action::Redeploy(id) => {
            expansions.push((id.copy(alloc)?, literal_parts(alloc, decls, made)?))
        }
        _ => Ok(()),
    }
}

// The expansions of the services that actions create, modify or redeploy, by what these came to.
fn all_expansions(
    alloc: Global,
    decls: &Decls,
    actions: &[Action],
    made: &[Action],
) -> Result<Row<(Text, Expansion)>, Memory>
    requires fit { FitActions made.now }
    requires few { length decls.now.names < 2 ^ 32 }
    ensures { IfOk result (λ expansions. expansions ≡ all_expansions decls.now.names actions.now made.now) }
{
    let mut expansions = Row::new(alloc);
    let mut left = actions;
    for one in made {
        match left {
            [action, later @ ..] => {
                push_expansion(&mut expansions, alloc, decls, action, one)?;
                left = later;
            }
            [] => {}
        }
    }
    Ok(expansions)
}

// The plan of actions for which no template is expanded, with the data after them.
fn planned_alone(
    alloc: Global,
    decls: &Decls,
    known: &Tree,
    front: u64,
    actions: &[Action],
    data: Tree,
) -> Result<Plan, Memory>
    requires keys { All (λ action. IsTrue (service_key action)) actions.now }
    requires few { length decls.now.names < 2 ^ 32 }
    requires alone { list_any is_templated actions.now ≡ false }
    ensures { IfOk result (λ plan. Ok plan ≡ planned_known decls.now known.now front actions.now «data») }
{
    let held = held(alloc, decls, known, actions, actions, ReadSet::new(alloc))?;
    Ok(Plan {
        front,
        held,
        expansions: Row::new(alloc),
        next: data,
    })
}

/// The plan of actions with the data after them, as a snapshot knows the living services, or the first
/// service that can't be expanded.
pub(crate) fn planned_known(
    alloc: Global,
    decls: &Decls,
    known: &Tree,
    front: u64,
    actions: &[Action],
    data: Tree,
) -> Result<Result<Plan, Answer>, Memory>
    requires fit { FitActions actions.now }
    requires keys { All (λ action. IsTrue (service_key action)) actions.now }
    requires few { length decls.now.names < 2 ^ 32 }
    ensures { IfOk result (λ found. found ≡ planned_known decls.now known.now front actions.now «data») }
{
    if !any_templated(actions) {
        return Ok(Ok(planned_alone(alloc, decls, known, front, actions, data)?));
    }
    let mut reads = ReadSet::new(alloc);
    match expanded_reading(alloc, decls, &data, actions, &mut reads)? {
        Ok(made) => {
            let held = held(alloc, decls, known, actions, made.as_slice(), reads)?;
            let expansions = all_expansions(alloc, decls, actions, made.as_slice())?;
            Ok(Ok(Plan {
                front,
                held,
                expansions,
                next: data,
            }))
        }
        Err(answer) => Ok(Err(answer)),
    }
}
