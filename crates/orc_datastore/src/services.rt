//! Which actions create a service that lives, or name one that doesn't.
ghost use Rattle.std.specs.Prelude.{◌≡◌, All, IfOk, IsTrue, Some, None, if◌then◌else◌};
ghost use Rattle.orc_call.specs.declared.answer.Answer.TheVariants.{Exists, Missing};
ghost use Rattle.orc_path.specs.Alphabet.{is_key};
ghost use Rattle.orc_datastore.specs.Next.{service_fault, first_service_fault};
ghost use Rattle.orc_datastore.specs.inside.Sights.{knows_service, service_key};

use crate::known::knows_service;
use orc_call::{Action, Answer};
use orc_text::{Memory, Text};
use orc_tree::Tree;
use std::alloc::Global;

// The answer to the creation of a service of this name, where one lives.
fn exists(alloc: Global, known: &Tree, id: &Text) -> Result<Option<Answer>, Memory>
    requires { IsTrue (is_key id.now) }
    ensures { IfOk result (λ found. found ≡ (if knows_service known.now id.now then Some (Exists id.now) else None)) }
{
    if knows_service(alloc, known, id)? {
        return Ok(Some(Answer::Exists(id.copy(alloc)?)));
    }
    Ok(None)
}

// The answer to an action on the service of this name, where none lives.
fn missing(alloc: Global, known: &Tree, id: &Text) -> Result<Option<Answer>, Memory>
    requires { IsTrue (is_key id.now) }
    ensures { IfOk result (λ found. found ≡ (if knows_service known.now id.now then None else Some (Missing id.now))) }
{
    if knows_service(alloc, known, id)? {
        return Ok(None);
    }
    Ok(Some(Answer::Missing(id.copy(alloc)?)))
}

// The answer to an action that creates a service that lives, or names one that doesn't.
fn existence_of(alloc: Global, known: &Tree, action: &Action) -> Result<Option<Answer>, Memory>
    requires { IsTrue (service_key action.now) }
    ensures { IfOk result (λ found. found ≡ service_fault (knows_service known.now) action.now) }
{
    match action {
        Action::Create(id, _) | Action::Literal(id, _) => exists(alloc, known, id),
        Action::Modify(id, _) | Action::Redeploy(id) | Action::Delete(id) => {
            missing(alloc, known, id)
        }
        // The other kinds name no service.
        _ => Ok(None),
    }
}

/// The answer to the first action that creates a service that lives, or names one that doesn't.
pub(crate) fn existence(
    alloc: Global,
    known: &Tree,
    actions: &[Action],
) -> Result<Option<Answer>, Memory>
    requires { All (λ action. IsTrue (service_key action)) actions.now }
    ensures { IfOk result (λ found. found ≡ first_service_fault (knows_service known.now) actions.now) }
{
    for action in actions {
        if let Some(found) = existence_of(alloc, known, action)? {
            return Ok(Some(found));
        }
    }
    Ok(None)
}
