//! Steps with one key, and paths of one step. Of these are the entries of the devices and of the living
//! services.
ghost use Rattle.std.specs.Prelude.{◌≡◌, ◌∷◌, [], IfOk, IsTrue};
ghost use Rattle.orc_path.specs.Alphabet.{is_key};
ghost use Rattle.orc_path.specs.Steps.{is_path};

use orc_path::{Name, Path, Step};
use orc_text::{Memory, Row, Text};
use std::alloc::Global;

// The name of a node. Each text that is asked for is one, so it fails only where memory runs out.
fn name_of(alloc: Global, text: &str) -> Result<Name, Memory>
    ensures { IfOk result (λ name. name ≡ text.now) }
{
    match Name::new(alloc, text) {
        Ok(name) => Ok(name),
        Err(_) => Err(Memory),
    }
}

/// A step with one key.
pub fn step_of(alloc: Global, node: &str, key: Text) -> Result<Step, Memory>
    requires { IsTrue (is_key key) }
    ensures { IfOk result (λ step. step ≡ record { node = node.now; keys = key ∷ [] }) }
{
    let node = name_of(alloc, node)?;
    let mut keys = Row::new(alloc);
    keys.push(key)?;
    Ok(Step { node, keys })
}

/// The path of one step.
pub fn path_of_step(alloc: Global, step: Step) -> Result<Path, Memory>
    requires { IsTrue (is_path (step ∷ [])) }
    ensures { IfOk result (λ path. path ≡ step ∷ []) }
{
    let mut steps = Row::new(alloc);
    steps.push(step)?;
    Ok(Path { steps })
}
