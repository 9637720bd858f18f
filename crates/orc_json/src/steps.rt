//! Names and paths below others.
ghost use Rattle.std.specs.Prelude.{◌≡◌, ◌++◌, ◌∷◌, [], IfOk, IsTrue, Some, None, if◌then◌else◌};
ghost use Rattle.std.specs.List.{list_all};
ghost use Rattle.orc_path.specs.Alphabet.{is_identifier, is_qualified, is_key, is_node_name};
ghost use Rattle.orc_path.specs.Steps.{is_name_behind};
ghost use Rattle.orc_json.specs.Findings.{below};

use orc_path::{Name, Path, PathFault, Step, is_identifier};
use orc_text::{Memory, Row, Text};
use std::alloc::Global;

// The text as a name, where it is one.
fn name_of(alloc: Global, text: &str) -> Result<Option<Name>, Memory>
    ensures { IfOk result (λ name. name ≡ (if is_node_name text.now then Some text.now else None)) }
{
    match Name::new(alloc, text) {
        Ok(name) => Ok(Some(name)),
        Err(PathFault::BadPath { at: _ }) => Ok(None),
        Err(PathFault::Memory) => Err(Memory),
    }
}

// The text as a name with its module.
fn first_name(alloc: Global, text: &str) -> Result<Option<Name>, Memory>
    ensures { IfOk result (λ name. name ≡ (if is_qualified text.now then Some text.now else None)) }
{
    if is_identifier(text) {
        Ok(None)
    } else {
        name_of(alloc, text)
    }
}

// The text as a name without a module.
fn later_name(alloc: Global, text: &str) -> Result<Option<Name>, Memory>
    ensures { IfOk result (λ name. name ≡ (if is_identifier text.now then Some text.now else None)) }
{
    if is_identifier(text) {
        name_of(alloc, text)
    } else {
        Ok(None)
    }
}

/// The text as a name after these steps, where it may be one.
pub fn name_behind(alloc: Global, at: &Path, text: &str) -> Result<Option<Name>, Memory>
    ensures { IfOk result (λ name. name ≡ (if is_name_behind at.now text.now then Some text.now else None)) }
{
    match at.steps.as_slice() {
        [] => first_name(alloc, text),
        [..] => later_name(alloc, text),
    }
}

/// The path of a name below another one, with keys or none.
pub fn path_below(alloc: Global, at: &Path, name: &Name, keys: Row<Text>) -> Result<Path, Memory>
    requires named { IsTrue (is_name_behind at.now name.now) }
    requires keys { IsTrue (list_all is_key keys) }
    ensures { IfOk result (λ path. path ≡ below at.now name.now keys) }
{
    at.child(
        alloc,
        Step {
            node: name.copy(alloc)?,
            keys,
        },
    )
}

/// The keys of an entry that has one alone, as each entry of a leaf-list has its value (RFC 7950 section 7.7).
/// The error is that memory runs out.
pub fn one_key(alloc: Global, key: Text) -> Result<Row<Text>, Memory>
    ensures { IfOk result (λ keys. keys ≡ key ∷ []) }
{
    let mut keys = Row::new(alloc);
    keys.push(key)?;
    Ok(keys)
}
