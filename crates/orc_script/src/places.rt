//! What a line says of a device: its name, and after it an item or a path.
ghost use Rattle.std.specs.Prelude.{◌≡◌, ◌||◌, IsTrue, IfOk, is_some};
ghost use Rattle.orc_path.specs.Limits.{is_long_name};
ghost use Rattle.orc_lines.specs.Names.{is_among, place_of};
ghost use Rattle.orc_decls.specs.Calls.{is_base_path, is_path_under, is_write, schema_named};
ghost use Rattle.orc_typed.specs.Typed.{canonical_path};
ghost use Rattle.orc_script.specs.Steps.{is_step};
ghost use Rattle.orc_script.specs.Places.{base_path_of, device_item_of, device_node_of, device_path_of, is_no_word, is_node_path, names_node, node_path_of, stored_base_path, stored_node_path};
ghost use Rattle.orc_decls.specs.Declarations.{AreDecls};
ghost use Rattle.orc_script.specs.inside.Places.{carries_own};
ghost use Rattle.orc_lines.specs.Answers.{ReadsLine};

use crate::step::ScriptStep;
use orc_call::DevicePut;
use orc_decls::{Decls, Rule, blank_item};
use orc_lines::{
    LineFault, Passed, PathForm, breaks, breaks_by, can_carry, cut, long_name, names_list,
    read_kept_path, read_put, stored_path_excess, wrong_item, wrong_path,
};
use orc_path::{Path, is_identifier, is_long_name};
use orc_schema_nodes::Schema;
use orc_text::Text;
use orc_typed::{are_canonical_steps, canonical_path, stand};
use std::alloc::Global;

/// The number of the device of a name.
#[tactic(auto, using(crate::proofs::Lawful::few_names))]
pub(crate) fn device_number(decls: &Decls, name: &Text) -> Option<u32>
    requires { AreDecls decls.now }
    ensures { result ≡ place_of decls.now.names name.now }
{
    match decls.number_of(name) {
        Some(n) => Some(n as u32),
        None => None,
    }
}

// Whether a device of this name is declared.
fn is_declared(decls: &Decls, name: &Text) -> bool
    ensures { result ≡ is_among decls.now.names name.now }
{
    decls.number_of(name).is_some()
}

/// `D ITEM`: an item of a declared device, stored in canonical form.
#[tactic(auto, unfolding(crate::specs::Places::device_item_of))]
pub(crate) fn read_device_item(
    alloc: Global,
    decls: &Decls,
    text: &str,
) -> Result<DevicePut, LineFault>
    requires { AreDecls decls.now }
    ensures reads { ReadsLine (device_item_of decls.now text.now) result }
    ensures lawful { IfOk result (λ put. IsTrue (is_write decls.now put)) }
{
    let Some((name, item)) = cut(text) else {
        return breaks(Rule::Line);
    };
    if !is_identifier(name) {
        return breaks(Rule::Line);
    }
    let device = Text::from_str(alloc, name)?;
    let plain = Schema::plain(alloc);
    let schema = decls.schema_named(&device, &plain);
    let put = read_put(alloc, None, schema, long_name(name), item)?;
    if !is_declared(decls, &device) {
        return breaks(Rule::Unknown);
    }
    Ok(DevicePut {
        device,
        path: put.path,
        item: put.item,
    })
}

// Whether a word is missing, or one too many stands there.
fn is_no_word(text: &str) -> bool
    ensures { result ≡ is_no_word text.now }
{
    text.is_empty() || cut(text).is_some()
}

// Whether the path can carry an item under the schema and its keys are in canonical form.
fn carries_own(alloc: Global, schema: &Schema, path: &Path) -> bool
    ensures { result ≡ carries_own schema.now path.now }
{
    can_carry(schema, path, &blank_item(alloc, path))
        && (schema.is_plain() || are_canonical_steps(schema, path.steps.as_slice()))
}

// Whether the path can carry an item, keeps the limits, and has its keys in canonical form.
#[tactic(auto, using(crate::proofs::BasePaths::path_parts))]
fn is_path_under(alloc: Global, schema: &Schema, path: &Path) -> bool
    ensures { result ≡ is_path_under schema.now path.now }
{
    // Looked into, so that the proof knows that it is a path.
    let _steps = path.steps.len();
    !path.is_long() && carries_own(alloc, schema, path)
}

// A path that can carry an item, in canonical form.
fn stored_base_path(alloc: Global, schema: &Schema, path: &Path) -> Result<Path, LineFault>
    ensures reads { ReadsLine (stored_base_path schema.now (canonical_path schema.now path.now)) result }
    ensures lawful { IfOk result (λ own. IsTrue (is_path_under schema.now own)) }
{
    let Some(own) = canonical_path(alloc, schema, path)? else {
        return breaks_by(Rule::Value, wrong_item(alloc, schema, path, None)?);
    };
    if !is_path_under(alloc, schema, &own) {
        return breaks_by(Rule::Size, stored_path_excess(own));
    }
    Ok(own)
}

// A path that can carry an item of a device's base. A name before it may be too long.
fn read_base_path(
    alloc: Global,
    schema: &Schema,
    passed: Option<Passed<'_>>,
    word: &str,
) -> Result<Path, LineFault>
    ensures reads { ReadsLine (base_path_of schema.now (is_some passed.entry) word.now) result }
    ensures lawful { IfOk result (λ path. IsTrue (is_path_under schema.now path)) }
{
    if is_no_word(word) {
        return breaks(Rule::Line);
    }
    let path = read_kept_path(alloc, passed, word)?;
    if !can_carry(schema, &path, &blank_item(alloc, &path)) {
        return breaks_by(
            Rule::Path,
            wrong_path(alloc, None, schema, PathForm::Item, &path)?,
        );
    }
    stored_base_path(alloc, schema, &path)
}

/// `D PATH`: a declared device and a path that can carry an item of its base, in canonical form.
#[tactic(auto, unfolding(crate::specs::Places::device_path_of))]
pub(crate) fn read_device_path(
    alloc: Global,
    decls: &Decls,
    text: &str,
) -> Result<(Text, Path), LineFault>
    requires { AreDecls decls.now }
    ensures reads { ReadsLine (device_path_of decls.now text.now) result }
    ensures lawful { IfOk result (λ named. IsTrue (is_base_path decls.now named.0 named.1)) }
{
    let Some((name, word)) = cut(text) else {
        return breaks(Rule::Line);
    };
    if !is_identifier(name) {
        return breaks(Rule::Line);
    }
    let device = Text::from_str(alloc, name)?;
    let plain = Schema::plain(alloc);
    let schema = decls.schema_named(&device, &plain);
    let path = read_base_path(alloc, schema, long_name(name), word)?;
    if !is_declared(decls, &device) {
        return breaks(Rule::Unknown);
    }
    Ok((device, path))
}

// Whether the path is one of the schema, whatever its texts. It takes no memory.
fn names_node(schema: &Schema, path: &Path) -> bool
    ensures { result ≡ names_node schema.now path.now }
{
    schema.is_plain() || (stand(schema, path.steps.as_slice()) || names_list(schema, path))
}

// Whether it is one that can be stored: it keeps the limits, and its keys are in canonical form.
fn is_node_path(schema: &Schema, path: &Path) -> bool
    ensures { result ≡ is_node_path schema.now path.now }
{
    let steps = path.steps.as_slice();
    if path.is_long() {
        return false;
    }
    schema.is_plain() || (names_node(schema, path) && are_canonical_steps(schema, steps))
}

// A path of a schema, in canonical form.
fn stored_node_path(alloc: Global, schema: &Schema, path: &Path) -> Result<Path, LineFault>
    ensures reads { ReadsLine (stored_node_path schema.now (canonical_path schema.now path.now)) result }
    ensures lawful { IfOk result (λ own. IsTrue (is_node_path schema.now own)) }
{
    let Some(own) = canonical_path(alloc, schema, path)? else {
        return breaks_by(Rule::Value, wrong_item(alloc, schema, path, None)?);
    };
    if !is_node_path(schema, &own) {
        return breaks_by(Rule::Size, stored_path_excess(own));
    }
    Ok(own)
}

// What passes a limit before a path: the name, or the steps, of which there are so many where no more can be.
fn passed_before(name: &str, full: Option<u64>) -> Option<Passed<'_>>
    ensures { is_some result ≡ (is_long_name name.now || is_some full) }
{
    if is_long_name(name) {
        return Some(Passed::Name(name));
    }
    match full {
        Some(count) => Some(Passed::Steps(count)),
        None => None,
    }
}

// Any path of a schema. What stands before it may pass a limit.
fn read_node_path(
    alloc: Global,
    schema: &Schema,
    passed: Option<Passed<'_>>,
    word: &str,
) -> Result<Path, LineFault>
    ensures reads { ReadsLine (node_path_of schema.now (is_some passed.entry) word.now) result }
    ensures lawful { IfOk result (λ path. IsTrue (is_node_path schema.now path)) }
{
    if is_no_word(word) {
        return breaks(Rule::Line);
    }
    let path = read_kept_path(alloc, passed, word)?;
    if !names_node(schema, &path) {
        return breaks_by(
            Rule::Path,
            wrong_path(alloc, None, schema, PathForm::Node, &path)?,
        );
    }
    stored_node_path(alloc, schema, &path)
}

/// `D PATH`: the number of a declared device and any path that its schema has, in canonical form.
/// There may be no room for a step more than so many.
#[tactic(auto, unfolding(crate::specs::Places::device_node_of))]
pub(crate) fn read_device_node(
    alloc: Global,
    decls: &Decls,
    full: Option<u64>,
    text: &str,
) -> Result<(u32, Path), LineFault>
    requires { AreDecls decls.now }
    ensures reads { ReadsLine (device_node_of decls.now (is_some full) text.now) result }
    ensures lawful { IfOk result (λ node. IsTrue (is_step decls.now (ScriptStep.Meta node.0 node.1))) }
{
    let Some((name, word)) = cut(text) else {
        return breaks(Rule::Line);
    };
    if !is_identifier(name) {
        return breaks(Rule::Line);
    }
    let device = Text::from_str(alloc, name)?;
    let plain = Schema::plain(alloc);
    let schema = decls.schema_named(&device, &plain);
    let path = read_node_path(alloc, schema, passed_before(name, full), word)?;
    let Some(n) = device_number(decls, &device) else {
        return breaks(Rule::Unknown);
    };
    Ok((n, path))
}
