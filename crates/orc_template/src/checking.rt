//! Whether blocks are those of a template.
ghost use Rattle.std.specs.Prelude.{◌≡◌, ◌&&◌, true, codes, IfOk, is_some, option_map};
ghost use Rattle.std.specs.List.{list_all};
ghost use Rattle.std.specs.Option.{option_map_or};
ghost use Rattle.serde_json.specs.Find.{as_array};
ghost use Rattle.orc_value.specs.Canon.{same_text};
ghost use Rattle.serde_json.specs.View.{view as json_view, items_view, members_view};
ghost use Rattle.orc_template.specs.Blocks.{blocks_of, text_of_member};
ghost use Rattle.orc_template.specs.Templates.{member_fits, members_fit, come_together, are_paired, is_block, only_blocks, is_template, node_of_text, condition_resolves, part_resolves, string_resolves, data_resolves, items_resolve, members_resolve, block_node, block_resolves, blocks_fault, template_fault};
ghost use Rattle.orc_template.specs.inside.Machine.{site};
ghost use Rattle.orc_template.specs.inside.Faults.{one_fault};

use crate::blocks::{DEPTH, block_count, blocks_inside, number_behind, text_of};
use crate::fault::TemplateFault;
use crate::readers::{condition, expression};
use crate::strings::{Part, parts_of};
use orc_path::{DataView, Path};
use orc_text::Memory;
use serde_json::{Map, Value};
use std::alloc::Global;

// Whether a member is one of a block.
fn member_fits(name: &str, value: &Value) -> bool
    ensures { result ≡ member_fits name.now (json_view value.now) }
{
    if name == "blocks" {
        return value.is_array();
    }
    if name == "config" {
        return value.is_object();
    }
    if name == "device" {
        return value.is_string();
    }
    if name == "for" {
        return value.is_string();
    }
    if name == "when" {
        return value.is_string();
    }
    false
}

// Whether all members are.
fn members_fit(members: &Map<String, Value>) -> bool
    ensures { result ≡ members_fit (members_view members.now.entries) }
{
    for (name, value) in members.iter() {
        if !member_fits(name.as_str(), value) {
            return false;
        }
    }
    true
}

// Whether there is none of two, or both.
fn come_together(one: Option<&Value>, other: Option<&Value>) -> bool
    ensures { result ≡ come_together (option_map (λ v. json_view v.now) one.entry)
        (option_map (λ v. json_view v.now) other.entry) }
{
    match one {
        Some(_one) => other.is_some(),
        None => other.is_none(),
    }
}

// Whether `device` and `config` come together.
fn are_paired(block: &Value) -> bool
    ensures { result ≡ are_paired (json_view block.now) }
{
    come_together(block.get("device"), block.get("config"))
}

// Whether a JSON value has the members of a block.
fn is_block(block: &Value) -> bool
    ensures { result ≡ is_block (json_view block.now) }
{
    match block.as_object() {
        Some(members) => members_fit(members) && are_paired(block),
        None => false,
    }
}

// Whether a member is that of a template.
fn is_blocks(name: &str, value: &Value) -> bool
    ensures { result ≡ (same_text name.now (codes "blocks") && is_some (as_array (json_view value.now))) }
{
    name == "blocks" && value.is_array()
}

// Whether all members are.
fn only_blocks(members: &Map<String, Value>) -> bool
    ensures { result ≡ only_blocks (members_view members.now.entries) }
{
    for (name, value) in members.iter() {
        if !is_blocks(name.as_str(), value) {
            return false;
        }
    }
    true
}

// Whether a JSON value has the member of a template, and no other.
fn is_template(template: &Value) -> bool
    ensures { result ≡ is_template (json_view template.now) }
{
    match template.as_object() {
        Some(members) => only_blocks(members) && template.get("blocks").is_some(),
        None => false,
    }
}

// The node to which the expression of a text leads.
fn node_of_text<V: DataView>(
    alloc: Global,
    view: &V,
    node: &Path,
    text: &str,
) -> Result<Option<Path>, Memory>
    ensures { IfOk result (λ found. found ≡ node_of_text (site (V.viewed view.now).shapes node.now) text.now) }
{
    match expression(alloc, text)? {
        Some(expr) => expr.resolve(alloc, view, node),
        None => Ok(None),
    }
}

// Whether a text is that of a condition whose expression leads to a node.
fn condition_resolves<V: DataView>(
    alloc: Global,
    view: &V,
    node: &Path,
    text: &str,
) -> Result<bool, Memory>
    ensures { IfOk result
        (λ resolves. resolves ≡ condition_resolves (site (V.viewed view.now).shapes node.now) text.now) }
{
    match condition(alloc, text)? {
        Some(cond) => Ok(cond.expr.resolve(alloc, view, node)?.is_some()),
        None => Ok(false),
    }
}

// Whether the expression of a part leads to a node, where it has one.
fn part_resolves<V: DataView>(
    alloc: Global,
    view: &V,
    node: &Path,
    part: &Part,
) -> Result<bool, Memory>
    ensures { IfOk result
        (λ resolves. resolves ≡ part_resolves (site (V.viewed view.now).shapes node.now) part.now) }
{
    match part {
        Part::Written(_text) => Ok(true),
        Part::Braced(text) => Ok(node_of_text(alloc, view, node, text.as_str())?.is_some()),
    }
}

// Whether all of them do.
fn parts_resolve<V: DataView>(
    alloc: Global,
    view: &V,
    node: &Path,
    parts: &[Part],
) -> Result<bool, Memory>
    ensures { IfOk result (λ resolve. resolve
        ≡ list_all (part_resolves (site (V.viewed view.now).shapes node.now)) parts.now) }
{
    for part in parts {
        if !part_resolves(alloc, view, node, part)? {
            return Ok(false);
        }
    }
    Ok(true)
}

// Whether a text is a string whose expressions lead to nodes.
fn string_resolves<V: DataView>(
    alloc: Global,
    view: &V,
    node: &Path,
    text: &str,
) -> Result<bool, Memory>
    ensures { IfOk result
        (λ resolves. resolves ≡ string_resolves (site (V.viewed view.now).shapes node.now) text.now) }
{
    match parts_of(alloc, text)? {
        Some(parts) => parts_resolve(alloc, view, node, parts.as_slice()),
        None => Ok(false),
    }
}

// Whether each string in a JSON value is such a string.
#[cycle(resolving)]
fn value_resolves<V: DataView>(
    alloc: Global,
    view: &V,
    node: &Path,
    value: &Value,
) -> Result<bool, Memory>
    ensures { IfOk result (λ resolves. resolves
        ≡ data_resolves (site (V.viewed view.now).shapes node.now) (json_view value.now)) }
{
    match value {
        Value::String(text) => string_resolves(alloc, view, node, text.as_str()),
        Value::Array(items) => items_resolve(alloc, view, node, items),
        Value::Object(members) => members_resolve(alloc, view, node, members),
        Value::Null | Value::Bool(_) | Value::Number(_) => Ok(true),
    }
}

// Whether each string in these items of an array is such a string.
#[cycle(resolving)]
fn items_resolve<V: DataView>(
    alloc: Global,
    view: &V,
    node: &Path,
    items: &Vec<Value>,
) -> Result<bool, Memory>
    ensures { IfOk result (λ resolve. resolve
        ≡ items_resolve (site (V.viewed view.now).shapes node.now) (items_view items.now.items)) }
{
    for item in items {
        if !value_resolves(alloc, view, node, item)? {
            return Ok(false);
        }
    }
    Ok(true)
}

// Whether each string in the members of an object is such a string.
#[cycle(resolving)]
fn members_resolve<V: DataView>(
    alloc: Global,
    view: &V,
    node: &Path,
    members: &Map<String, Value>,
) -> Result<bool, Memory>
    ensures { IfOk result (λ resolve. resolve
        ≡ members_resolve (site (V.viewed view.now).shapes node.now) (members_view members.now.entries)) }
{
    for (_name, value) in members.iter() {
        if !value_resolves(alloc, view, node, value)? {
            return Ok(false);
        }
    }
    Ok(true)
}

// The node at which a block is done.
fn block_node<V: DataView>(
    alloc: Global,
    view: &V,
    node: &Path,
    block: &Value,
) -> Result<Option<Path>, Memory>
    ensures { IfOk result (λ found. found ≡ block_node (site (V.viewed view.now).shapes node.now)
        (text_of_member (codes "for") (json_view block.now))) }
{
    match text_of(block, "for") {
        Some(text) => node_of_text(alloc, view, node, text),
        None => node.copy(alloc).map(Some),
    }
}

// Whether a member's strings resolve, where a block has it.
fn member_resolves<V: DataView>(
    alloc: Global,
    view: &V,
    node: &Path,
    value: Option<&Value>,
) -> Result<bool, Memory>
    ensures { IfOk result (λ resolves. resolves ≡ option_map_or
        (λ v. data_resolves (site (V.viewed view.now).shapes node.now) (json_view v.now)) value.entry true) }
{
    match value {
        Some(value) => value_resolves(alloc, view, node, value),
        None => Ok(true),
    }
}

// Whether a block's condition resolves, where it has one.
fn when_resolves<V: DataView>(
    alloc: Global,
    view: &V,
    node: &Path,
    block: &Value,
) -> Result<bool, Memory>
    ensures { IfOk result (λ resolves. resolves
        ≡ option_map_or (condition_resolves (site (V.viewed view.now).shapes node.now))
        (text_of_member (codes "when") (json_view block.now)) true) }
{
    match text_of(block, "when") {
        Some(text) => condition_resolves(alloc, view, node, text),
        None => Ok(true),
    }
}

// Whether what a block says at its node resolves.
fn block_resolves<V: DataView>(
    alloc: Global,
    view: &V,
    node: &Path,
    block: &Value,
) -> Result<bool, Memory>
    ensures { IfOk result (λ resolves. resolves
        ≡ block_resolves (site (V.viewed view.now).shapes node.now) (json_view block.now)) }
{
    if !when_resolves(alloc, view, node, block)? {
        return Ok(false);
    }
    if !member_resolves(alloc, view, node, block.get("device"))? {
        return Ok(false);
    }
    member_resolves(alloc, view, node, block.get("config"))
}

// The first fault of a block: of its members, of its expressions, and then of the blocks inside.
#[cycle(faults)]
fn block_fault<V: DataView>(
    alloc: Global,
    view: &V,
    left: usize,
    node: &Path,
    number: u32,
    block: &Value,
) -> Result<Option<TemplateFault>, Memory>
    ensures { IfOk result (λ fault. fault
        ≡ one_fault (site (V.viewed view.now).shapes node.now) number (json_view block.now)) }
{
    if !is_block(block) {
        return Ok(Some(TemplateFault::BadMember { block: number }));
    }
    let Some(node) = block_node(alloc, view, node, block)? else {
        return Ok(Some(TemplateFault::BadExpr { block: number }));
    };
    if !block_resolves(alloc, view, &node, block)? {
        return Ok(Some(TemplateFault::BadExpr { block: number }));
    }
    blocks_fault(
        alloc,
        view,
        left,
        &node,
        number_behind(number, 0)?,
        blocks_inside(block),
    )
}

// The first fault of blocks, numbered from a number on.
#[cycle(faults)]
fn blocks_fault<V: DataView>(
    alloc: Global,
    view: &V,
    left: usize,
    node: &Path,
    first: u32,
    blocks: &[Value],
) -> Result<Option<TemplateFault>, Memory>
    ensures { IfOk result (λ fault. fault ≡ blocks_fault (site (V.viewed view.now).shapes node.now) first
        (blocks_of (items_view blocks.now))) }
{
    if left == 0 {
        return Err(Memory);
    }
    let mut number = first;
    for block in blocks {
        let fault = block_fault(alloc, view, left - 1, node, number, block)?;
        if fault.is_some() {
            return Ok(fault);
        }
        number = number_behind(number, block_count(DEPTH, blocks_inside(block))?)?;
    }
    Ok(None)
}

/// The first fault of a JSON value as a template of a node of the schema.
pub(crate) fn template_fault<V: DataView>(
    alloc: Global,
    view: &V,
    node: &Path,
    template: &Value,
) -> Result<Option<TemplateFault>, Memory>
    ensures { IfOk result (λ fault. fault
        ≡ template_fault (site (V.viewed view.now).shapes node.now) (json_view template.now)) }
{
    if !is_template(template) {
        return Ok(Some(TemplateFault::BadMember { block: 0 }));
    }
    blocks_fault(alloc, view, DEPTH, node, 1, blocks_inside(template))
}
