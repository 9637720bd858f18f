//! What the blocks of a template write.
ghost use Rattle.std.specs.Prelude.{◌≡◌, ◌<◌, length, Some, IfOk, codes, slice_get, slice_set, option_map, option_and_then};
ghost use Rattle.serde_json.specs.View.{view as json_view, items_view};
ghost use Rattle.orc_expr.specs.Parts.{expression_of};
ghost use Rattle.orc_template.specs.Values.{Does};
ghost use Rattle.orc_template.specs.Blocks.{blocks_of, block_count, text_of_member};
ghost use Rattle.orc_template.specs.Devices.{device_of};
ghost use Rattle.orc_template.specs.Expansions.{condition_done, when_done, on_tree, on_schema, on_device, target_by, target_done, fails, blocks_expanded};
ghost use Rattle.orc_template.specs.inside.Machine.{the_readers, scene, ground};
ghost use Rattle.orc_template.specs.inside.Expanding.{expanding_of, Stops, Expands, Judges, numbered, IsBehind, node_in, each_in, block_in};

use crate::Devices;
use crate::blocks::{DEPTH, block_count, blocks_inside, more, number_behind, text_of};
use crate::config::do_object;
use crate::fault::{BAD_LEAF, ExpandFault, Halt, MANY_VALUES, UNKNOWN_DEVICE};
use crate::filling::fill;
use crate::readers::{condition, expression};
use crate::writing::Writing;
use orc_expr::{EvalFault, Expr, ReadSet};
use orc_path::{DataView, Path};
use orc_schema_nodes::Schema;
use orc_text::{Memory, Row};
use orc_tree::Tree;
use serde_json::Value;
use std::alloc::Global;
use std::mem;

/// What is written so far on each device, in the order of their numbers, and all that was read so
/// far.
#[derive(Drop)]
pub(crate) struct Expanding {
    pub(crate) written: Vec<Tree>,
    pub(crate) reads: ReadSet,
}

// Whether the condition of a text holds, where it is one.
fn condition_holds<V: DataView>(
    alloc: Global,
    view: &V,
    here: &Path,
    text: &str,
    reads: &mut ReadSet,
) -> Result<bool, Halt>
    ensures { Does (condition_done (scene (V.viewed view.now) here.now) (the_readers.condition text.now)
        reads.old.reads) reads.new.reads result }
{
    let Some(cond) = condition(alloc, text)? else {
        return Ok(true);
    };
    match cond.holds(alloc, view, here, reads) {
        Ok(holds) => Ok(holds),
        Err(EvalFault::Many) => Err(Halt::Rule(MANY_VALUES)),
        Err(EvalFault::Memory) => Err(Halt::Memory),
    }
}

// Whether the condition of a block holds, which has none or one.
fn when_holds<V: DataView>(
    alloc: Global,
    view: &V,
    here: &Path,
    block: &Value,
    reads: &mut ReadSet,
) -> Result<bool, Halt>
    ensures { Does (when_done (scene (V.viewed view.now) here.now) (json_view block.now) reads.old.reads)
        reads.new.reads result }
{
    match text_of(block, "when") {
        Some(text) => condition_holds(alloc, view, here, text, reads),
        None => Ok(true),
    }
}

// Puts a tree in the place of a device, and gives back the one that stood there.
fn swapped(trees: &mut Vec<Tree>, number: usize, tree: Tree) -> Tree
    requires { number < length trees.old.items }
    ensures taken { slice_get trees.old.items number ≡ Some result }
    ensures put { trees.new.items ≡ slice_set trees.old.items number tree }
{
    mem::replace(&mut trees[number], tree)
}

// What a `config` writes on a device that has a schema.
fn do_tree<V: DataView>(
    alloc: Global,
    view: &V,
    here: &Path,
    schema: &Schema,
    number: usize,
    config: &Value,
    expanding: &mut Expanding,
) -> Result<(), Halt>
    ensures { Stops (on_tree (scene (V.viewed view.now) here.now) number (json_view config.now) schema.now
        (slice_get (expanding_of expanding.old).written number) (expanding_of expanding.old))
        (expanding_of expanding.new) result }
{
    if number >= expanding.written.len() {
        return Err(Halt::Rule(UNKNOWN_DEVICE));
    }
    let tree = swapped(&mut expanding.written, number, Tree::new(alloc));
    let reads = mem::replace(&mut expanding.reads, ReadSet::new(alloc));
    let mut writing = Writing { tree, reads };
    let root = Path {
        steps: Row::new(alloc),
    };
    let done = do_object(alloc, view, here, schema, &[], &root, config, &mut writing);
    let Writing { tree, reads } = writing;
    let _empty = swapped(&mut expanding.written, number, tree);
    expanding.reads = reads;
    done
}

// What a `config` writes on a device by its schema.
fn do_schema<V: DataView>(
    alloc: Global,
    view: &V,
    here: &Path,
    schema: &Schema,
    number: usize,
    config: &Value,
    expanding: &mut Expanding,
) -> Result<(), Halt>
    ensures { Stops (on_schema (scene (V.viewed view.now) here.now) number (json_view config.now) (Some schema.now)
        (slice_get (expanding_of expanding.old).written number) (expanding_of expanding.old))
        (expanding_of expanding.new) result }
{
    if schema.is_plain() {
        return Err(Halt::Rule(BAD_LEAF));
    }
    do_tree(alloc, view, here, schema, number, config, expanding)
}

// What a `config` writes on the device of a name.
fn do_name<V: DataView>(
    alloc: Global,
    view: &V,
    devices: &Devices,
    here: &Path,
    config: &Value,
    name: &str,
    expanding: &mut Expanding,
) -> Result<(), Halt>
    ensures { Stops (on_device (ground (V.viewed view.now) devices.now) here.now (json_view config.now)
        (device_of name.now devices.now.names) (expanding_of expanding.old)) (expanding_of expanding.new) result }
{
    let Some(number) = devices.number(name) else {
        return Err(Halt::Rule(UNKNOWN_DEVICE));
    };
    match devices.schema(number) {
        Some(schema) => do_schema(alloc, view, here, schema, number, config, expanding),
        None => Err(Halt::Rule(UNKNOWN_DEVICE)),
    }
}

// The target of a block with a device: the text of its name, and what its `config` writes there.
fn do_device<V: DataView>(
    alloc: Global,
    view: &V,
    devices: &Devices,
    here: &Path,
    block: &Value,
    device: &str,
    expanding: &mut Expanding,
) -> Result<(), Halt>
    ensures { Stops (target_by (ground (V.viewed view.now) devices.now) here.now (json_view block.now)
        (Some device.now) (expanding_of expanding.old)) (expanding_of expanding.new) result }
{
    let name = fill(alloc, view, here, device, &mut expanding.reads)?;
    match block.get("config") {
        Some(config) => do_name(alloc, view, devices, here, config, name.as_str(), expanding),
        None => do_name(
            alloc,
            view,
            devices,
            here,
            &Value::Null,
            name.as_str(),
            expanding,
        ),
    }
}

// The target of a block, which has one or none.
fn do_target<V: DataView>(
    alloc: Global,
    view: &V,
    devices: &Devices,
    here: &Path,
    block: &Value,
    expanding: &mut Expanding,
) -> Result<(), Halt>
    ensures { Stops (target_done (ground (V.viewed view.now) devices.now) here.now (json_view block.now)
        (expanding_of expanding.old)) (expanding_of expanding.new) result }
{
    match text_of(block, "device") {
        Some(device) => do_device(alloc, view, devices, here, block, device, expanding),
        None => Ok(()),
    }
}

// A block's fault.
fn at_block<T>(number: u32, answer: Result<T, Halt>) -> Result<T, ExpandFault>
    ensures { result ≡ numbered number answer }
{
    match answer {
        Ok(value) => Ok(value),
        Err(Halt::Rule(rule)) => Err(ExpandFault::At {
            block: number,
            rule,
        }),
        Err(Halt::Memory) => Err(ExpandFault::Memory),
    }
}

// Whether the condition of a block holds, or the block's fault.
fn holds_at<V: DataView>(
    alloc: Global,
    view: &V,
    here: &Path,
    number: u32,
    block: &Value,
    reads: &mut ReadSet,
) -> Result<bool, ExpandFault>
    ensures { Judges number (when_done (scene (V.viewed view.now) here.now) (json_view block.now) reads.old.reads)
        reads.new.reads result }
{
    at_block(number, when_holds(alloc, view, here, block, reads))
}

// The target of a block, or the block's fault.
fn target_at<V: DataView>(
    alloc: Global,
    view: &V,
    devices: &Devices,
    here: &Path,
    number: u32,
    block: &Value,
    expanding: &mut Expanding,
) -> Result<(), ExpandFault>
    ensures { Expands (fails number (target_done (ground (V.viewed view.now) devices.now) here.now
        (json_view block.now) (expanding_of expanding.old))) (expanding_of expanding.new) result }
{
    at_block(
        number,
        do_target(alloc, view, devices, here, block, expanding),
    )
}

// A block at a node: its target and then the blocks inside, where its condition holds.
#[cycle(blocks)]
fn do_node<V: DataView>(
    alloc: Global,
    view: &V,
    devices: &Devices,
    left: usize,
    here: &Path,
    number: u32,
    block: &Value,
    expanding: &mut Expanding,
) -> Result<(), ExpandFault>
    ensures { Expands (node_in (ground (V.viewed view.now) devices.now) number (json_view block.now) here.now
        (expanding_of expanding.old)) (expanding_of expanding.new) result }
{
    let holds = holds_at(alloc, view, here, number, block, &mut expanding.reads)?;
    if !holds {
        return Ok(());
    }
    target_at(alloc, view, devices, here, number, block, expanding)?;
    do_blocks(
        alloc,
        view,
        devices,
        left,
        here,
        number_behind(number, 0)?,
        blocks_inside(block),
        expanding,
    )
}

// A block at the nodes of its `for`.
#[cycle(blocks)]
fn do_each<V: DataView>(
    alloc: Global,
    view: &V,
    devices: &Devices,
    left: usize,
    here: &Path,
    number: u32,
    block: &Value,
    each: &Expr,
    expanding: &mut Expanding,
) -> Result<(), ExpandFault>
    ensures { Expands (each_in (ground (V.viewed view.now) devices.now) here.now number (json_view block.now)
        (expression_of each.now) (expanding_of expanding.old)) (expanding_of expanding.new) result }
{
    let nodes = match each.nodes(alloc, view, here, &mut expanding.reads) {
        Ok(nodes) => nodes,
        Err(EvalFault::Many) => {
            return Err(ExpandFault::At {
                block: number,
                rule: MANY_VALUES,
            });
        }
        Err(EvalFault::Memory) => return Err(ExpandFault::Memory),
    };
    for node in nodes.as_slice() {
        do_node(alloc, view, devices, left, node, number, block, expanding)?;
    }
    Ok(())
}

// The expression of a block's `for`, where it has one.
fn each_of(alloc: Global, block: &Value) -> Result<Option<Expr>, Memory>
    ensures { IfOk result (λ each. option_map expression_of each
        ≡ option_and_then the_readers.expression (text_of_member (codes "for") (json_view block.now))) }
{
    match text_of(block, "for") {
        Some(text) => expression(alloc, text),
        None => Ok(None),
    }
}

// A block: once at its context, or with `for` once for each node.
#[cycle(blocks)]
fn do_block<V: DataView>(
    alloc: Global,
    view: &V,
    devices: &Devices,
    left: usize,
    here: &Path,
    number: u32,
    block: &Value,
    expanding: &mut Expanding,
) -> Result<(), ExpandFault>
    ensures { Expands (block_in (ground (V.viewed view.now) devices.now) here.now number (json_view block.now)
        (expanding_of expanding.old)) (expanding_of expanding.new) result }
{
    let each = each_of(alloc, block)?;
    match each {
        Some(each) => do_each(
            alloc, view, devices, left, here, number, block, &each, expanding,
        ),
        None => do_node(alloc, view, devices, left, here, number, block, expanding),
    }
}

// The answer of a block after others, which was done under the first number of these: its fault is
// numbered after theirs. So blocks are counted only where there is a fault.
fn behind(front: &[Value], answer: Result<(), ExpandFault>) -> Result<(), ExpandFault>
    ensures { IsBehind (block_count (blocks_of (items_view front.now))) answer result }
{
    match answer {
        Ok(()) => Ok(()),
        Err(ExpandFault::At { block, rule }) => Err(ExpandFault::At {
            block: more(block, block_count(DEPTH, front)?)?,
            rule,
        }),
        Err(ExpandFault::Memory) => Err(ExpandFault::Memory),
    }
}

/// Blocks in their order, numbered from a number on.
#[cycle(blocks)]
pub(crate) fn do_blocks<V: DataView>(
    alloc: Global,
    view: &V,
    devices: &Devices,
    left: usize,
    here: &Path,
    first: u32,
    blocks: &[Value],
    expanding: &mut Expanding,
) -> Result<(), ExpandFault>
    ensures { Expands (blocks_expanded (ground (V.viewed view.now) devices.now) here.now first
        (blocks_of (items_view blocks.now)) (expanding_of expanding.old)) (expanding_of expanding.new) result }
{
    if left == 0 {
        return Err(ExpandFault::Memory);
    }
    for (at, block) in blocks.iter().enumerate() {
        let answer = do_block(
            alloc,
            view,
            devices,
            left - 1,
            here,
            first,
            block,
            expanding,
        );
        behind(&blocks[..at], answer)?;
    }
    Ok(())
}
