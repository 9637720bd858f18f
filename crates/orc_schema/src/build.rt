//! The schema of modules.
ghost use Rattle.std.specs.Prelude.{◌≡◌, ◌++◌, IfOk, OnOk, map, false, slice_get, option_copied, option_map};
ghost use Rattle.std.specs.List.{list_any};
ghost use Rattle.std.specs.List.Sorted.{IsPermutation};
ghost use Rattle.orc_modules.specs.Stack.{modules_of};
ghost use Rattle.orc_schema.specs.Drafts.{drafts_of, drafts_below, inside_module};
ghost use Rattle.orc_statements.specs.Faults.{first_some};
ghost use Rattle.orc_schema.specs.Links.{chain, node_in, link_fault, first_link_fault};
ghost use Rattle.orc_schema.specs.Schemas.{drafts, schema_line, node_of, GivesTable, Builds, schema_of, GivesSchema, is_deep_module, is_cut, IsWhole};
ghost use Rattle.orc_schema.specs.inside.Indexes.{look, lent, IsIndex};
ghost use Rattle.orc_statements.specs.Meeting.{Meets};

use crate::draft::{Draft, DraftNode};
use crate::drafting::{Where, push_drafts};
use crate::index::index_of;
use crate::links::{Nodes, is_cut, kind_at, link_fault, target_at};
use crate::weights::line_weight;
use crate::{Schema, SchemaFault};
use orc_modules::{Above, Block, Looks, MAX_CHAIN, Modules, is_too_deep};
use orc_schema_nodes::{LeafNode, Node, SchemaLine, ValueListNode};
use orc_statements::first_fault;
use orc_text::{Copied, Memory, Row, Text};
use orc_types::argument;
use orc_yang::Stmt;
use std::alloc::Global;

// Adds the nodes of one module, whose block this is.
fn push_block<'a, 'm>(
    alloc: Global,
    modules: &Modules<'a>,
    block: &'a Block<'m>,
    out: &mut Row<Draft>,
) -> Result<(), Memory>
    ensures { OnOk result (out.new ≡ out.old
        ++ drafts_below modules.now.most (modules_of modules.now) (inside_module block.now) block.now) }
{
    let none = Row::new(alloc);
    let stmt = block.here();
    let at = Where {
        above: &Above::Indexed(block, &Above::Top),
        owner: argument(stmt),
        names: &none,
        keys: &none,
    };
    push_drafts(alloc, modules.most, &*modules, &at, stmt, out)
}

// Adds the nodes of one module.
fn push_module<'a>(
    alloc: Global,
    modules: &Modules<'a>,
    stmt: &'a Stmt,
    out: &mut Row<Draft>,
) -> Result<(), Memory>
    ensures { OnOk result (out.new ≡ out.old
        ++ drafts_below modules.now.most (modules_of modules.now) (inside_module stmt.now) stmt.now) }
{
    let block = Block::of(alloc, stmt)?;
    push_block(alloc, &*modules, &block, out)
}

// The nodes of the modules.
fn drafts_of(alloc: Global, modules: &Modules<'_>) -> Result<Row<Draft>, Memory>
    ensures { IfOk result (λ ds. ds ≡ drafts_of (modules_of modules.now) modules.now.all.now) }
{
    let mut out = Row::new(alloc);
    for stmt in modules.all {
        push_module(alloc, &*modules, stmt, &mut out)?;
    }
    Ok(out)
}

// Whether nodes and groupings of a module stand in one another deeper than is looked at.
fn is_deep_module(alloc: Global, modules: &Modules<'_>, stmt: &Stmt) -> Result<bool, Memory>
    ensures { IfOk result (λ deep. deep ≡ is_deep_module (modules_of modules.now) stmt.now) }
{
    let block = Block::of(alloc, stmt)?;
    is_too_deep(alloc, &*modules, &Above::Indexed(&block, &Above::Top), stmt)
}

// Whether those of any module do.
fn any_deep(alloc: Global, modules: &Modules<'_>) -> Result<bool, Memory>
    ensures { IfOk result (λ deep. deep
        ≡ list_any (is_deep_module (modules_of modules.now)) modules.now.all.now) }
{
    for stmt in modules.all {
        if is_deep_module(alloc, modules, stmt)? {
            return Ok(true);
        }
    }
    Ok(false)
}

// The nodes of the modules, of which none is left out.
fn whole_drafts(alloc: Global, modules: &Modules<'_>) -> Result<Row<Draft>, Memory>
    ensures drafts { IfOk result (λ ds. ds ≡ drafts_of (modules_of modules.now) modules.now.all.now) }
    ensures whole { IfOk result (λ ds.
        list_any (is_deep_module (modules_of modules.now)) modules.now.all.now ≡ false) }
{
    match any_deep(alloc, modules)? {
        true => Err(Memory),
        false => drafts_of(alloc, modules),
    }
}

// The first fault of the leafrefs. After a fault `nodes.looks` stands at the faulty node.
fn first_link_fault(alloc: Global, drafts: &[Draft], nodes: &Nodes<'_>) -> Result<(), SchemaFault>
    requires { IsIndex nodes.now.index.now }
    ensures { Meets (first_some (link_fault nodes.now.chain (look nodes.now)) drafts.now) result }
{
    for draft in drafts {
        nodes.looks.go_on();
        if let Err(fault) = link_fault(alloc, nodes, draft) {
            return Err(fault);
        }
    }
    Ok(())
}

// What a node is.
fn node_of(alloc: Global, nodes: &Nodes<'_>, draft: &Draft) -> Result<Node, Memory>
    requires { IsIndex nodes.now.index.now }
    ensures { IfOk result (λ node. node ≡ node_of nodes.now.chain (look nodes.now) draft.now draft.now.node) }
{
    match &draft.node {
        DraftNode::Container => Ok(Node::Container),
        DraftNode::List(list) => Ok(Node::List(list.copy(alloc)?)),
        DraftNode::Leaf(leaf) => Ok(Node::Leaf(LeafNode {
            kind: kind_at(alloc, nodes, draft)?,
            target: target_at(alloc, draft)?,
            default: Copied::copied(&leaf.default, alloc)?,
            mandatory: leaf.mandatory,
            key: leaf.key,
        })),
        DraftNode::LeafList(values) => Ok(Node::LeafList(ValueListNode {
            kind: kind_at(alloc, nodes, draft)?,
            target: target_at(alloc, draft)?,
            least: values.least,
            most: values.most,
        })),
    }
}

// The line of a node.
fn line_of(alloc: Global, nodes: &Nodes<'_>, draft: &Draft) -> Result<SchemaLine, Memory>
    requires { IsIndex nodes.now.index.now }
    ensures { IfOk result (λ line. line ≡ schema_line nodes.now.chain (look nodes.now) draft.now) }
{
    let line = SchemaLine {
        names: draft.names.copy(alloc)?,
        node: node_of(alloc, nodes, draft)?,
    };
    // (twice, since a bundle keeps the schema of devices in its declarations and in its table of schemas)
    nodes.looks.keep(line_weight(&line).saturating_mul(2))?;
    Ok(line)
}

// The lines of the nodes, in the order of their names.
fn lines_of(alloc: Global, nodes: &Nodes<'_>) -> Result<Row<SchemaLine>, Memory>
    requires { IsIndex nodes.now.index.now }
    ensures { IfOk result (λ lines. lines
        ≡ map (schema_line nodes.now.chain (look nodes.now)) (lent nodes.now.index.now)) }
{
    let mut lines = Row::new(alloc);
    for draft in nodes.index {
        lines.push(line_of(alloc, nodes, *draft)?)?;
    }
    Ok(lines)
}

// Whether the kind of a node is reached only through more leafrefs than are followed.
fn any_cut(alloc: Global, drafts: &[Draft], nodes: &Nodes<'_>) -> Result<bool, Memory>
    requires { IsIndex nodes.now.index.now }
    ensures { IfOk result (λ cut. cut ≡ list_any (is_cut nodes.now.chain (look nodes.now)) drafts.now) }
{
    for draft in drafts {
        if is_cut(alloc, nodes, draft)? {
            return Ok(true);
        }
    }
    Ok(false)
}

// The lines of the nodes, where the kind of each is found.
fn whole_lines(
    alloc: Global,
    drafts: &[Draft],
    nodes: &Nodes<'_>,
) -> Result<Row<SchemaLine>, Memory>
    requires { IsIndex nodes.now.index.now }
    ensures lines { IfOk result (λ lines. lines
        ≡ map (schema_line nodes.now.chain (look nodes.now)) (lent nodes.now.index.now)) }
    ensures whole { IfOk result (λ lines.
        list_any (is_cut nodes.now.chain (look nodes.now)) drafts.now ≡ false) }
{
    match any_cut(alloc, drafts, nodes)? {
        true => Err(Memory),
        false => lines_of(alloc, nodes),
    }
}

// The schema of nodes, where their leafrefs are well, by the nodes in the order of their names.
fn table_by(
    alloc: Global,
    looks: &Looks,
    drafts: &[Draft],
    index: &[&Draft],
) -> Result<Schema, SchemaFault>
    requires sorted { IsIndex index.now }
    requires same { IsPermutation drafts.now (lent index.now) }
    ensures table { GivesTable (first_link_fault drafts.now) drafts.now result }
    ensures whole { IfOk result (λ s. list_any (is_cut chain (node_in drafts.now)) drafts.now ≡ false) }
{
    let nodes = Nodes {
        index,
        chain: MAX_CHAIN,
        looks,
    };
    match first_link_fault(alloc, drafts, &nodes) {
        Err(fault) => Err(fault),
        Ok(()) => {
            let lines = whole_lines(alloc, drafts, &nodes)?;
            Ok(Schema::of_lines(alloc, lines)?)
        }
    }
}

// The schema of nodes, where their leafrefs are well.
fn table_of(alloc: Global, looks: &Looks, drafts: &[Draft]) -> Result<Schema, SchemaFault>
    ensures table { GivesTable (first_link_fault drafts.now) drafts.now result }
    ensures whole { IfOk result (λ s. list_any (is_cut chain (node_in drafts.now)) drafts.now ≡ false) }
{
    let index = index_of(alloc, drafts)?;
    table_by(alloc, looks, drafts, index.as_slice())
}

// The schema of these modules, or their first fault.
fn schema_of(alloc: Global, modules: &[Stmt], looks: &Looks) -> Result<Schema, SchemaFault>
    ensures builds { Builds modules.now result }
    ensures whole { IfOk result (λ s. IsWhole modules.now) }
{
    let modules = Modules::of(modules, looks)?;
    match first_fault(alloc, &modules) {
        Err(fault) => Err(fault),
        Ok(()) => {
            let drafts = whole_drafts(alloc, &modules)?;
            table_of(alloc, looks, drafts.as_slice())
        },
    }
}

// The node of this number.
fn draft_at(drafts: &[Draft], number: usize) -> Option<&Draft>
    ensures { option_copied result ≡ slice_get drafts.now number }
{
    drafts.get(number)
}

// Its names.
fn names_of(alloc: Global, drafts: &[Draft], number: usize) -> Result<Option<Row<Text>>, Memory>
    ensures { IfOk result (λ names. names ≡ option_map (λ d. d.names) (slice_get drafts.now number)) }
{
    match draft_at(drafts, number) {
        Some(draft) => Ok(Some(draft.names.copy(alloc)?)),
        None => Ok(None),
    }
}

/// The names from the top down to the node of this number, from 0 in the order in which the modules
/// define them: that at which a build of a schema of these modules stands after the fault of a
/// leafref. The first of the names has its module's name and a colon before it.
pub fn node_names(
    alloc: Global,
    modules: &[Stmt],
    number: usize,
) -> Result<Option<Row<Text>>, Memory>
    ensures { IfOk result (λ names. names
        ≡ option_map (λ d. d.names) (slice_get (drafts modules.now) number)) }
{
    let looks = Looks::new();
    let modules = Modules::of(modules, &looks)?;
    let drafts = drafts_of(alloc, &modules)?;
    names_of(alloc, drafts.as_slice(), number)
}

/// How a schema is made of modules: `Schema` alone implements it, and what its calls ensure stands at
/// that `impl`. A bound `T: Build` promises nothing.
pub trait Build {
    /// The schema of these modules, or their first fault.
    fn build(alloc: Global, modules: &[Stmt]) -> Result<Self, SchemaFault>;

    /// The schema of these modules, or their first fault, where this is what may still be looked at and kept.
    fn build_within(alloc: Global, modules: &[Stmt], looks: &Looks) -> Result<Self, SchemaFault>;
}

impl Build for Schema {
    /// The schema of these modules, or their first fault: that of the first faulty statement in the
    /// order of the text, modules in the order given and groupings where they are defined, at one
    /// statement the variant listed first; and then that of the first leafref at fault. A schema of
    /// more than 1,000,000 nodes runs out of memory, and so does a leaf whose kind is reached
    /// through 1,000 leafrefs or more.
    fn build(alloc: Global, modules: &[Stmt]) -> Result<Schema, SchemaFault>
        ensures builds { Builds modules.now result }
        ensures value { GivesSchema (schema_of modules.now) result }
        ensures whole { IfOk result (λ schema. IsWhole modules.now) }
    {
        Schema::build_within(alloc, modules, &Looks::new())
    }

    /// The schema of these modules or their first fault, as `build` gives it, where this is what may still be looked at
    /// and kept; it has less of both afterwards. Where several schemas are built with one `Looks`, what they cost
    /// together is bounded. After a fault it stands where that is: where it has a `node`, at the leafref that is this
    /// one of the nodes (`node_names`), else at the statement of its `module` and `at`.
    fn build_within(alloc: Global, modules: &[Stmt], looks: &Looks) -> Result<Schema, SchemaFault>
        ensures builds { Builds modules.now result }
        ensures value { GivesSchema (schema_of modules.now) result }
        ensures whole { IfOk result (λ schema. IsWhole modules.now) }
    {
        schema_of(alloc, modules, looks)
    }
}
