//! Where leafrefs lead.
ghost use Rattle.std.specs.Prelude.{◌≡◌, ◌≤◌, List, IfOk, length, take, option_map, unwrap_or};
ghost use Rattle.std.specs.List.{before_first};
ghost use Rattle.orc_statements.specs.declared.cuts.Mark.TheVariants.{Colon};
ghost use Rattle.orc_statements.specs.Cuts.{is_mark};
ghost use Rattle.orc_schema.specs.Links.{module_in, down, walk, kept_names, goes_past, target_names, value_type, reference_at, led_to, next, leads_to, own_kind, end_kind, is_key_node, is_empty, own_name, lost, empty_key, leads_back, reference_fault, link_fault, target_of, target_at, kind_at};
ghost use Rattle.orc_schema.specs.Schemas.{is_cut};
ghost use Rattle.orc_schema.specs.inside.Indexes.{look, IsIndex};
ghost use Rattle.orc_statements.specs.Meeting.{Meets};

use crate::SchemaFault;
use crate::draft::{Draft, DraftNode, DraftType};
use crate::drafting::qualified;
use crate::index::find_in;
use orc_modules::{Looks, plain_name};
use orc_schema_nodes::Target;
use orc_statements::{Mark, Reference, StepName, cut};
use orc_text::{Memory, Row, Text};
use orc_value::Kind;
use std::alloc::Global;

/// The nodes in the order of their names, how many leafrefs may lead on to one another at most, and
/// what may still be looked at.
#[derive(Clone, Copy)]
pub(crate) struct Nodes<'a> {
    pub(crate) index: &'a [&'a Draft],
    pub(crate) chain: usize,
    pub(crate) looks: &'a Looks,
}

// Where a name's module ends.
fn module_of_name(name: &str) -> &str
    ensures { result.now ≡ before_first (is_mark Colon) name.now }
{
    match cut(Mark::Colon, name) {
        Some((module, _)) => module,
        None => name,
    }
}

// The module of a node.
fn module_in(names: &[Text]) -> &str
    ensures { result.now ≡ module_in names.now }
{
    match names {
        [] => "",
        [first, ..] => module_of_name(first.as_str()),
    }
}

// The module of a name in a path.
fn owner_or<'a>(step: &'a StepName, owner: &'a str) -> &'a str
    ensures { result.now ≡ unwrap_or step.now.owner owner.now }
{
    match &step.owner {
        Some(own) => own.as_str(),
        None => owner,
    }
}

// One name further down.
fn down(
    alloc: Global,
    owner: &str,
    mut names: Row<Text>,
    step: &StepName,
) -> Result<Option<Row<Text>>, Memory>
    ensures { IfOk result (λ found. found ≡ down owner.now names step.now) }
{
    let owner = owner_or(step, owner);
    if names.is_empty() {
        names.push(qualified(alloc, owner, step.name.as_str())?)?;
        return Ok(Some(names));
    }
    if owner != module_in(names.as_slice()) {
        return Ok(None);
    }
    names.push(step.name.copy(alloc)?)?;
    Ok(Some(names))
}

// Names further down.
fn walk(
    alloc: Global,
    owner: &str,
    names: Row<Text>,
    steps: &[StepName],
) -> Result<Option<Row<Text>>, Memory>
    ensures { IfOk result (λ found. found ≡ walk owner.now names steps.now) }
{
    let mut at = names;
    for step in steps {
        match down(alloc, owner, at, step)? {
            Some(next) => at = next,
            None => return Ok(None),
        }
    }
    Ok(Some(at))
}

// How many names of the node stay where a path begins.
fn kept_names(draft: &Draft, reference: &Reference) -> usize
    ensures { result ≡ kept_names draft.now reference.now }
{
    if reference.absolute {
        return 0;
    }
    let len = draft.names.len();
    if reference.ups >= len as u64 {
        0
    } else {
        len - reference.ups as usize
    }
}

// Whether a path goes up past the top.
fn goes_past(draft: &Draft, reference: &Reference) -> bool
    ensures { result ≡ goes_past draft.now reference.now }
{
    !reference.absolute && (draft.names.len() as u64) < reference.ups
}

// The first names of a node.
fn first_names(alloc: Global, names: &[Text], len: usize) -> Result<Row<Text>, Memory>
    requires { len ≤ length names.now }
    ensures { IfOk result (λ front. front ≡ take len names.now) }
{
    let mut front = Row::new(alloc);
    let kept = &names[..len];
    for name in kept {
        front.push(name.copy(alloc)?)?;
    }
    Ok(front)
}

// The names to which a leafref leads.
fn target_names(
    alloc: Global,
    draft: &Draft,
    reference: &Reference,
) -> Result<Option<Row<Text>>, Memory>
    ensures { IfOk result (λ found. found ≡ target_names draft.now reference.now) }
{
    if goes_past(draft, reference) {
        return Ok(None);
    }
    let names = draft.names.as_slice();
    let front = first_names(alloc, names, kept_names(draft, reference))?;
    walk(alloc, module_in(names), front, reference.names.as_slice())
}

// The type of a leaf or a leaf-list.
fn type_of(node: &DraftNode) -> Option<&DraftType>
    ensures { option_map (λ t. t.now) result ≡ value_type node.now }
{
    match node {
        DraftNode::Container => None,
        DraftNode::List(_) => None,
        DraftNode::Leaf(leaf) => Some(&leaf.of_type),
        DraftNode::LeafList(values) => Some(&values.of_type),
    }
}

// The leafref that a node is.
fn reference_at(draft: &Draft) -> Option<&Reference>
    ensures { option_map (λ r. r.now) result ≡ reference_at draft.now }
{
    match type_of(&draft.node) {
        Some(DraftType::To(reference)) => Some(reference),
        _ => None,
    }
}

// How many names are copied, and compared with those of others, to follow a leafref.
fn following_cost(draft: &Draft, reference: &Reference) -> usize {
    draft.names.len().saturating_add(reference.names.len())
}

// The leaf or leaf-list to which a leafref leads.
fn led_to<'a>(
    alloc: Global,
    nodes: &Nodes<'a>,
    draft: &Draft,
    reference: &Reference,
) -> Result<Option<&'a Draft>, Memory>
    requires { IsIndex nodes.now.index.now }
    ensures { IfOk result (λ found. option_map (λ d. d.now) found ≡ led_to (look nodes.now) draft.now reference.now) }
{
    nodes.looks.visit(following_cost(draft, reference))?;
    match target_names(alloc, draft, reference)? {
        Some(names) => match find_in(nodes.index, &names) {
            Some(found) => match type_of(&found.node) {
                Some(_) => Ok(Some(found)),
                None => Ok(None),
            },
            None => Ok(None),
        },
        None => Ok(None),
    }
}

// The node to which a node leads as a leafref.
fn next<'a>(alloc: Global, nodes: &Nodes<'a>, draft: &Draft) -> Result<Option<&'a Draft>, Memory>
    requires { IsIndex nodes.now.index.now }
    ensures { IfOk result (λ found. option_map (λ d. d.now) found ≡ next (look nodes.now) draft.now) }
{
    match reference_at(draft) {
        Some(reference) => led_to(alloc, nodes, draft, reference),
        None => Ok(None),
    }
}

// Whether a leafref leads to the node of these names, at most `most` leafrefs on.
fn leads_to(
    alloc: Global,
    most: usize,
    nodes: &Nodes<'_>,
    names: &Row<Text>,
    draft: &Draft,
) -> Result<bool, Memory>
    requires { IsIndex nodes.now.index.now }
    ensures { IfOk result (λ leads. leads ≡ leads_to most (look nodes.now) names.now draft.now) }
{
    let mut at = draft;
    let mut left = most;
    while left > 0 {
        match next(alloc, nodes, at)? {
            Some(found) => {
                if found.names == *names {
                    return Ok(true);
                }
                at = found;
            },
            None => return Ok(false),
        }
        left -= 1;
    }
    Ok(false)
}

// The kind of a type of its own.
fn own_kind(of_type: Option<&DraftType>) -> Option<&Kind>
    ensures { option_map (λ k. k.now) result ≡ own_kind (option_map (λ t. t.now) of_type.entry) }
{
    match of_type {
        Some(DraftType::Own(kind)) => Some(kind),
        _ => None,
    }
}

// The kind at the end of at most `most` leafrefs.
fn end_kind<'a>(
    alloc: Global,
    most: usize,
    nodes: &Nodes<'a>,
    draft: &'a Draft,
) -> Result<Option<&'a Kind>, Memory>
    requires { IsIndex nodes.now.index.now }
    ensures { IfOk result (λ found. option_map (λ k. k.now) found ≡ end_kind most (look nodes.now) draft.now) }
{
    let mut at = draft;
    let mut left = most;
    while left > 0 {
        match reference_at(at) {
            Some(reference) => match led_to(alloc, nodes, at, reference)? {
                Some(found) => at = found,
                None => return Ok(None),
            },
            None => return Ok(own_kind(type_of(&at.node))),
        }
        left -= 1;
    }
    Ok(None)
}

fn is_key(node: &DraftNode) -> bool
    ensures { result ≡ is_key_node node.now }
{
    match node {
        DraftNode::Leaf(leaf) => leaf.key.is_some(),
        _ => false,
    }
}

fn is_empty(kind: Option<&Kind>) -> bool
    ensures { result ≡ is_empty (option_map (λ k. k.now) kind.entry) }
{
    match kind {
        Some(Kind::Empty) => true,
        _ => false,
    }
}

// A node's own name, without its module.
fn own_name(draft: &Draft) -> &str
    ensures { result.now ≡ own_name draft.now }
{
    match draft.names.as_slice().last() {
        Some(name) => plain_name(name.as_str()),
        None => plain_name(""),
    }
}

// A path that ends at no leaf or leaf-list.
fn lost(
    alloc: Global,
    nodes: &Nodes<'_>,
    draft: &Draft,
    reference: &Reference,
) -> Result<(), SchemaFault>
    requires { IsIndex nodes.now.index.now }
    ensures { Meets (lost (look nodes.now) draft.now reference.now) result }
{
    match led_to(alloc, nodes, draft, reference)? {
        Some(_) => Ok(()),
        None => Err(SchemaFault::Unknown {
            name: reference.text.copy(alloc)?,
        }),
    }
}

// A key of type empty.
fn empty_key(alloc: Global, nodes: &Nodes<'_>, draft: &Draft) -> Result<(), SchemaFault>
    requires { IsIndex nodes.now.index.now }
    ensures { Meets (empty_key nodes.now.chain (look nodes.now) draft.now) result }
{
    if !is_key(&draft.node) {
        return Ok(());
    }
    if is_empty(end_kind(alloc, nodes.chain, nodes, draft)?) {
        return Err(SchemaFault::BadArgument {
            keyword: Text::from_str(alloc, "key")?,
        });
    }
    Ok(())
}

// A leafref that leads back to itself.
fn leads_back(alloc: Global, nodes: &Nodes<'_>, draft: &Draft) -> Result<(), SchemaFault>
    requires { IsIndex nodes.now.index.now }
    ensures { Meets (leads_back nodes.now.chain (look nodes.now) draft.now) result }
{
    if leads_to(alloc, nodes.chain, nodes, &draft.names, draft)? {
        return Err(SchemaFault::Loop {
            name: Text::from_str(alloc, own_name(draft))?,
        });
    }
    Ok(())
}

// The fault of a leafref.
fn reference_fault(
    alloc: Global,
    nodes: &Nodes<'_>,
    draft: &Draft,
    reference: &Reference,
) -> Result<(), SchemaFault>
    requires { IsIndex nodes.now.index.now }
    ensures { Meets (reference_fault nodes.now.chain (look nodes.now) draft.now reference.now) result }
{
    match lost(alloc, nodes, draft, reference) {
        Err(fault) => Err(fault),
        Ok(()) => match empty_key(alloc, nodes, draft) {
            Err(fault) => Err(fault),
            Ok(()) => leads_back(alloc, nodes, draft),
        },
    }
}

// The fault of a node's leafref.
pub(crate) fn link_fault(alloc: Global, nodes: &Nodes<'_>, draft: &Draft) -> Result<(), SchemaFault>
    requires { IsIndex nodes.now.index.now }
    ensures { Meets (link_fault nodes.now.chain (look nodes.now) draft.now) result }
{
    match reference_at(draft) {
        Some(reference) => reference_fault(alloc, nodes, draft, reference),
        None => Ok(()),
    }
}

// Where a leafref leads.
fn target_of(alloc: Global, draft: &Draft, reference: &Reference) -> Result<Target, Memory>
    ensures { IfOk result (λ target. target ≡ target_of draft.now reference.now) }
{
    let names = match target_names(alloc, draft, reference)? {
        Some(names) => names,
        None => Row::new(alloc),
    };
    Ok(Target {
        names,
        shared: kept_names(draft, reference) as u64,
    })
}

// Where a node's leafref leads.
pub(crate) fn target_at(alloc: Global, draft: &Draft) -> Result<Option<Target>, Memory>
    ensures { IfOk result (λ target. target ≡ target_at draft.now) }
{
    match reference_at(draft) {
        Some(reference) => Ok(Some(target_of(alloc, draft, reference)?)),
        None => Ok(None),
    }
}

// Whether the kind of a leaf or leaf-list is reached only through more leafrefs than are followed.
pub(crate) fn is_cut(alloc: Global, nodes: &Nodes<'_>, draft: &Draft) -> Result<bool, Memory>
    requires { IsIndex nodes.now.index.now }
    ensures { IfOk result (λ cut. cut ≡ is_cut nodes.now.chain (look nodes.now) draft.now) }
{
    if type_of(&draft.node).is_none() {
        return Ok(false);
    }
    Ok(end_kind(alloc, nodes.chain, nodes, draft)?.is_none())
}

// The kind of a node's values. Where more leafrefs lead on to one another than may, it runs out of memory.
pub(crate) fn kind_at(alloc: Global, nodes: &Nodes<'_>, draft: &Draft) -> Result<Kind, Memory>
    requires { IsIndex nodes.now.index.now }
    ensures { IfOk result (λ kind. kind ≡ kind_at nodes.now.chain (look nodes.now) draft.now) }
{
    match end_kind(alloc, nodes.chain, nodes, draft)? {
        Some(kind) => kind.copy(alloc),
        None => Err(Memory),
    }
}
