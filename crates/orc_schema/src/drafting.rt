//! The nodes that statements define, in the order of the text.
ghost use Rattle.std.specs.Prelude.{◌≡◌, List, [], ◌∷◌, ◌++◌, IfOk, OnOk, option_map};
ghost use Rattle.std.specs.List.{position};
ghost use Rattle.std.specs.Option.{option_map_or};
ghost use Rattle.orc_modules.specs.Children.{grouping};
ghost use Rattle.orc_value.specs.Canon.{same_text};
ghost use Rattle.orc_modules.specs.Stack.{stack, found, modules_of};
ghost use Rattle.orc_types.specs.Statements.{argument};
ghost use Rattle.orc_modules.specs.Statements.{word};
ghost use Rattle.orc_modules.specs.declared.word.Word.TheVariants.{Leaf, LeafList};
ghost use Rattle.orc_statements.specs.Arguments.{keys_of};
ghost use Rattle.orc_schema.specs.Drafts.{name_behind, names_at, least_count, most_count, draft_kind, draft_of, draft_type, canonical, inherited, default_text, leaf_default, leaf_node, draft_node, draft, in_grouping, drafts_below};
ghost use Rattle.orc_schema.specs.inside.Carried.{where_of};

use crate::draft::{Draft, DraftLeaf, DraftNode, DraftType, DraftValues};
use crate::weights::draft_weight;
use orc_modules::{
    Above, Found, Modules, Part, Typed, Word, argument_below, block_part, bringer, looks_below,
    module_called, sub_text, text_looks, word_of,
};
use orc_schema_nodes::ListNode;
use orc_statements::{count_of, is_mandatory, keys_of, reference_of, typed};
use orc_text::{Memory, Row, Text};
use orc_types::{LeafType, argument, default_of};
use orc_value::Kind;
use orc_yang::Stmt;
use std::alloc::Global;

/// A schema has at most so many nodes.
pub const MAX_NODES: usize = 1_000_000;

/// Where a block's nodes come to stand: the statements around it, the module that has them, the
/// names down to it, and the keys of the list that it belongs to.
#[derive(Clone, Copy)]
pub(crate) struct Where<'a, 'm> {
    pub(crate) above: &'a Above<'a, 'm>,
    pub(crate) owner: &'a str,
    pub(crate) names: &'a Row<Text>,
    pub(crate) keys: &'a Row<Text>,
}

// A node's own name; the first has its module.
fn name_behind(alloc: Global, owner: &str, names: &[Text], name: &str) -> Result<Text, Memory>
    ensures { IfOk result (λ made. made ≡ name_behind owner.now names.now name.now) }
{
    if names.is_empty() {
        qualified(alloc, owner, name)
    } else {
        Text::from_str(alloc, name)
    }
}

// A name after its module's name and a colon.
pub(crate) fn qualified(alloc: Global, owner: &str, name: &str) -> Result<Text, Memory>
    ensures { IfOk result (λ made. made ≡ owner.now ++ 58 ∷ name.now) }
{
    let mut string = String::from_str(alloc, owner)?;
    string.push(':')?;
    string.push_str(name)?;
    Ok(Text::from_string(string))
}

// The names down to a node.
fn names_at(alloc: Global, at: &Where<'_, '_>, stmt: &Stmt) -> Result<Row<Text>, Memory>
    ensures { IfOk result (λ names. names ≡ names_at (where_of at.now) stmt.now) }
{
    let mut names = at.names.copy(alloc)?;
    names.push(name_behind(alloc, at.owner, at.names.as_slice(), argument(stmt))?)?;
    Ok(names)
}

fn least(stmt: &Stmt) -> u64
    ensures { result ≡ least_count stmt.now }
{
    count_of(sub_text("min-elements", stmt)).unwrap_or(0)
}

fn most(stmt: &Stmt) -> Option<u64>
    ensures { result ≡ most_count stmt.now }
{
    count_of(sub_text("max-elements", stmt))
}

fn draft_kind(kind: Option<Kind>) -> DraftType
    ensures { result ≡ draft_kind kind }
{
    match kind {
        Some(known) => DraftType::Own(known),
        None => DraftType::Own(Kind::Empty),
    }
}

// The type of a leaf; a leafref's path stands in the module `home`.
fn draft_of(
    alloc: Global,
    modules: &Modules<'_>,
    home: &str,
    of_type: &LeafType,
) -> Result<DraftType, Memory>
    ensures { IfOk result (λ made. made ≡ draft_of (modules_of modules.now) home.now of_type.now) }
{
    match of_type {
        LeafType::Leafref(path) => {
            modules.looks.pass(modules.all.len());
            Ok(DraftType::To(reference_of(
                alloc,
                modules,
                module_called(modules.all, home),
                path.as_str(),
            )?))
        },
        _ => Ok(draft_kind(of_type.kind(alloc)?)),
    }
}

fn draft_type(
    alloc: Global,
    modules: &Modules<'_>,
    typed: &Option<Typed>,
) -> Result<DraftType, Memory>
    ensures { IfOk result (λ made. made ≡ draft_type (modules_of modules.now) typed.now) }
{
    match typed {
        Some(known) => draft_of(alloc, modules, known.home.as_str(), &known.of_type),
        None => Ok(draft_kind(None)),
    }
}

// The canonical text of a default.
fn canonical(alloc: Global, typed: &Option<Typed>, text: &str) -> Result<Option<Text>, Memory>
    ensures { IfOk result (λ made. made ≡ canonical typed.now text.now) }
{
    match typed {
        Some(known) => match known.of_type.kind(alloc)? {
            Some(kind) => default_of(alloc, &kind, text),
            None => Ok(None),
        },
        None => Ok(None),
    }
}

fn inherited(typed: &Option<Typed>) -> Option<&str>
    ensures { option_map (λ text. text.now) result ≡ inherited typed.now }
{
    match typed {
        Some(known) => match &known.default {
            Some(text) => Some(text.as_str()),
            None => None,
        },
        None => None,
    }
}

// A leaf's own default, or else that of its typedefs.
fn default_text<'a>(typed: &'a Option<Typed>, stmt: &'a Stmt) -> Option<&'a str>
    ensures { option_map (λ text. text.now) result ≡ default_text typed.now stmt.now }
{
    match argument_below("default", stmt) {
        Some(text) => Some(text),
        None => inherited(typed),
    }
}

// The default that counts.
fn default_at(
    alloc: Global,
    typed: &Option<Typed>,
    stmt: &Stmt,
    key: Option<u32>,
) -> Result<Option<Text>, Memory>
    ensures { IfOk result (λ made. made ≡ leaf_default typed.now stmt.now key) }
{
    if key.is_some() {
        return Ok(None);
    }
    if is_mandatory(stmt) {
        return Ok(None);
    }
    match default_text(typed, stmt) {
        Some(text) => canonical(alloc, typed, text),
        None => Ok(None),
    }
}

// The place of a leaf among the keys of its list.
fn key_place(keys: &[Text], stmt: &Stmt) -> Option<usize>
    ensures { result ≡ position (same_text (argument stmt.now)) keys.now }
{
    let name = argument(stmt);
    keys.iter().position(|key| name == key.as_str())
}

// That place as a number of 32 bits; a list with more keys runs out of memory.
fn key_at(keys: &[Text], stmt: &Stmt) -> Result<Option<u32>, Memory>
    ensures { IfOk result (λ key. key ≡ position (same_text (argument stmt.now)) keys.now) }
{
    match key_place(keys, stmt) {
        Some(place) => {
            if place > u32::MAX as usize {
                return Err(Memory);
            }
            Ok(Some(place as u32))
        },
        None => Ok(None),
    }
}

fn leaf_node(
    alloc: Global,
    modules: &Modules<'_>,
    at: &Where<'_, '_>,
    stmt: &Stmt,
) -> Result<DraftNode, Memory>
    ensures { IfOk result (λ node. node ≡ draft_node (modules_of modules.now) (where_of at.now) stmt.now Leaf) }
{
    let known = typed(alloc, modules, at.above, stmt)?;
    modules.looks.pass(at.keys.len());
    let key = key_at(at.keys.as_slice(), stmt)?;
    Ok(DraftNode::Leaf(DraftLeaf {
        of_type: draft_type(alloc, modules, &known)?,
        default: default_at(alloc, &known, stmt, key)?,
        mandatory: is_mandatory(stmt) && key.is_none(),
        key,
    }))
}

// The keys of a list, whose text is gone through.
fn keys_below(alloc: Global, modules: &Modules<'_>, stmt: &Stmt) -> Result<Row<Text>, Memory>
    ensures { IfOk result (λ keys. keys ≡ keys_of stmt.now) }
{
    modules.looks.visit(text_looks(sub_text("key", stmt)))?;
    keys_of(alloc, stmt)
}

fn list_node(alloc: Global, modules: &Modules<'_>, stmt: &Stmt) -> Result<DraftNode, Memory>
    ensures { IfOk result (λ node. node ≡ DraftNode.List (record {
      keys = keys_of stmt.now;
      least = least_count stmt.now;
      most = most_count stmt.now;
    })) }
{
    Ok(DraftNode::List(ListNode {
        keys: keys_below(alloc, modules, stmt)?,
        least: least(stmt),
        most: most(stmt),
    }))
}

fn leaf_list_node(
    alloc: Global,
    modules: &Modules<'_>,
    at: &Where<'_, '_>,
    stmt: &Stmt,
) -> Result<DraftNode, Memory>
    ensures { IfOk result (λ node. node ≡ draft_node (modules_of modules.now) (where_of at.now) stmt.now LeafList) }
{
    let known = typed(alloc, modules, at.above, stmt)?;
    Ok(DraftNode::LeafList(DraftValues {
        of_type: draft_type(alloc, modules, &known)?,
        least: least(stmt),
        most: most(stmt),
    }))
}

// What a statement makes of its node.
fn draft_node(
    alloc: Global,
    modules: &Modules<'_>,
    at: &Where<'_, '_>,
    stmt: &Stmt,
) -> Result<DraftNode, Memory>
    ensures { IfOk result (λ node. node ≡ draft_node (modules_of modules.now) (where_of at.now) stmt.now
        (word stmt.now)) }
{
    match word_of(stmt.keyword.as_str()) {
        Word::List => list_node(alloc, modules, stmt),
        Word::Leaf => leaf_node(alloc, modules, at, stmt),
        Word::LeafList => leaf_list_node(alloc, modules, at, stmt),
        _ => Ok(DraftNode::Container),
    }
}

// The node that a statement defines.
fn draft(
    alloc: Global,
    modules: &Modules<'_>,
    at: &Where<'_, '_>,
    stmt: &Stmt,
) -> Result<Draft, Memory>
    ensures { IfOk result (λ made. made ≡ draft (modules_of modules.now) (where_of at.now) stmt.now) }
{
    let made = Draft {
        names: names_at(alloc, at, stmt)?,
        node: draft_node(alloc, modules, at, stmt)?,
    };
    modules.looks.keep(draft_weight(&made))?;
    Ok(made)
}

// Adds a node, where there are fewer than may be.
fn push_draft(out: &mut Row<Draft>, draft: Draft) -> Result<(), Memory>
    ensures { OnOk result (out.new ≡ out.old ++ draft ∷ []) }
{
    if out.len() >= MAX_NODES {
        return Err(Memory);
    }
    out.push(draft)
}

// The grouping that a `uses` names, where it may define nodes.
fn bringer_at<'a, 'm>(
    alloc: Global,
    depth: usize,
    modules: &Modules<'a>,
    at: &Where<'a, 'm>,
    stmt: &Stmt,
) -> Result<Option<Found<'a, 'm>>, Memory>
    ensures { IfOk result (λ o.
        option_map_or (λ g. drafts_below depth (modules_of modules.now) (in_grouping (where_of at.now) g) g.here)
        (grouping modules.now.all.now (stack at.now.above.now) stmt.now) []
        ≡ option_map_or (λ g. drafts_below depth (modules_of modules.now) (in_grouping (where_of at.now) g) g.here)
        (option_map found o) []) }
{
    bringer(alloc, depth, modules, at.above, stmt)
}

// Adds the nodes that the statements below one define, which stand in one another at most `depth`
// deep; where they are deeper, it runs out of memory.
#[cycle(drafts)]
pub(crate) fn push_drafts<'a, 'm>(
    alloc: Global,
    depth: usize,
    modules: &Modules<'a>,
    at: &Where<'a, 'm>,
    stmt: &'a Stmt,
    out: &mut Row<Draft>,
) -> Result<(), Memory>
    ensures { OnOk result (out.new
        ≡ out.old ++ drafts_below depth (modules_of modules.now) (where_of at.now) stmt.now) }
{
    if depth == 0 {
        return Err(Memory);
    }
    modules.go_down(depth)?;
    modules.looks.visit(looks_below(stmt))?;
    for sub in stmt.subs.as_slice() {
        match block_part(sub) {
            Part::Node => {
                push_draft(out, draft(alloc, modules, at, sub)?)?;
                let names = names_at(alloc, at, sub)?;
                let keys = keys_below(alloc, modules, sub)?;
                let inside = Where {
                    above: &Above::Under(sub, at.above),
                    owner: at.owner,
                    names: &names,
                    keys: &keys,
                };
                push_drafts(alloc, depth - 1, modules, &inside, sub, out)?;
            },
            Part::Uses => push_uses(alloc, depth - 1, &*modules, &*at, sub, out)?,
            Part::Nothing => {},
        }
    }
    Ok(())
}

// Adds the nodes that the grouping of a `uses` defines.
#[cycle(drafts)]
fn push_uses<'a, 'm>(
    alloc: Global,
    depth: usize,
    modules: &Modules<'a>,
    at: &Where<'a, 'm>,
    stmt: &Stmt,
    out: &mut Row<Draft>,
) -> Result<(), Memory>
    ensures { OnOk result (out.new ≡ out.old
        ++ option_map_or (λ g. drafts_below depth (modules_of modules.now) (in_grouping (where_of at.now) g) g.here)
        (grouping modules.now.all.now (stack at.now.above.now) stmt.now) []) }
{
    match bringer_at(alloc, depth, &*modules, &*at, stmt)? {
        Some(found) => {
            let owner = at.owner;
            let here = found.here;
            let inside = Where {
                above: &Above::Under(here, &found.above),
                owner,
                names: &*at.names,
                keys: &*at.keys,
            };
            push_drafts(alloc, depth, &*modules, &inside, here, out)
        },
        None => Ok(()),
    }
}
