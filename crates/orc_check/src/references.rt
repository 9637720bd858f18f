//! Leafrefs: whether a value is that of an instance of its target (RFC 7950 section 9.9).
ghost use Rattle.std.specs.Prelude.{◌≡◌, ◌&&◌, ◌++◌, ◌∷◌, [], ◌≤◌, length, take, map, option_map, false, true};
ghost use Rattle.std.specs.Option.{option_map_or};
ghost use Rattle.std.specs.List.{list_any};
ghost use Rattle.std.specs.FinMap.{entries, get};
ghost use Rattle.orc_path.specs.declared.item.Item.TheVariants.{Entry};
ghost use Rattle.orc_schema_nodes.specs.Names.{same_names};
ghost use Rattle.orc_schema_nodes.specs.Schemas.{path_names};
ghost use Rattle.orc_check.specs.Validity.{plain_steps, shares, is_value_of, last_keys, key_values, item_values, values_of, row_has, has_default, place_lacks, places, has_instance, target_in, lacks_instance};
ghost use Rattle.orc_check.specs.inside.Lent.{lacks_instance_at};
ghost use Rattle.orc_check.specs.inside.Named.{named_path, is_present, is_lacked_above, has_at_leaf, IsSingle, has_at, is_instance_at};

use crate::instances::{Instance, place_of};
use crate::keys::{OwnKey, is_leaf_list, own_key, single};
use crate::lookup::{is_absent, row_at};
use crate::order::{is_plain, same_step};
use crate::reach::{is_place, reached};
use crate::sharing::has_row;
use crate::spot::{Keyed, Spot};
use crate::under::row_of_steps;
use orc_path::{Item, Path, Step};
use orc_schema_nodes::{Node, Schema, Target};
use orc_text::Text;
use orc_tree::Tree;
use orc_typed::is_in_schema;

// Whether the first n steps of two paths are the same; those of the first one are lent in two parts.
fn shares(number: u64, steps: &[Step], names: &[Text], path: &[Step]) -> bool
    ensures { result ≡ shares number (steps.now ++ plain_steps names.now) path.now }
{
    if number == 0 {
        return true;
    }
    match path {
        [] => steps.is_empty() && names.is_empty(),
        [own, below @ ..] => match steps {
            [step, later @ ..] => same_step(step, own) && shares(number - 1, later, names, below),
            [] => match names {
                [] => false,
                [name, later @ ..] => is_plain(name, own)
                    && shares(number - 1, steps, later, below),
            },
        },
    }
}

// Whether the names of steps are these.
fn are_names(steps: &[Step], names: &[Text]) -> bool
    ensures { result ≡ same_names (path_names steps.now) names.now }
{
    match steps {
        [] => names.is_empty(),
        [step, below @ ..] => match names {
            [] => false,
            [name, later @ ..] => step.node.as_str() == name.as_str() && are_names(below, later),
        },
    }
}

// Whether the names of steps, with one after them, are these.
fn are_names_with(steps: &[Step], last: &Text, names: &[Text]) -> bool
    ensures { result ≡ same_names (path_names steps.now ++ last.now ∷ []) names.now }
{
    match names {
        [] => false,
        [name, later @ ..] => match steps {
            [] => last.as_str() == name.as_str() && later.is_empty(),
            [step, below @ ..] => step.node.as_str() == name.as_str()
                && are_names_with(below, last, later),
        },
    }
}

/// The keys of the last of the steps.
pub(crate) fn last_keys(steps: &[Step]) -> &[Text]
    ensures { result.now ≡ last_keys steps.now }
{
    match steps {
        [] => &[],
        [step, later @ ..] => match later {
            [] => step.keys.as_slice(),
            [..] => last_keys(later),
        },
    }
}

// Whether one of the keys of an entry of the list at these steps is the text as a value at the names.
fn has_key(steps: &[Step], keys: &[Text], texts: &[Text], names: &[Text], text: &Text) -> bool
    ensures { result ≡ list_any (is_value_of names.now text.now)
        (key_values (path_names steps.now) keys.now texts.now) }
{
    match keys {
        [] => false,
        [key, later @ ..] => match texts {
            [] => false,
            [own, more @ ..] => {
                are_names_with(steps, key, names) && own.as_str() == text.as_str()
                    || has_key(steps, later, more, names, text)
            }
        },
    }
}

// Whether the entry of a leaf-list at these steps has the text as a value at the names.
fn has_value(steps: &[Step], texts: &[Text], names: &[Text], text: &Text) -> bool
    ensures { result ≡ list_any (is_value_of names.now text.now)
        (map (λ own. record { names = path_names steps.now; text = own }) texts.now) }
{
    match texts {
        [] => false,
        [own, more @ ..] => {
            are_names(steps, names) && own.as_str() == text.as_str()
                || has_value(steps, more, names, text)
        }
    }
}

// Whether an entry holds the text as a value at the names.
fn entry_has(schema: &Schema, steps: &[Step], names: &[Text], text: &Text) -> bool
    ensures { result ≡ list_any (is_value_of names.now text.now) (item_values schema.now steps.now Entry) }
{
    match schema.node(steps) {
        Some(Node::List(list)) => has_key(
            steps,
            list.keys.as_slice(),
            last_keys(steps),
            names,
            text,
        ),
        Some(Node::LeafList(_)) => has_value(steps, last_keys(steps), names, text),
        Some(Node::Container) => false,
        Some(Node::Leaf(_)) => false,
        None => false,
    }
}

// Whether an item holds the text as a value at the names.
fn item_has(schema: &Schema, path: &Path, item: &Item, names: &[Text], text: &Text) -> bool
    ensures { result ≡ list_any (is_value_of names.now text.now) (item_values schema.now path.now item.now) }
{
    let steps = path.steps.as_slice();
    match item {
        Item::Entry => entry_has(schema, steps, names, text),
        Item::Leaf(own) => are_names(steps, names) && own.as_str() == text.as_str(),
    }
}

// Whether an item is one of the schema, and holds the text as a value at the names: these are looked
// at first, since that costs least.
fn path_has(schema: &Schema, path: &Path, item: &Item, names: &[Text], text: &Text) -> bool
    ensures { result ≡ list_any (is_value_of names.now text.now) (values_of schema.now (path.now, item.now)) }
{
    item_has(schema, path, item, names, text) && is_in_schema(schema, path, item)
}

/// Whether a row holds the text as a value of the target, under the same entries as the path.
pub(crate) fn row_has(
    schema: &Schema,
    target: &Target,
    text: &Text,
    path: &[Step],
    row: &(Path, Item),
) -> bool
    ensures { result ≡ row_has schema.now target.now text.now path.now row.now }
{
    shares(target.shared, row.0.steps.as_slice(), &[], path)
        && path_has(schema, &row.0, &row.1, target.names.as_slice(), text)
}

/// The first steps of a path, so many as there are up to this number.
pub fn first_steps(path: &[Step], number: usize) -> &[Step]
    ensures { result.now ≡ take number path.now }
{
    if path.len() <= number {
        return path;
    }
    &path[..number]
}

// Whether the entry of the list that has the text as its key does.
fn has_entry(
    schema: &Schema,
    tree: &Tree,
    target: &Target,
    own: &OwnKey<'_>,
    text: &Text,
    path: &[Step],
) -> bool
    requires { target.now.shared ≤ length own.now.before.now }
    ensures { result ≡ option_map_or
        (λ item. row_has schema.now target.now text.now path.now
        (named_path target.now own.now.before.now own.now.list.now text.now path.now, item))
        (get tree.now (named_path target.now own.now.before.now own.now.list.now text.now path.now)) false }
{
    let shared = target.shared as usize;
    let spot = Spot {
        steps: first_steps(path, shared),
        names: &own.before[shared..],
        entry: Some(Keyed {
            name: own.list,
            key: text,
        }),
    };
    match row_at(tree, &spot) {
        Some(row) => row_has(schema, target, text, path, row),
        None => false,
    }
}

// Whether the text is the default at the names.
fn has_default(schema: &Schema, names: &[Text], text: &Text) -> bool
    ensures { result ≡ has_default schema.now names.now text.now }
{
    match schema.node_of_names(names) {
        Some(Node::Leaf(leaf)) => match leaf.key {
            Some(_) => false,
            None => match &leaf.default {
                Some(own) => text.as_str() == own.as_str(),
                None => false,
            },
        },
        Some(Node::Container) => false,
        Some(Node::List(_)) => false,
        Some(Node::LeafList(_)) => false,
        None => false,
    }
}

// Whether the target is missing below a place, under the same entries as the path.
fn place_lacks(schema: &Schema, tree: &Tree, target: &Target, path: &[Step], place: &[Step]) -> bool
    ensures { result ≡ place_lacks schema.now tree.now target.now path.now place.now }
{
    match reached(schema, place, target.names.as_slice()) {
        Some(later) => is_absent(tree, place, later) && shares(target.shared, place, later, path),
        None => false,
    }
}

// Whether it is missing below one of the places.
fn is_lacked(schema: &Schema, tree: &Tree, target: &Target, path: &[Step]) -> bool
    ensures { result ≡ list_any (place_lacks schema.now tree.now target.now path.now) (places schema.now tree.now) }
{
    if place_lacks(schema, tree, target, path, &[]) {
        return true;
    }
    for row in tree.rows() {
        if is_place(schema, row)
            && place_lacks(schema, tree, target, path, row.0.steps.as_slice())
        {
            return true;
        }
    }
    false
}

// Whether an entry of a list of the schema stands at the path.
fn is_present(schema: &Schema, tree: &Tree, path: &[Step]) -> bool
    ensures { result ≡ is_present schema.now tree.now path.now }
{
    match row_of_steps(tree, path) {
        Some(row) => is_place(schema, row),
        None => false,
    }
}

// Whether such an entry is the place, and the target is missing below it.
fn is_lacked_at(
    schema: &Schema,
    tree: &Tree,
    target: &Target,
    path: &[Step],
    place: &[Step],
) -> bool
    ensures { result ≡ (is_present schema.now tree.now place.now
        && place_lacks schema.now tree.now target.now path.now place.now) }
{
    is_present(schema, tree, place) && place_lacks(schema, tree, target, path, place)
}

// Whether the target is missing below the root, or below one of the entries that the first steps of
// the path are.
fn is_lacked_above(
    schema: &Schema,
    tree: &Tree,
    target: &Target,
    path: &[Step],
    number: usize,
) -> bool
    ensures { result ≡ is_lacked_above schema.now tree.now target.now path.now number }
{
    if number == 0 {
        return place_lacks(schema, tree, target, path, &[]);
    }
    is_lacked_at(schema, tree, target, path, first_steps(path, number))
        || is_lacked_above(schema, tree, target, path, number - 1)
}

// Whether the text is the target's default, and the target is missing so.
fn is_default_above(
    schema: &Schema,
    tree: &Tree,
    target: &Target,
    text: &Text,
    path: &[Step],
) -> bool
    ensures { result ≡ (has_default schema.now target.now.names text.now
        && is_lacked_above schema.now tree.now target.now path.now target.now.shared) }
{
    has_default(schema, target.names.as_slice(), text)
        && is_lacked_above(schema, tree, target, path, target.shared as usize)
}

// Whether the one leaf that is the target has the text, or lacks and has it as its default.
fn has_at_leaf<'a>(
    schema: &Schema,
    tree: &Tree,
    target: &'a Target,
    text: &Text,
    path: &'a [Step],
) -> bool
    requires { target.now.shared ≤ length target.now.names }
    ensures { result ≡ has_at_leaf schema.now tree.now target.now text.now path.now }
{
    let shared = target.shared as usize;
    let names = target.names.as_slice();
    let spot = Spot {
        steps: first_steps(path, shared),
        names: &names[shared..],
        entry: None,
    };
    match row_at(tree, &spot) {
        Some(row) => row_has(schema, target, text, path, row),
        None => is_default_above(schema, tree, target, text, path),
    }
}

// Whether a target that stands once below the entries that it shares has an instance with the text.
fn has_single(
    schema: &Schema,
    tree: &Tree,
    target: &Target,
    own: &OwnKey<'_>,
    text: &Text,
    path: &[Step],
) -> bool
    requires { IsSingle schema.now target.now own.now.before.now own.now.list.now }
    ensures { result ≡ has_instance schema.now tree.now target.now text.now path.now }
{
    if is_leaf_list(schema.node_of_names(target.names.as_slice())) {
        return has_entry(schema, tree, target, own, text, path);
    }
    has_at_leaf(schema, tree, target, text, path)
}

// Whether the row at these steps has the text as a value of the target, under the same entries as the
// path.
fn has_at(
    schema: &Schema,
    tree: &Tree,
    target: &Target,
    text: &Text,
    path: &[Step],
    steps: &[Step],
) -> bool
    ensures { result ≡ has_at schema.now tree.now target.now text.now path.now steps.now }
{
    match row_of_steps(tree, steps) {
        Some(row) => row_has(schema, target, text, path, row),
        None => false,
    }
}

// Whether that row has it, or the target is missing below this place and has it as its default.
fn is_instance_at(
    schema: &Schema,
    tree: &Tree,
    target: &Target,
    text: &Text,
    path: &[Step],
    steps: &[Step],
) -> bool
    ensures { result ≡ is_instance_at schema.now tree.now target.now text.now path.now steps.now }
{
    has_at(schema, tree, target, text, path, steps)
        || has_default(schema, target.names.as_slice(), text)
            && is_lacked_at(schema, tree, target, path, steps)
}

// Whether the index leads to an instance of the target with the text, seen from the path.
fn has_listed(
    schema: &Schema,
    tree: &Tree,
    index: &[Instance<'_>],
    target: &Target,
    text: &Text,
    path: &[Step],
) -> bool
    ensures { result ≡ true → has_instance schema.now tree.now target.now text.now path.now ≡ true }
{
    match place_of(index, target, text, path) {
        Some(steps) => is_instance_at(schema, tree, target, text, path, steps),
        None => false,
    }
}

// Whether the target has an instance with the text, seen from the path: a look at the rows that share
// its entries, and for a default at each place.
fn has_unlisted(schema: &Schema, tree: &Tree, target: &Target, text: &Text, path: &[Step]) -> bool
    ensures { result ≡ has_instance schema.now tree.now target.now text.now path.now }
{
    has_row(schema, tree, target, text, path)
        || has_default(schema, target.names.as_slice(), text)
            && is_lacked(schema, tree, target, path)
}

// Whether the target has an instance with the text, seen from the path. Where the index leads to one,
// that is all that is looked at.
fn has_instance_among(
    schema: &Schema,
    tree: &Tree,
    index: &[Instance<'_>],
    target: &Target,
    text: &Text,
    path: &[Step],
) -> bool
    ensures { result ≡ has_instance schema.now tree.now target.now text.now path.now }
{
    if has_listed(schema, tree, index, target, text, path) {
        return true;
    }
    has_unlisted(schema, tree, target, text, path)
}

// Whether a target that isn't the one key of a list has an instance with the text, seen from the path:
// where it stands once below the entries that it shares, it is found by a search.
fn has_instance_behind(
    schema: &Schema,
    tree: &Tree,
    index: &[Instance<'_>],
    target: &Target,
    text: &Text,
    path: &[Step],
) -> bool
    ensures { result ≡ has_instance schema.now tree.now target.now text.now path.now }
{
    match single(schema, target) {
        Some(own) => has_single(schema, tree, target, &own, text, path),
        None => has_instance_among(schema, tree, index, target, text, path),
    }
}

// Whether the target has an instance with the text, seen from the path. Where it is the one key of a
// list, its entry is named by the text and found by a search.
fn has_instance(
    schema: &Schema,
    tree: &Tree,
    index: &[Instance<'_>],
    target: &Target,
    text: &Text,
    path: &[Step],
) -> bool
    ensures { result ≡ has_instance schema.now tree.now target.now text.now path.now }
{
    match own_key(schema, target) {
        Some(own) => has_entry(schema, tree, target, &own, text, path),
        None => has_instance_behind(schema, tree, index, target, text, path),
    }
}

/// The target of a leaf or a leaf-list whose type is a leafref (RFC 7950 section 9.9).
pub fn target_in(node: &Node) -> Option<&Target>
    ensures { option_map (λ target. target.now) result ≡ target_in node.now }
{
    match node {
        Node::Leaf(leaf) => leaf.target.as_ref(),
        Node::LeafList(values) => values.target.as_ref(),
        Node::Container => None,
        Node::List(_) => None,
    }
}

// Whether a value of a node at the path leads to a target that has no such instance.
fn lacks_instance(
    schema: &Schema,
    tree: &Tree,
    index: &[Instance<'_>],
    path: &[Step],
    node: Option<&Node>,
    text: &Text,
) -> bool
    ensures { result ≡ lacks_instance_at schema.now tree.now path.now
        (option_map (λ found. found.now) node.entry) text.now }
{
    let Some(known) = node else {
        return false;
    };
    match target_in(known) {
        Some(target) => !has_instance(schema, tree, index, target, text, path),
        None => false,
    }
}

// Whether one of the keys of an entry of the list at these steps does.
fn has_dangling_key(
    schema: &Schema,
    tree: &Tree,
    index: &[Instance<'_>],
    steps: &[Step],
    keys: &[Text],
    texts: &[Text],
) -> bool
    ensures { result ≡ list_any (lacks_instance schema.now tree.now steps.now)
        (key_values (path_names steps.now) keys.now texts.now) }
{
    match keys {
        [] => false,
        [key, later @ ..] => match texts {
            [] => false,
            [own, more @ ..] => {
                lacks_instance(
                    schema,
                    tree,
                    index,
                    steps,
                    schema.node_below(steps, key.as_str()),
                    own,
                ) || has_dangling_key(schema, tree, index, steps, later, more)
            }
        },
    }
}

// Whether the value of an entry of a leaf-list does.
fn has_dangling_value(
    schema: &Schema,
    tree: &Tree,
    index: &[Instance<'_>],
    steps: &[Step],
    texts: &[Text],
) -> bool
    ensures { result ≡ list_any (lacks_instance schema.now tree.now steps.now)
        (map (λ own. record { names = path_names steps.now; text = own }) texts.now) }
{
    match texts {
        [] => false,
        [own, more @ ..] => {
            lacks_instance(schema, tree, index, steps, schema.node(steps), own)
                || has_dangling_value(schema, tree, index, steps, more)
        }
    }
}

// Whether a value of an entry does.
fn has_dangling_in(schema: &Schema, tree: &Tree, index: &[Instance<'_>], steps: &[Step]) -> bool
    ensures { result ≡ list_any (lacks_instance schema.now tree.now steps.now)
        (item_values schema.now steps.now Entry) }
{
    match schema.node(steps) {
        Some(Node::List(list)) => has_dangling_key(
            schema,
            tree,
            index,
            steps,
            list.keys.as_slice(),
            last_keys(steps),
        ),
        Some(Node::LeafList(_)) => has_dangling_value(schema, tree, index, steps, last_keys(steps)),
        Some(Node::Container) => false,
        Some(Node::Leaf(_)) => false,
        None => false,
    }
}

/// Whether a value that a row holds leads to a target that has no instance with its text.
pub(crate) fn has_dangling(
    schema: &Schema,
    tree: &Tree,
    index: &[Instance<'_>],
    row: &(Path, Item),
) -> bool
    ensures { result ≡ list_any (lacks_instance schema.now tree.now row.now.0) (values_of schema.now row.now) }
{
    if !is_in_schema(schema, &row.0, &row.1) {
        return false;
    }
    let steps = row.0.steps.as_slice();
    match &row.1 {
        Item::Entry => has_dangling_in(schema, tree, index, steps),
        Item::Leaf(text) => lacks_instance(schema, tree, index, steps, schema.node(steps), text),
    }
}
