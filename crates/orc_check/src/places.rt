//! What is missing, or too many, at the places of a configuration.
ghost use Rattle.std.specs.Prelude.{◌≡◌, ◌++◌, option_map};
ghost use Rattle.std.specs.List.{fold, flat_map};
ghost use Rattle.std.specs.Option.{option_map_or};
ghost use Rattle.orc_schema_nodes.specs.Schemas.{Ascends};
ghost use Rattle.orc_check.specs.Validity.{lesser_breach, plain_steps, is_missing, count_breaches, node_breaches, line_breaches, place_breaches, places};
ghost use Rattle.orc_check.specs.Found.{place_path, found_breach};
ghost use Rattle.orc_check.specs.inside.Lent.{has_too_many};

use crate::counting::{has_fewer, has_more};
use crate::found::{Found, keep_if, place_steps};
use crate::lines::{first_line, is_past};
use crate::lookup::is_absent;
use crate::reach::{is_place, reached};
use crate::rules::{MANDATORY, MAX_ELEMENTS, MIN_ELEMENTS};
use orc_path::Path;
use orc_schema_nodes::{LeafNode, Node, Schema, SchemaLine};
use orc_text::Text;
use orc_tree::Tree;

// Whether a mandatory leaf, that is no key, is missing.
fn is_missing(tree: &Tree, leaf: &LeafNode, place: Option<&Path>, names: &[Text]) -> bool
    ensures { result ≡ is_missing tree.now (place_path place.entry ++ plain_steps names.now) leaf.now }
{
    match leaf.key {
        Some(_) => false,
        None => leaf.mandatory && is_absent(tree, place_steps(place), names),
    }
}

// Whether a list has more entries than the number, where there is one.
fn has_too_many(tree: &Tree, place: Option<&Path>, names: &[Text], most: Option<u64>) -> bool
    ensures { result ≡ has_too_many tree.now (place_path place.entry ++ plain_steps names.now) most }
{
    match most {
        Some(number) => has_more(tree, place_steps(place), names, number),
        None => false,
    }
}

// The least of the best breach so far and of those of the numbers of a list's entries.
fn keep_counts<'a>(
    tree: &Tree,
    place: Option<&'a Path>,
    names: &'a [Text],
    least: u64,
    most: Option<u64>,
    best: Option<Found<'a>>,
) -> Option<Found<'a>>
    ensures { found_breach result ≡ fold lesser_breach (found_breach best.entry)
        (count_breaches tree.now (place_path place.entry ++ plain_steps names.now) least most) }
{
    let few = has_fewer(tree, place_steps(place), names, least);
    let many = has_too_many(tree, place, names, most);
    let kept = keep_if(best, few, place, names, MIN_ELEMENTS);
    keep_if(kept, many, place, names, MAX_ELEMENTS)
}

// The least of the best breach so far and of those at the path of a node.
fn keep_node<'a>(
    tree: &Tree,
    place: Option<&'a Path>,
    names: &'a [Text],
    node: &Node,
    best: Option<Found<'a>>,
) -> Option<Found<'a>>
    ensures { found_breach result ≡ fold lesser_breach (found_breach best.entry)
        (node_breaches tree.now node.now (place_path place.entry ++ plain_steps names.now)) }
{
    match node {
        Node::Container => best,
        Node::List(list) => keep_counts(tree, place, names, list.least, list.most, best),
        Node::Leaf(leaf) => keep_if(
            best,
            is_missing(tree, leaf, place, names),
            place,
            names,
            MANDATORY,
        ),
        Node::LeafList(values) => keep_counts(tree, place, names, values.least, values.most, best),
    }
}

/// The least of the best breach so far and of those of a line of the schema, where it is reached from
/// the place.
pub(crate) fn keep_line<'a>(
    schema: &Schema,
    tree: &Tree,
    place: Option<&'a Path>,
    line: &'a SchemaLine,
    best: Option<Found<'a>>,
) -> Option<Found<'a>>
    ensures { found_breach result ≡ fold lesser_breach (found_breach best.entry)
        (line_breaches schema.now tree.now (place_path place.entry) line.now) }
{
    match reached(schema, place_steps(place), line.names.as_slice()) {
        Some(names) => keep_node(tree, place, names, &line.node, best),
        None => best,
    }
}

// The least of the best breach so far and of those of lines, up to the first that no longer leads on
// from the place.
fn keep_lines<'a>(
    schema: &Schema,
    tree: &Tree,
    place: Option<&'a Path>,
    lines: &'a [SchemaLine],
    best: Option<Found<'a>>,
) -> Option<Found<'a>>
    requires { Ascends lines.now }
    ensures { found_breach result ≡ fold lesser_breach (found_breach best.entry)
        (flat_map (line_breaches schema.now tree.now (place_path place.entry)) lines.now) }
{
    let steps = place_steps(place);
    let mut kept = best;
    for line in lines {
        if is_past(line, steps) {
            return kept;
        }
        kept = keep_line(schema, tree, place, line, kept);
    }
    kept
}

/// The least of the best breach so far and of those at a place. It looks at the lines that lead on from
/// the place, and searches for the first of these.
pub(crate) fn keep_place<'a>(
    schema: &'a Schema,
    tree: &Tree,
    place: Option<&'a Path>,
    best: Option<Found<'a>>,
) -> Option<Found<'a>>
    ensures { found_breach result ≡ fold lesser_breach (found_breach best.entry)
        (place_breaches schema.now tree.now (place_path place.entry)) }
{
    let lines = schema.lines();
    let at = first_line(lines, place_steps(place));
    keep_lines(schema, tree, place, &lines[at..], best)
}

/// The least of the best breach so far and of those at all places.
pub(crate) fn least_of_places<'a>(
    schema: &'a Schema,
    tree: &'a Tree,
    best: Option<Found<'a>>,
) -> Option<Found<'a>>
    ensures { found_breach result ≡ fold lesser_breach (found_breach best.entry)
        (flat_map (place_breaches schema.now tree.now) (places schema.now tree.now)) }
{
    let mut kept = keep_place(schema, tree, None, best);
    for row in tree.rows() {
        if is_place(schema, row) {
            kept = keep_place(schema, tree, Some(&row.0), kept);
        }
    }
    kept
}
