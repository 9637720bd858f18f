//! What is broken at the node of a path, below the places on the path.
ghost use Rattle.std.specs.Prelude.{◌≡◌, ◌≤◌, [], length, if◌then◌else◌};
ghost use Rattle.std.specs.List.{fold};
ghost use Rattle.orc_check.specs.Validity.{lesser_breach, is_place, line_breaches};
ghost use Rattle.orc_revalidate.specs.inside.Looked.{can_lack, front_breaches, has_bound, node_breaches_on, standing_breaches};

use orc_check::{Best, is_place, row_of_steps};
use orc_path::{Item, Path, Step};
use orc_schema_nodes::{Node, Schema, SchemaLine};
use orc_tree::Tree;

// Whether a number of entries has a bound.
fn has_bound(least: u64, most: Option<u64>) -> bool
    ensures { result ≡ has_bound least most }
{
    0 < least || most.is_some()
}

// Whether something can be missing at a node, or too many.
fn can_lack(node: &Node) -> bool
    ensures { result ≡ can_lack node.now }
{
    match node {
        Node::Container => false,
        Node::List(list) => has_bound(list.least, list.most),
        Node::Leaf(leaf) => leaf.key.is_none() && leaf.mandatory,
        Node::LeafList(values) => has_bound(values.least, values.most),
    }
}

// The lesser of the best and of what is broken at a line below a row, where that is an entry of a list.
fn keep_below<'a>(
    best: Best<'a>,
    schema: &Schema,
    tree: &Tree,
    line: &'a SchemaLine,
    row: &'a (Path, Item),
) -> Best<'a>
    ensures { result ≡ fold lesser_breach best.entry
        (if is_place schema.now row.now then line_breaches schema.now tree.now row.now.0 line.now else []) }
{
    if is_place(schema, row) {
        best.keep_line(schema, tree, &row.0, line)
    } else {
        best
    }
}

// The lesser of the best and of what is broken at a line below the steps, where a row stands there.
fn keep_standing<'a>(
    best: Best<'a>,
    schema: &Schema,
    tree: &'a Tree,
    line: &'a SchemaLine,
    steps: &[Step],
) -> Best<'a>
    ensures { result ≡ fold lesser_breach best.entry (standing_breaches schema.now tree.now line.now steps.now) }
{
    match row_of_steps(tree, steps) {
        Some(row) => keep_below(best, schema, tree, line, row),
        None => best,
    }
}

// The lesser of the best and of what is broken at a line below the root, and below each entry that so
// many of the path's first steps are, or fewer.
fn keep_fronts<'a>(
    best: Best<'a>,
    schema: &Schema,
    tree: &'a Tree,
    line: &'a SchemaLine,
    path: &[Step],
    number: usize,
) -> Best<'a>
    requires { number ≤ length path.now }
    ensures { result ≡ fold lesser_breach best.entry
        (front_breaches schema.now tree.now line.now path.now number) }
{
    if number == 0 {
        return best.keep_top_line(schema, tree, line);
    }
    let kept = keep_standing(best, schema, tree, line, &path[..number]);
    keep_fronts(kept, schema, tree, line, path, number - 1)
}

// The lesser of the best and of what is broken at a line below the root, and below each entry on the path.
// Where nothing can be missing, or too many, at the node, no entry is searched for.
fn keep_at<'a>(
    best: Best<'a>,
    schema: &Schema,
    tree: &'a Tree,
    line: &'a SchemaLine,
    path: &[Step],
) -> Best<'a>
    ensures { result ≡ fold lesser_breach best.entry
        (front_breaches schema.now tree.now line.now path.now (length path.now)) }
{
    if can_lack(&line.node) {
        return keep_fronts(best, schema, tree, line, path, path.len());
    }
    best
}

/// The lesser of the best and of what is broken at the node of a path: that a mandatory leaf is missing
/// there, or the number of its list's entries. Only where that number has a bound are they counted.
pub(crate) fn keep_node<'a>(
    best: Best<'a>,
    schema: &'a Schema,
    tree: &'a Tree,
    path: &[Step],
) -> Best<'a>
    ensures { result ≡ fold lesser_breach best.entry (node_breaches_on schema.now tree.now path.now) }
{
    match schema.line(path) {
        Some(line) => keep_at(best, schema, tree, line, path),
        None => best,
    }
}
