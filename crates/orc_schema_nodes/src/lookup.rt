//! What a schema has at a path.
ghost use Rattle.std.specs.Prelude.{◌≡◌, ◌++◌, ◌∷◌, [], IfOk, option_map, option_and_then};
ghost use Rattle.std.specs.List.{find};
ghost use Rattle.orc_schema_nodes.specs.declared.line.Node.TheVariants.{Leaf};
ghost use Rattle.orc_schema_nodes.specs.Schemas.{Ascends, path_names, is_line_at, node_in_lines, node_at, shape_of, shape_at, kind_in, kind_at_path};

use crate::Schema;
use crate::line::{LeafNode, Node, SchemaLine};
use crate::sought::{BelowSteps, Listed, OfSteps, Sought, order_from};
use orc_path::{Name, Path, Shape, Step};
use orc_text::{Copied, Memory, Text};
use orc_value::Kind;
use std::alloc::Global;
use std::cmp::Ordering;

// The line of the names that are sought among lines in order. It halves the lines with each
// comparison, and knows how many first names the line below the rest and the one above it have in
// common with those that are sought. Each line between has at least the lesser number of them, so
// only the names after these are compared.
fn line_of<'a, T: Sought>(lines: &'a [SchemaLine], sought: &T) -> Option<&'a SchemaLine>
    requires { Ascends lines.now }
    ensures { option_map (λ line. line.now) result ≡ find (is_line_at (T.names sought.now)) lines.now }
{
    let mut low = 0;
    let mut high = lines.len();
    let mut below: usize = 0;
    let mut above: usize = 0;
    while low < high {
        let middle = low + (high - low) / 2;
        let line = &lines[middle];
        let (order, shared) = order_from(line.names.as_slice(), sought, below.min(above));
        match order {
            Ordering::Less => {
                low = middle + 1;
                below = shared;
            }
            Ordering::Equal => return Some(line),
            Ordering::Greater => {
                high = middle;
                above = shared;
            }
        }
    }
    None
}

// The line of the names of steps among lines in order.
fn line_at<'a>(lines: &'a [SchemaLine], steps: &[Step]) -> Option<&'a SchemaLine>
    requires { Ascends lines.now }
    ensures { option_map (λ line. line.now) result ≡ find (is_line_at (path_names steps.now)) lines.now }
{
    line_of(lines, &OfSteps { steps })
}

// The node at the names of steps with one name after them.
fn node_behind<'a>(lines: &'a [SchemaLine], steps: &[Step], name: &str) -> Option<&'a Node>
    requires { Ascends lines.now }
    ensures { option_map (λ node. node.now) result ≡ node_in_lines lines.now (path_names steps.now ++ name.now ∷ []) }
{
    match line_of(lines, &BelowSteps { steps, last: name }) {
        Some(line) => Some(&line.node),
        None => None,
    }
}

// The node of these names.
fn node_of<'a>(lines: &'a [SchemaLine], names: &[Text]) -> Option<&'a Node>
    requires { Ascends lines.now }
    ensures { option_map (λ node. node.now) result ≡ node_in_lines lines.now names.now }
{
    match line_of(lines, &Listed { names }) {
        Some(line) => Some(&line.node),
        None => None,
    }
}

fn leaf_shape(alloc: Global, leaf: &LeafNode) -> Result<Shape, Memory>
    ensures { IfOk result (λ shape. shape ≡ shape_of (Leaf leaf.now)) }
{
    match leaf.key {
        Some(place) => Ok(Shape::Key(place)),
        None => Ok(Shape::Leaf(Copied::copied(&leaf.default, alloc)?)),
    }
}

fn shape_of(alloc: Global, node: &Node) -> Result<Shape, Memory>
    ensures { IfOk result (λ shape. shape ≡ shape_of node.now) }
{
    match node {
        Node::Container => Ok(Shape::Container),
        Node::List(list) => Ok(Shape::List(list.keys.copy(alloc)?)),
        Node::Leaf(leaf) => leaf_shape(alloc, leaf),
        Node::LeafList(_) => Ok(Shape::LeafList),
    }
}

impl Schema {
    /// The line at the names of these steps, whatever their keys, if there is one. It takes no memory.
    pub fn line(&self, steps: &[Step]) -> Option<&SchemaLine>
        ensures { option_map (λ line. line.now) result ≡ find (is_line_at (path_names steps.now)) self.now.lines }
    {
        line_at(self.lines(), steps)
    }

    /// The node at the names of these steps, whatever their keys. It takes no memory.
    pub fn node(&self, steps: &[Step]) -> Option<&Node>
        ensures { option_map (λ node. node.now) result ≡ node_at self.now (path_names steps.now) }
    {
        match self.line(steps) {
            Some(line) => Some(&line.node),
            None => None,
        }
    }

    /// The node of this name below the node at these steps, whatever their keys. It takes no memory.
    pub fn node_below(&self, steps: &[Step], name: &str) -> Option<&Node>
        ensures { option_map (λ node. node.now) result ≡ node_at self.now (path_names steps.now ++ name.now ∷ []) }
    {
        node_behind(self.lines(), steps, name)
    }

    /// The node of these names from the top down, the first after its module's name and a colon, as
    /// a leafref's target has them. It takes no memory.
    pub fn node_of_names(&self, names: &[Text]) -> Option<&Node>
        ensures { option_map (λ node. node.now) result ≡ node_at self.now names.now }
    {
        node_of(self.lines(), names)
    }

    /// The shape of what stands at a name below a path, whatever the keys of the path.
    pub fn shape(&self, alloc: Global, parent: &Path, name: &Name) -> Result<Shape, Memory>
        ensures { IfOk result (λ shape. shape ≡ shape_at self.now parent.now name.now) }
    {
        match self.node_below(parent.steps.as_slice(), name.as_str()) {
            Some(node) => shape_of(alloc, node),
            None => Ok(Shape::Absent),
        }
    }

    /// The kind of the values at a name below the node at these steps, whatever their keys; a leafref has
    /// its target's. It takes no memory.
    pub fn kind_below(&self, steps: &[Step], name: &str) -> Option<&Kind>
        ensures { option_map (λ kind. kind.now) result
            ≡ option_and_then kind_in (node_at self.now (path_names steps.now ++ name.now ∷ [])) }
    {
        match self.node_below(steps, name) {
            Some(node) => node.kind(),
            None => None,
        }
    }

    /// The kind of the values at a path, whatever its keys; a leafref has its target's. It takes no
    /// memory.
    pub fn kind_of(&self, path: &Path) -> Option<&Kind>
        ensures { option_map (λ kind. kind.now) result ≡ kind_at_path self.now path.now }
    {
        match self.node(path.steps.as_slice()) {
            Some(node) => node.kind(),
            None => None,
        }
    }
}
