//! The lines of a schema: one for each node.
ghost use Rattle.std.specs.Prelude.{◌≡◌, IfOk, option_map};
ghost use Rattle.orc_schema_nodes.specs.Schemas.{kind_in};

use orc_text::{Copied, Memory, Row, Text};
use orc_value::Kind;
use std::alloc::Global;

/// A node of a schema. `names` are the names from the top down to it, the first after its module's
/// name and a colon.
#[derive(Drop)]
pub struct SchemaLine {
    pub names: Row<Text>,
    pub node: Node,
}

/// What a node is.
#[derive(Drop)]
pub enum Node {
    /// A container.
    Container,
    /// A list.
    List(ListNode),
    /// A leaf.
    Leaf(LeafNode),
    /// A leaf-list.
    LeafList(ValueListNode),
}

/// A list: the names of its keys, and how many entries it has at least and at most.
#[derive(Drop)]
pub struct ListNode {
    pub keys: Row<Text>,
    pub least: u64,
    pub most: Option<u64>,
}

/// A leaf: the type of its values, which for a leafref is that of its target; its default in
/// canonical form; and its place among the keys of its list, where it is one.
#[derive(Drop)]
pub struct LeafNode {
    pub kind: Kind,
    pub target: Option<Target>,
    pub default: Option<Text>,
    pub mandatory: bool,
    pub key: Option<u32>,
}

/// A leaf-list: the type of its values, and how many it has at least and at most.
#[derive(Drop)]
pub struct ValueListNode {
    pub kind: Kind,
    pub target: Option<Target>,
    pub least: u64,
    pub most: Option<u64>,
}

/// Where a leafref leads: the names of the node, of which the first `shared` stand for the same
/// entries as at the leaf itself.
#[derive(Drop)]
pub struct Target {
    pub names: Row<Text>,
    pub shared: u64,
}

impl Target {
    /// An equal target.
    pub fn copy(&self, alloc: Global) -> Result<Target, Memory>
        ensures { IfOk result (λ copy. copy ≡ self.now) }
    {
        Ok(Target {
            names: self.names.copy(alloc)?,
            shared: self.shared,
        })
    }
}

impl ListNode {
    /// An equal list.
    pub fn copy(&self, alloc: Global) -> Result<ListNode, Memory>
        ensures { IfOk result (λ copy. copy ≡ self.now) }
    {
        Ok(ListNode {
            keys: self.keys.copy(alloc)?,
            least: self.least,
            most: self.most,
        })
    }
}

impl LeafNode {
    /// An equal leaf.
    pub fn copy(&self, alloc: Global) -> Result<LeafNode, Memory>
        ensures { IfOk result (λ copy. copy ≡ self.now) }
    {
        Ok(LeafNode {
            kind: self.kind.copy(alloc)?,
            target: Copied::copied(&self.target, alloc)?,
            default: Copied::copied(&self.default, alloc)?,
            mandatory: self.mandatory,
            key: self.key,
        })
    }
}

impl ValueListNode {
    /// An equal leaf-list.
    pub fn copy(&self, alloc: Global) -> Result<ValueListNode, Memory>
        ensures { IfOk result (λ copy. copy ≡ self.now) }
    {
        Ok(ValueListNode {
            kind: self.kind.copy(alloc)?,
            target: Copied::copied(&self.target, alloc)?,
            least: self.least,
            most: self.most,
        })
    }
}

impl Node {
    /// The kind of the values of a leaf or a leaf-list; a leafref has its target's.
    pub fn kind(&self) -> Option<&Kind>
        ensures { option_map (λ kind. kind.now) result ≡ kind_in self.now }
    {
        match self {
            Node::Leaf(leaf) => Some(&leaf.kind),
            Node::LeafList(values) => Some(&values.kind),
            Node::Container => None,
            Node::List(_) => None,
        }
    }

    /// An equal node.
    pub fn copy(&self, alloc: Global) -> Result<Node, Memory>
        ensures { IfOk result (λ copy. copy ≡ self.now) }
    {
        match self {
            Node::Container => Ok(Node::Container),
            Node::List(list) => Ok(Node::List(list.copy(alloc)?)),
            Node::Leaf(leaf) => Ok(Node::Leaf(leaf.copy(alloc)?)),
            Node::LeafList(values) => Ok(Node::LeafList(values.copy(alloc)?)),
        }
    }
}

impl SchemaLine {
    /// An equal line.
    pub fn copy(&self, alloc: Global) -> Result<SchemaLine, Memory>
        ensures { IfOk result (λ copy. copy ≡ self.now) }
    {
        Ok(SchemaLine {
            names: self.names.copy(alloc)?,
            node: self.node.copy(alloc)?,
        })
    }
}

impl Copied for SchemaLine {
    fn copied(&self, alloc: Global) -> Result<SchemaLine, Memory> {
        self.copy(alloc)
    }
}

impl Copied for Target {
    fn copied(&self, alloc: Global) -> Result<Target, Memory> {
        self.copy(alloc)
    }
}
