//! The nodes of a schema before leafrefs are followed.

use orc_schema_nodes::ListNode;
use orc_statements::Reference;
use orc_text::{Row, Text};
use orc_value::Kind;

/// A node. `names` are the names from the top down to it, the first after its module's name and a colon.
#[derive(Drop)]
pub(crate) struct Draft {
    pub(crate) names: Row<Text>,
    pub(crate) node: DraftNode,
}

/// The type of a leaf or a leaf-list.
#[derive(Drop)]
pub(crate) enum DraftType {
    /// A type of its own.
    Own(Kind),
    /// That of the node to which a leafref leads.
    To(Reference),
}

/// What a node is.
#[derive(Drop)]
pub(crate) enum DraftNode {
    Container,
    List(ListNode),
    Leaf(DraftLeaf),
    LeafList(DraftValues),
}

/// A leaf: its type, its default in canonical form, and its place among the keys of its list.
#[derive(Drop)]
pub(crate) struct DraftLeaf {
    pub(crate) of_type: DraftType,
    pub(crate) default: Option<Text>,
    pub(crate) mandatory: bool,
    pub(crate) key: Option<u32>,
}

/// A leaf-list: its type, and how many values it has at least and at most.
#[derive(Drop)]
pub(crate) struct DraftValues {
    pub(crate) of_type: DraftType,
    pub(crate) least: u64,
    pub(crate) most: Option<u64>,
}
