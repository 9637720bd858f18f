//! Schemas: what modules of YANG statements say may stand at a path of a configuration (RFC 7950), or
//! the first fault of the modules.
#![tactic(auto)]

mod build;
mod draft;
mod drafting;
mod index;
mod laws;
mod links;
mod weights;

pub use build::{Build, node_names};
pub use laws::{
    depth_is_no_limit, first_fault_is_least, first_link_fault_is_least, names_differ,
    nodes_make_one_table, nodes_stand_for_statements, order_is_free, schemas_are_sound,
};
pub use orc_modules::Looks;
pub use orc_schema_nodes::{LeafNode, ListNode, Node, Schema, SchemaLine, Target, ValueListNode};
pub use orc_statements::SchemaFault;
