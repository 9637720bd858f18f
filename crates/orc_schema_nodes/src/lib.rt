//! Schemas: what may stand at a path of a configuration, one line for each node (RFC 7950). The crate `orc_schema`
//! makes them of modules.
#![tactic(auto)]

mod line;
mod lookup;
mod schema;
mod sought;

pub use line::{LeafNode, ListNode, Node, SchemaLine, Target, ValueListNode};
pub use schema::Schema;
