//! The store of one device in the manner of FASTMAP: for each path the services that write it, the
//! item that they write, and what stands there in the base.
//!
//! `Refs` moves services from what they wrote to what they are to write, edits the base, and answers
//! with the exact changes of the device's tree. The work of a move depends on what moves and not on
//! the tree.
#![tactic(auto)]

mod backs;
mod base;
mod items;
mod laws;
mod mark;
mod moves;
mod part;
mod plan;
mod planning;
mod rack;
mod refs;
mod rival;
mod settle;
mod shelf;
mod touched;

pub use items::items_of;
pub use laws::{moves_lead_to_one_store, store_is_overlay};
pub use moves::{BaseEdit, Meta, Move, RefsFault};
pub use refs::Refs;
