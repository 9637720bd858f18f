//! YANG modules as they stand: which statements are read, what the names of typedefs and groupings
//! mean where they stand, what the name of a type stands for, and which data nodes a block has
//! through its `uses` (RFC 7950 sections 5.5, 6.4.1, 7.3 and 7.13).
#![tactic(auto)]

mod bare;
mod base;
mod block;
mod deep;
mod firsts;
mod leaves;
mod looked;
mod looks;
mod loops;
mod meant;
mod most;
mod names;
mod order;
mod parts;
mod place;
mod scope;
mod shallow;
mod statements;
mod word;

pub use bare::{bringer, brings_nothing};
pub use base::{base_of, takes_type, type_in};
pub use block::Block;
pub use deep::{is_too_deep, leads_past};
pub use leaves::leaf_type;
pub use looked::{looked_at, looks_below, text_looks, text_weight, type_looks};
pub use looks::Looks;
pub use loops::{is_type_loop, is_uses_loop};
pub use meant::{Meant, Named, Typed};
pub use names::child_names;
pub use parts::{Part, block_part, grouping};
pub use place::{MAX_CHAIN, Modules, Place};
pub use scope::{
    Above, Found, imports_as, in_scope, is_own, meaning, module_around, module_called, owner_in,
    owner_of, plain_name, prefix_of,
};
pub use statements::{
    argument_below, defines, has_argument, holds_data, is_read, is_state, sub_text,
};
pub use word::{Word, word_of};
