//! Services that templates make: what an action on one comes to.
//!
//! A service is an entry of a list of the data that has a template, and its id is the entry's path
//! text. Once the data actions of a call are done, `expand_actions` expands each service that the call creates,
//! modifies or redeploys: the action becomes that of a literal service with the items of the
//! expansion, or the answer is the first fault. It adds exactly what the expansions read.
#![tactic(auto)]

mod actions;
mod laws;
mod list;
mod writes;

pub use actions::{any_templated, expand_actions};
pub use laws::{expanded_is_fixed_by_reads, expanded_stands};
pub use list::{ServiceList, is_listed, path_of_id};
