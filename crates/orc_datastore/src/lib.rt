//! The state of the orchestrator: the data, the bases of the devices and the services that live on
//! them. A history of calls makes it; what each call does, why it is refused, and which histories are
//! legal is defined here. A call that comes to actions at hand is done here; `orc_state` keeps the history
//! and has these from the call's plan. The laws that users rely on over whole histories stand in `orc_laws`.
#![tactic(auto)]

mod data;
mod datastore;
mod expanding;
mod expansion;
mod held;
mod known;
mod laws;
mod living;
mod marks;
mod plan;
mod planned;
mod service;
mod services;
mod sets;
mod snapshot;
mod stores;
mod targets;
mod touched;
mod turns;

pub use datastore::Datastore;
pub use laws::{literal_is_expansion, tree_is_configuration, tree_is_typed};
pub use plan::Plan;
pub use service::Service;
pub use snapshot::Snapshot;
