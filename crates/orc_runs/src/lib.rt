//! What a run of a script is, and what is claimed of each.
#![tactic(auto)]

mod claim;
mod laws;

pub use claim::{
    bundle_runs_have_the_headline, runs_are_carried, runs_have_the_headline, starts_are_kept,
};
pub use laws::{
    decided_is_kept, devices_are_in_step, devices_come_back, pending_is_known,
    reconciliations_are_accepted,
};
