//! Runs that the definitions refuse: what would be a wrong program.
//!
//! No code: each function does nothing, and its contract is the law. Each wrong run is refused by the
//! definitions themselves, or in each run of them.
#![tactic(auto)]

mod refused;

pub use refused::{calls_are_decided_in_time, devices_follow_decisions, lines_are_not_passed_over};
