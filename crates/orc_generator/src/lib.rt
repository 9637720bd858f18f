//! A bundle that three numbers make: plain devices, and calls of sixteen callers that create literal services and
//! delete them. Which ones is drawn by a linear congruential generator, so that each run of one bundle is the same.
#![tactic(auto)]

mod draws;
mod generator;

pub use generator::generate;
