//! The devices of a network with the links to them, and what was done on each.
//!
//! `Links` has a link for each declared device, and the operations that were performed there since its
//! log was printed last. Its calls let time pass, restart a device, list a fault, and perform an operation.
#![tactic(auto)]

mod links;
mod logs;
mod opening;
mod passing;

pub use links::Links;
