//! Devices: what a session asks of one, what it answers, and what its operations do there.
//!
//! `Op` is one operation of a session, after RFC 6241, and `Reply` its answer. A `Mark` is a reply
//! without its tree, and `Logged` one line of a device's log. A `Device` performs operations over a
//! link that may fail, and counts its faults. What each operation does on a device with a candidate,
//! two locks and confirmed commit is defined in `specs/`, for all crates that speak of devices.
#![tactic(auto)]

mod device;
mod kind;
mod op;
mod reply;

pub use device::Device;
pub use kind::{OpKind, When, kind_of_op};
pub use op::Op;
pub use reply::{Logged, Mark, Reply, is_invalid_value};
