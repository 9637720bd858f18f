//! The rules of a network: what may happen to devices, their workers and menders under a journal, and
//! what is kept of each device whatever happens.
#![tactic(auto)]

mod asked;
mod duty;
mod event;
mod kept;
mod transaction;

pub use asked::Asked;
pub use duty::Duty;
pub use event::Event;
pub use kept::{
    accepted_is_typed, devices_are_as_declared, devices_are_kept, fronts_are_kept, history_is_kept,
    replies_are_kept, rounds_end,
};
pub use transaction::{Phase, Transaction, Waiting};
