//! What a hub is made of: who asked and what they were told, the numbers of transactions, the open journal with what
//! isn't settled in it, what the entries of a journal say, and the work on devices: duties, what is due, verdicts and
//! transactions that left them.
#![tactic(auto)]

mod askers;
mod due;
mod duties;
mod duty;
mod index;
mod log;
mod numbers;
mod past;
mod retiring;
mod rows;
mod slots;
mod stale;
mod verdicts;

pub use askers::Askers;
pub use due::{is_settling, least_due, place_due};
pub use duties::{mend_fault, none_busy_before, take_on, tell_all};
pub use duty::next_op;
pub use log::{Log, Unsettled};
pub use numbers::Numbers;
pub use past::{Past, PastFault};
pub use retiring::{come_all, leave, retire_all};
pub use stale::first_stale;
pub use verdicts::verdict;
