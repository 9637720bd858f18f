//! What a planned call holds, and which calls may go on side by side.
//!
//! `Held` is what a call holds while it is under way: its devices, the services that it names, what it
//! read and what it may write. Two calls fit together where they share no device and no service, and
//! neither may write what the other one read. `Queue` is what waits, and says which of it may go on first.
#![tactic(auto)]

mod fitting;
mod held;
mod laws;
mod queue;

pub use held::Held;
pub use laws::fitting_is_mutual;
pub use queue::{Holds, Queue};
