//! The changes that lead from one configuration to another, and back.
//!
//! `between` lists exactly the paths at which two trees differ; applied to the one it gives the
//! other, and it is empty exactly where they are equal. `reverse` lists what takes changes back.
#![tactic(auto)]

mod difference;
mod laws;
mod likely;

pub use difference::{between, has_item, reverse};
pub use laws::difference_leads;
