//! Validity after a change, at the cost of the change.
//!
//! `revalidate` answers what `valid` of `orc_check` answers of a configuration that was made from a valid
//! one, and looks only at what the change can break. `specs/inside/Looked` says what that is, and
//! `proofs/Least` that no breach is anywhere else.
#![tactic(auto)]

mod dear;
mod fronts;
mod inside;
mod kept;
mod led;
mod looks;
mod paths;
mod verdict;

pub use paths::changed_paths;
pub use verdict::revalidate;
