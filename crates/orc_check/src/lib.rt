//! Validity: where a configuration breaks its schema, and which configurations a device accepts.
//!
//! Contracts speak of the flat map that a configuration is, and of the list of all breaches; `valid`
//! answers the least of them. What is looked up is searched among the tree's rows.
#![tactic(auto)]

mod acceptance;
mod best;
mod counting;
mod fault;
mod found;
mod instances;
mod keys;
mod laws;
mod lines;
mod lookup;
mod order;
mod places;
mod reach;
mod references;
mod rows;
mod rules;
mod runs;
mod sharing;
mod sought;
mod spot;
mod under;
mod validity;

pub use acceptance::{Accept, accepts, accepts_under};
pub use best::Best;
pub use fault::CheckFault;
pub use laws::{least_breach_is_least, valid_is_typed};
pub use reach::is_place;
pub use references::{first_steps, target_in};
pub use rules::{KEY, KIND, LEAFREF, MANDATORY, MAX_ELEMENTS, MIN_ELEMENTS};
pub use under::{row_of_steps, rows_under};
pub use validity::{broken, valid};
