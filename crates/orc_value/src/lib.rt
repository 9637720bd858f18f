//! Values of leaves: the types that a leaf can have, which texts are values of a type, which one of
//! them is canonical (RFC 7950 section 9), and the JSON of one value (RFC 7951 section 6).
#![tactic(auto)]

mod canonical;
mod characters;
mod decimals;
mod fault;
mod integers;
mod json;
mod kind;
mod names;
mod numerals;
mod ranges;
mod searches;
mod signs;

pub use canonical::{canon, is_canonical};
pub use fault::{KIND, ValueFault};
pub use json::{from_json, to_json};
pub use kind::{IntKind, Kind};
pub use names::Names;
pub use ranges::{Lengths, Ranges};
