//! What a schema lets stand at a path of a configuration, and the canonical form of a path's keys and
//! of an item's text (RFC 7950 section 9).
#![tactic(auto)]

mod canonical;
mod kinds;
mod laws;
mod placed;
mod typed;

pub use canonical::{canonical_item, canonical_path};
pub use laws::{canonical_is_typed, canonical_keeps, typed_is_canonical};
pub use placed::{is_in_schema, stand};
pub use typed::{are_canonical_steps, has_canonical_keys, has_place, is_canonical_value, is_typed};
