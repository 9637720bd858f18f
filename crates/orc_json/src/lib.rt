//! JSON of configurations (RFC 7951), over `serde_json`.
//!
//! Each member of a JSON text states that an item stands at a path, or is at fault there. `read`
//! gives the configuration of all of them, or the least fault, and `read_entry` what a service body
//! gives below its entry. `write` gives the text of the one JSON value of a configuration, which is
//! read as that configuration. `parse` gives the JSON value that bytes are the text of. `name_behind`
//! and `path_below` are how a member's name goes on from a path, for texts with such members, and
//! `one_key` are the keys of a leaf-list's entry there.
#![tactic(auto)]

mod fault;
mod keys;
mod laws;
mod members;
mod object;
mod reader;
mod reading;
mod runs;
mod steps;
mod texts;
mod values;
mod writer;

pub use fault::{DUPLICATE, JsonFault, KEY, KIND, MEMBER, VALUE};
pub use laws::{json_is_read, typed_has_json};
pub use reader::{parse, read, read_entry};
pub use steps::{name_behind, one_key, path_below};
pub use writer::write;
