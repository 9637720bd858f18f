//! Paths of a configuration, their order, their texts, and what stands at them.
//!
//! This crate is the base of definitions: a path is a list of steps, a configuration a finite map
//! from paths to items. Its `specs` hold setting, removing and overlaying on such maps, for all
//! crates above.
#![tactic(auto)]

mod alphabet;
mod entry;
mod item;
mod laws;
mod length;
mod limits;
mod mode;
mod name;
mod path;
mod reader;
mod reading;
mod shape;
mod text;
mod value;
mod view;

pub use alphabet::{is_identifier, is_key, is_value};
pub use item::{Item, Write};
pub use laws::{paths_are_read, values_are_read};
pub use limits::{
    NAME_LEN, PATH_LEN, PATH_STEPS, STEP_KEYS, VALUE_LEN, is_long_name, is_long_value,
};
pub use name::Name;
pub use path::{Path, PathFault, Step};
pub use shape::Shape;
pub use text::push_item;
pub use value::{push_value, read_value};
pub use view::DataView;
