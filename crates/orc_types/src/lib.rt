//! Types of leaves: from a YANG `type` statement whose name is known to stand for a built-in type or
//! for that of a typedef, to the type that it makes of it, or to its first fault (RFC 7950 section 9).
#![tactic(auto)]

mod builtins;
mod cuts;
mod defaults;
mod enumeration;
mod enums;
mod fault;
mod firsts;
mod inherited;
mod laws;
mod lengths;
mod numbers;
mod paths;
mod ranges;
mod restrict;
mod statements;
mod taken;
mod types;

pub use builtins::{built_in, is_left_out};
pub use defaults::default_of;
pub use fault::TypeFault;
pub use laws::{enums_differ, lengths_narrow, numbers_read_back, ranges_narrow};
pub use numbers::is_count;
pub use paths::{is_leafref_path, is_reference};
pub use restrict::type_of;
pub use statements::{argument, first_of, has, is_a, is_idle};
pub use types::{Base, EnumName, LeafType};
