//! Templates of services: what one says, and the expansion of a service under it.
//!
//! A template is a JSON text with expressions in it. `Template::read` takes one in, with each of its
//! expressions resolved against the schema of the data, or says which block is at fault.
//! `Template::expand` does its blocks in order at an entry of its list, and gives what they write on
//! each device, or the first fault; and it adds exactly what was read. Two views of equal shapes that
//! share what was read give the same.
#![tactic(auto)]

mod blocks;
mod checking;
mod config;
mod devices;
mod expanding;
mod expansion;
mod fault;
mod filling;
mod laws;
mod readers;
mod strings;
mod template;
mod values;
mod view;
mod writing;

pub use devices::Devices;
pub use expansion::Expansion;
pub use fault::{
    BAD_LEAF, ExpandFault, MANY_VALUES, NO_VALUE, SELF_CLASH, TemplateFault, UNKNOWN_DEVICE,
};
pub use laws::{
    cut_strings_are_written, expansions_are_fixed_by_reads, expressions_fit_in_braces,
    faults_are_named, least_fault_is_named, readers_are_one, strings_are_cut, texts_have_readers,
    the_readers_read_back, written_is_typed,
};
pub use template::Template;
pub use view::View;
