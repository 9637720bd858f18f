//! The declarations of a bundle: devices with their bases and rules, YANG modules, types of devices, the
//! schema of the data, the opening data and the templates of its lists, read line by line up to the line
//! `script`; and what a bundle then is: its declarations, what each device accepts, and where the script
//! begins.
#![tactic(auto)]

mod bundle;
mod declarations;
mod module;
mod opening;
mod read;
mod schemas;
mod statements;
mod templates;
mod types;

pub use bundle::{Bundle, read_declarations, read_declarations_explained};
