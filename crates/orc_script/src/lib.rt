//! The script of a bundle: the steps and call blocks below the line `script`, read line by line against
//! what was declared.
#![tactic(auto)]

mod bodies;
mod call_block;
mod operations;
mod places;
mod read;
mod script;
mod step;

pub use read::{read_script, read_script_explained};
pub use script::{LONGEST_TICK, MOST_CALLERS, MOST_STEPS};
pub use step::ScriptStep;
