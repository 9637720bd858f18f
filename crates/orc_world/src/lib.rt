//! The world of a run: a call for each line of a script, which does it on the scene of the run, event by event, and
//! prints what it says.
#![tactic(auto)]

mod calling;
mod ending;
mod mending;
mod passing;
mod running;
mod settling;
mod showing;
mod world;

pub use orc_scene::WorldStop;
pub use orc_script::ScriptStep;
pub use world::World;
