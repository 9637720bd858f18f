//! The scene of a run: the hub over its journal, the devices and the links to them. A call for each event does it,
//! keeps it, and says what is to be printed of it; the lines of a script are made of such calls.
#![tactic(auto)]

mod admitting;
mod calling;
mod deciding;
mod ending;
mod events;
mod laws;
mod letting;
mod mending;
mod opening;
mod performing;
mod saying;
mod scene;
mod snapshots;
mod starting;
mod stop;

pub use events::Events;
pub use laws::scene_is_carried;
pub use scene::{Place, Scene};
pub use snapshots::{Snapshots, Taken};
pub use stop::WorldStop;
