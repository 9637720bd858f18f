//! The bundle: the text in which an operator declares devices with their bases and scripts the
//! controller. Any bytes are read here, as what they declare and where their script begins, and as all
//! of this with the steps of the script; or as the first line at fault and the first rule that it breaks.
#![tactic(auto)]

mod read;
mod scripted;

pub use orc_declarations::Bundle;
pub use orc_lines::{LARGEST_BUNDLE, LONGEST_LINE};
pub use orc_script::{MOST_CALLERS, MOST_STEPS, ScriptStep};
pub use read::{read_bundle, read_bundle_explained};
pub use scripted::{ScriptedBundle, read_scripted};
