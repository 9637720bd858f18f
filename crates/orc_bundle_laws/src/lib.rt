//! Laws of bundles, on which no code stands: the text of a bundle is read as that bundle, in each of its
//! spellings, and lines that are skipped change nothing.
#![tactic(auto)]

mod laws;

pub use laws::{skipped_lines_change_nothing, spelled_is_read, written_is_read};
