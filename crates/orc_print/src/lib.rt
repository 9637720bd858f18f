//! What a run prints: each call answers the bytes of one line or of one group of lines, and a
//! `Transcript` keeps them.
#![tactic(auto)]

mod answers;
mod causes;
mod histories;
mod line;
mod logs;
mod metas;
mod reconciliations;
mod transcript;
mod trees;

pub use answers::answer;
pub use histories::history;
pub use line::{down, recovered, stopped};
pub use logs::log;
pub use metas::meta;
pub use reconciliations::reconciled;
pub use transcript::Transcript;
pub use trees::{json, show, show_data};
