//! The program's top call: a bundle is read, and it is checked, or its script is run over a journal, or
//! the journal's history is printed; what that prints is written as it is done.
#![tactic(auto)]

mod checking;
mod laws;
mod naming;
mod notes;
mod opening;
mod reading;
mod running;
mod stop;
mod summing;
mod top;

pub use laws::{
    bytes_decide, file_tells_one_history, gated_files_stay, has_these_numbers,
    is_done_where_nothing_fails, read_back_runs_have_the_headline, recoveries_need_their_line,
};
pub use notes::{Notes, OpenCall, OutOfStep};
pub use orc_decls::Rule;
pub use stop::{Done, Ended, Stop, status};
pub use top::orchestrate;
