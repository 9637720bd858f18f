//! The journal: entries on a disk that outlive crashes.
//!
//! A file holds a header with the declarations, and then entries, each after a gate. An entry
//! counts where its gate is open, and the first closed gate ends the journal. `Journal::attach`
//! opens such a file, and `append` adds an entry so that a crash at any moment leaves the entries
//! before it, or those and the new one. What an append comes to on a disk that an armed operation
//! stops is one relation by its outcome (`Appended`), for all who append.
#![tactic(auto)]

mod before;
mod block;
mod committed;
mod decoding;
mod entry;
mod fault;
mod gate;
mod header;
mod journal;
mod kind;
mod laws;
mod opening;
mod order;
mod outcome;
mod put;
mod reading;
mod stage;
mod writing;

pub use before::{EntriesBefore, entries_before};
pub use committed::committed_by;
pub use entry::Entry;
pub use fault::{AppendFault, OpenFault};
pub use journal::Journal;
pub use laws::{
    add_up, entry_more_keeps_order, has_one_list_of_entries, has_one_text_of_declarations,
    has_one_verdict, keeps_order, stops_where_armed,
};
pub use outcome::Appended;
