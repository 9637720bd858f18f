//! Nodes: devices with a candidate configuration, two locks and confirmed commit, and links to them.
//!
//! A `Node` does what `orc_device` defines of each operation, for one of its sessions; it has at most
//! eight. `tick` lets time pass, `restart` restarts it. A `Link` over a node is a `Device`: it has a
//! session of its own, and fails where `fail_next` says so. Only an edit and a look at running take
//! memory: trees are moved, and one that equals running is held as a flag. That a node
//! accepts what it runs and what it may come back to is a law of the crate of runs. An edit of a
//! candidate that is known to be accepted judges what it made by what it changed; where that took
//! more memory than there was, the next operation that asks looks at the whole tree, without any.
#![tactic(auto)]

mod fitting;
mod judging;
mod laws;
mod link;
mod listing;
mod node;
mod refusing;
mod sessions;
mod time;
mod trees;

pub use laws::{
    changes_are_taken, kept_tree_changes_by_commits, kinds_are_right, numbers_begin_again,
    running_changes_by_commits, sessions_stay_sound,
};
pub use link::Link;
pub use node::{Node, NodeFault};
pub use orc_check::Accept;
pub use orc_device::{OpKind, When};
