//! Files that outlive crashes, and what a crash at any moment may leave of them.
//!
//! A `Disk` reports, where it can, what a read gives, which images a crash now may leave, and which a
//! crash at some moment since an earlier one may have left. Operations are its four kinds of calls:
//! its length, reads, writes and syncs. `MemDisk` is such a file in memory, which fails at chosen
//! operations and shows crash images. `StopDisk` stops another disk inside a write or a sync.
//! `FileDisk` is a real file, which reports only what its reads gave.
#![tactic(auto)]

mod disk;
mod file;
mod heard;
mod history;
mod laws;
mod memory;
mod stop;
mod tear;

pub use disk::{Disk, DiskOp};
pub use file::FileDisk;
pub use laws::only_now;
pub use memory::MemDisk;
pub use stop::StopDisk;
