//! Disks in memory: lines that write to a disk, and say what a crash leaves of it.
//!
//! - `holds TEXT`: a disk that holds this, all of it on the disk
//! - `write AT TEXT`, `sync`: this is written at this offset, or what was written is synced
//! - `image CHOICE TEXT`: a crash leaves this by this choice

mod files;

pub(crate) use crate::disks::files::keep;
use crate::line::first_word;
use crate::table::Table;
use crate::undone::Undone;
use orc_disk::{Disk, MemDisk};
use std::alloc::Global;

// How many bytes more a disk has room for.
const ROOM: u64 = 1000;

/// A disk.
#[derive(Drop)]
pub(crate) struct Disks {
    alloc: Global,
    disk: Option<MemDisk>,
}

impl Table for Disks {
    fn take(&mut self, line: &str) -> Result<bool, Undone> {
        let (word, rest) = first_word(line);
        if word == "holds" {
            self.disk = Some(disk_of(self.alloc, rest)?);
            return Ok(true);
        }
        let disk = self.disk.as_mut().ok_or(Undone)?;
        match word {
            "write" => is_written(disk, rest),
            "sync" => Ok(disk.sync().is_ok()),
            "image" => leaves(self.alloc, disk, rest),
            _ => Err(Undone),
        }
    }
}

impl Disks {
    /// No disk so far.
    pub(crate) fn new(alloc: Global) -> Disks {
        Disks { alloc, disk: None }
    }
}

// A disk that holds this.
fn disk_of(alloc: Global, text: &str) -> Result<MemDisk, Undone> {
    let bytes = Vec::from_slice(alloc, text.as_bytes())?;
    Ok(MemDisk::new(alloc, bytes, ROOM, Vec::new(alloc))?)
}

// Writes, as `AT TEXT`, and says whether that was done.
fn is_written(disk: &mut MemDisk, rest: &str) -> Result<bool, Undone> {
    let (at, text) = first_word(rest);
    let at: u64 = at.parse()?;
    match disk.len() {
        Ok(len) if at <= len => Ok(disk.write_at(at, text.as_bytes()).is_ok()),
        _ => Ok(false),
    }
}

// Whether a crash leaves this, as `CHOICE TEXT`.
fn leaves(alloc: Global, disk: &MemDisk, rest: &str) -> Result<bool, Undone> {
    let (choice, text) = first_word(rest);
    let image = disk.image(alloc, choice.parse()?)?;
    Ok(image.as_slice() == text.as_bytes())
}
