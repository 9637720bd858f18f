//! A real file as a disk.
use crate::table::Word;
use orc_disk::{Disk, FileDisk};
use std::fs::File;
use std::rt::Files;
use std::{fs, io};

/// Prints whether a file of this name keeps its bytes, and says so.
pub(crate) fn keep<R: Files<File = File> + Print>(rt: &R, word: Word<'_>) -> io::Result<bool> {
    let good = keeps_bytes(rt, word.file)?;
    match good {
        true => println!(rt; "{}: keeps its bytes", word.file)?,
        false => println!(rt; "{}: DIFFERS", word.file)?,
    }
    Ok(good)
}

// Whether a file of this name, which is made and removed again, keeps what is written to it, and
// fails at a read where it is open for writing alone.
fn keeps_bytes<R: Files<File = File>>(rt: &R, name: &str) -> io::Result<bool> {
    let mut options = File::options();
    options.read(true).write(true).create(true).truncate(true);
    let kept = is_kept(&mut FileDisk::over(options.open(rt, name)?));
    let failed = fails_at_a_read(&mut FileDisk::over(File::options().write(true).open(rt, name)?));
    fs::remove_file(rt, name)?;
    Ok(kept && failed)
}

// Whether two writes are done and read again.
fn is_kept(disk: &mut FileDisk) -> bool {
    let mut buf = [0u8; 6];
    let put = disk.write_at(0, b"abcd").is_ok() && disk.write_at(2, b"xyz").is_ok();
    let synced = disk.sync().is_ok() && disk.len() == Ok(5);
    let read = disk.read_at(0, &mut buf) == Ok(5) && buf == *b"abxyz\0";
    put && synced && read && disk.faults() == 0
}

// Whether a read fails and is counted.
fn fails_at_a_read(disk: &mut FileDisk) -> bool {
    let mut buf = [0u8; 6];
    disk.read_at(0, &mut buf).is_err() && disk.faults() == 1
}
