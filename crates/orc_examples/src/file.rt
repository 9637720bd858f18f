//! The file that holds the journal of a run, in the folder that the program is started in.
use std::fs::File;
use std::os::unix::fs::FileExt;
use std::rt::Files;
use std::{fs, io};

// Its name.
const NAME: &str = "journal-of-a-case";

/// Makes it with these bytes.
pub(crate) fn journal_made<R: Files<File = File>>(rt: &R, bytes: &[u8]) -> io::Result<File> {
    let mut options = File::options();
    options.read(true).write(true).create(true).truncate(true);
    let file = options.open(rt, NAME)?;
    file.write_all_at(bytes, 0)?;
    Ok(file)
}

/// Opens it anew.
pub(crate) fn journal_opened<R: Files<File = File>>(rt: &R) -> io::Result<File> {
    File::options().read(true).write(true).open(rt, NAME)
}

/// What it holds.
pub(crate) fn journal_bytes<R: Files<File = File> + AllocGlobal>(rt: &R) -> io::Result<Vec<u8>> {
    fs::read(rt, NAME)
}

/// Removes it.
pub(crate) fn remove_journal<R: Files<File = File>>(rt: &R) -> io::Result<()> {
    fs::remove_file(rt, NAME)
}
