//! The file that holds the journal.
use std::fs::{File, TryLockError};
use std::os::unix::fs::{FileExt, MetadataExt, OpenOptionsExt};
use std::rt::Files;
use std::{fs, io};

// Who may read and write a new journal: its owner alone, since calls are in it.
const OWNER_ALONE: u32 = 0o600;

/// A journal's file, locked for this program.
#[derive(Drop)]
pub(crate) struct JournalFile {
    pub(crate) file: File,
    /// Whether this program made it.
    pub(crate) is_made: bool,
    /// Whether no byte was in it.
    pub(crate) is_empty: bool,
}

/// The file of this name, opened to be read and written and locked. Where it isn't there it is made for its
/// owner alone, if that is asked for. A file that can't be opened, locked or read is left as it was. Its name
/// outlives a crash.
///
/// The lock is the advisory one on the whole file (`flock`). It holds until the program ends, so that
/// two programs never write one journal.
pub(crate) fn journal_file<R: Files<File = File> + AllocGlobal>(
    rt: &R,
    name: &str,
    makes: bool,
) -> io::Result<JournalFile> {
    let (file, is_made) = open(rt, name, makes)?;
    let file = apart_from_streams(file)?;
    lock(&file)?;
    has_its_name(rt, name, &file)?;
    let is_empty = look(&file)?;
    sync_folder(rt, name)?;
    Ok(JournalFile {
        file,
        is_made,
        is_empty,
    })
}

/// Takes the name of a journal's file away, which this program has locked, so that nobody has begun a journal in it.
/// Where that fails the empty file stays.
pub(crate) fn remove<R: Files<File = File>>(rt: &R, name: &str) {
    let _ = fs::remove_file(rt, name);
}

/// Whether the name of a journal is that of a file on a disk, and not of a device.
pub(crate) fn is_on_disk<R: Files<File = File>>(rt: &R, name: &str) -> bool {
    match fs::metadata(rt, name) {
        Ok(metadata) => metadata.is_file(),
        Err(_) => false,
    }
}

/// Writes and syncs a small file beside the journal of this name, and takes it away again: so it is known what is wrong
/// with the disk where a journal couldn't be written. Where something has its name already that is left as it is.
pub(crate) fn probe<R: Files<File = File> + AllocGlobal>(rt: &R, name: &str) -> io::Result<()> {
    let probe = format!(in rt.alloc(); "{name}.probe")?;
    let mut options = File::options();
    options.write(true).create_new(true).mode(OWNER_ALONE);
    let file = options.open(rt, probe.as_str())?;
    let outcome = fill(&file);
    let _ = fs::remove_file(rt, probe.as_str());
    outcome
}

// Writes as much as a file system keeps in a piece, and syncs it.
fn fill(file: &File) -> io::Result<()> {
    file.write_all_at(&[0u8; 4096], 0)?;
    file.sync_all()
}

// Opens the file of this name, and says whether it was made.
fn open<R: Files<File = File>>(rt: &R, name: &str, makes: bool) -> io::Result<(File, bool)> {
    let mut options = File::options();
    options.read(true).write(true);
    if !makes {
        return Ok((options.open(rt, name)?, false));
    }
    options.mode(OWNER_ALONE);
    match options.create_new(true).open(rt, name) {
        Ok(file) => Ok((file, true)),
        Err(error) if error.kind() == io::ErrorKind::AlreadyExists => {
            // A link that leads nowhere is there too, and the file to which it leads is made.
            options.create_new(false).create(true);
            Ok((options.open(rt, name)?, false))
        }
        Err(error) => Err(error),
    }
}

// The file under a number that is no standard stream's: a copy never gets one of the first three. Where a stream is closed
// a file that is opened gets its number, and what is printed would be written over the journal.
fn apart_from_streams(file: File) -> io::Result<File> {
    file.try_clone()
}

// Locks a file for this program alone, without waiting for another one.
fn lock(file: &File) -> io::Result<()> {
    match file.try_lock() {
        Ok(()) => Ok(()),
        Err(TryLockError::WouldBlock) => {
            let message = "another program has it in use";
            Err(io::Error::new(io::ErrorKind::WouldBlock, message))
        }
        Err(TryLockError::Error(error)) => Err(error),
    }
}

// Whether the name still leads to the file that was opened: another program may have made it, left it empty and taken
// it away before it was locked here, and what is written to a file without a name is lost.
fn has_its_name<R: Files<File = File>>(rt: &R, name: &str, file: &File) -> io::Result<()> {
    let named = fs::metadata(rt, name)?;
    let opened = file.metadata()?;
    if named.dev() == opened.dev() && named.ino() == opened.ino() {
        return Ok(());
    }
    let message = "another program has put another file in its place";
    Err(io::Error::new(io::ErrorKind::WouldBlock, message))
}

// Reads a byte, which a file that can't hold a journal refuses, as a pipe does; answers whether there is none.
fn look(file: &File) -> io::Result<bool> {
    let mut byte = [0u8; 1];
    Ok(file.read_at(&mut byte, 0)? == 0)
}

// Makes the name of a file in its folder outlive a crash, where a link leads to it the name at the
// link's end. That comes before anything is written, also where others made the file or gave it its
// name, so no call is answered whose journal's name may be gone after a crash.
fn sync_folder<R: Files<File = File> + AllocGlobal>(rt: &R, name: &str) -> io::Result<()> {
    let path = fs::canonicalize(rt, name)?;
    match path.parent() {
        Some(folder) => File::open(rt, folder)?.sync_all(),
        None => Ok(()),
    }
}
