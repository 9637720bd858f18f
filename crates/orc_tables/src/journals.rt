//! Journals: lines that spell a file, byte by byte, and say what it holds.
//!
//! - `decls TEXT`: its declarations, in which `%` and two digits stand for a byte; it is empty
//! - `bytes BYTES`: it has these bytes more
//! - `fronts N M entries K`, `fronts N M FAULT`, `fronts N M FAULT AT`: its first bytes, of each length
//!   from N to M, are a journal of K entries, or are refused so
//! - `fronts N M FAULT AT +`: they are refused so, where each byte more raises the place by one
//! - `entry INDEX KIND NUMBER PLACE`, and `commits` after it: this is its entry, which begins at this
//!   offset, and commits a call or none
//! - `again LIMIT`: its entries are appended to an empty disk and spell it; then no other one fits
//! - `room LIMIT -> OUTCOME`: to an empty disk with this limit a Decide of 1 is appended, which is `done`,
//!   or `Full LEN`
//! - `stop OPERATION BYTES -> OUTCOME READ LEFT`: a Decide of 1 is appended where this stop is armed.
//!   So many entries are read then, and so many are left where no write outlives a crash that was
//!   not synced
ghost use Rattle.std.specs.Prelude.{◌≡◌, ◌+◌, length, All, IfOk};
ghost use Rattle.std.specs.List.{flat_map};
ghost use Rattle.orc_disk.specs.Memory.{memory_disk};
ghost use Rattle.orc_disk.specs.Stops.{inside};
ghost use Rattle.orc_journal.specs.Entries.{IsWritable};
ghost use Rattle.orc_journal.specs.Journals.{gated};
ghost use Rattle.orc_journal.specs.Opened.{IsReady};

use crate::line::{bytes_of, first_word, hex_of};
use crate::table::Table;
use crate::undone::Undone;
use orc_disk::{Disk, MemDisk, StopDisk};
use orc_journal::{AppendFault, Entry, Journal, OpenFault, committed_by};
use std::alloc::{AllocError, Global};

// How many bytes a journal may have, and how many more a disk has room for.
const LIMIT: u32 = 1000;

const ROOM: u64 = 10_000;

// The choices of the image that no write outlives, and of the one that each does.
const SYNCED: u64 = 0;

const CONTENT: u64 = 3;

/// A file, and the declarations that it is to have.
#[derive(Drop)]
pub(crate) struct Journals {
    alloc: Global,
    decls: Vec<u8>,
    bytes: Vec<u8>,
}

impl Table for Journals {
    fn take(&mut self, line: &str) -> Result<bool, Undone> {
        let (word, rest) = first_word(line);
        match word {
            "decls" => self.begin(rest),
            "bytes" => self.spell(rest),
            "fronts" => self.gives(rest),
            "entry" => self.has(rest),
            "again" => self.is_written(rest),
            "room" => self.has_room(rest),
            "stop" => self.is_stopped(rest),
            _ => Err(Undone),
        }
    }
}

impl Journals {
    /// A file without a byte.
    pub(crate) fn new(alloc: Global) -> Journals {
        Journals {
            alloc,
            decls: Vec::new(alloc),
            bytes: Vec::new(alloc),
        }
    }

    // Begins a file.
    fn begin(&mut self, decls: &str) -> Result<bool, Undone> {
        self.decls = bytes_of(self.alloc, decls)?;
        self.bytes = Vec::new(self.alloc);
        Ok(true)
    }

    // Adds bytes.
    fn spell(&mut self, bytes: &str) -> Result<bool, Undone> {
        let bytes = hex_of(self.alloc, bytes)?;
        self.bytes.extend_from_slice(bytes.as_slice())?;
        Ok(true)
    }

    // Whether each prefix gives this answer, as `FROM TO ANSWER`.
    fn gives(&self, rest: &str) -> Result<bool, Undone> {
        let (from, rest) = first_word(rest);
        let (to, answer) = first_word(rest);
        let (from, to): (usize, usize) = (from.parse()?, to.parse()?);
        for n in from..=to {
            if !self.front_gives(n, n.saturating_sub(from), answer)? {
                return Ok(false);
            }
        }
        Ok(true)
    }

    // Whether so many bytes give this answer, which are so many more than the first prefix has.
    fn front_gives(&self, count: usize, more: usize, answer: &str) -> Result<bool, Undone> {
        let front = self.bytes.get(..count).ok_or(Undone)?;
        let given = given(self.alloc, front, self.decls.as_slice())?;
        let wanted = wanted(self.alloc, answer, more)?;
        Ok(given.as_str() == wanted.as_str())
    }

    // Whether this is one of the entries, as `INDEX ENTRY`.
    fn has(&self, rest: &str) -> Result<bool, Undone> {
        let (index, wanted) = first_word(rest);
        let index: usize = index.parse()?;
        let (journal, entries) = self.opened(self.bytes.as_slice(), LIMIT)?;
        if index >= entries.len() || journal.fresh() {
            return Ok(false);
        }
        let place = journal.offset(&entries, index);
        let shown = shown_entry(self.alloc, &entries[..index], &entries[index], place)?;
        Ok(shown.as_str() == wanted)
    }

    // Whether the entries are spelled so on an empty disk with this limit, which is then full.
    fn is_written(&self, limit: &str) -> Result<bool, Undone> {
        let (_, entries) = self.opened(self.bytes.as_slice(), LIMIT)?;
        let (mut journal, none) = self.opened(b"", limit.parse()?)?;
        if !none.is_empty() || !journal.fresh() {
            return Ok(false);
        }
        append_all(self.alloc, &mut journal, &entries)?;
        let was_full = is_full(self.alloc, &mut journal, self.bytes.len() as u64);
        Ok(was_full && self.is_left(journal)?)
    }

    // Whether a Decide on an empty disk comes to this, as `LIMIT -> OUTCOME`.
    fn has_room(&self, rest: &str) -> Result<bool, Undone> {
        let (limit, wanted) = rest.split_once(" -> ").ok_or(Undone)?;
        let (mut journal, _) = self.opened(b"", limit.parse()?)?;
        let shown = shown_append(self.alloc, &mut journal)?;
        Ok(shown.as_str() == wanted)
    }

    // Whether a crash leaves these bytes of a journal.
    fn is_left(&self, journal: Journal<TableDisk>) -> Result<bool, Undone> {
        let disk = journal.into_disk().into_inner();
        let image = disk.image(self.alloc, SYNCED)?;
        Ok(image.as_slice() == self.bytes.as_slice())
    }

    // Whether a stop comes to this, as `OPERATION BYTES -> OUTCOME READ LEFT`.
    fn is_stopped(&self, rest: &str) -> Result<bool, Undone> {
        let (stop, wanted) = rest.split_once(" -> ").ok_or(Undone)?;
        let (operation, bytes) = first_word(stop);
        let shown = self.stopped_at(operation.parse()?, bytes.parse()?)?;
        Ok(shown.as_str() == wanted)
    }

    // What a stop at this operation comes to.
    fn stopped_at(&self, operation: u64, bytes: u64) -> Result<String, Undone> {
        let (mut journal, _) = self.opened(self.bytes.as_slice(), LIMIT)?;
        journal.arm(operation, bytes);
        let outcome = outcome_of(self.alloc, &mut journal);
        let disk = journal.into_disk().into_inner();
        self.shown_stop(outcome, &disk)
    }

    // An outcome, and how many entries are read and left after it.
    fn shown_stop(&self, outcome: &str, disk: &MemDisk) -> Result<String, Undone> {
        let read = self.count_in(disk, CONTENT)?;
        let left = self.count_in(disk, SYNCED)?;
        Ok(format!(in self.alloc; "{outcome} {read} {left}")?)
    }

    // How many entries the image of a disk by this choice has.
    fn count_in(&self, disk: &MemDisk, choice: u64) -> Result<usize, Undone> {
        let image = disk.image(self.alloc, choice)?;
        let (_, entries) = self.opened(image.as_slice(), LIMIT)?;
        Ok(entries.len())
    }

    // The journal that these bytes are, and its entries.
    fn opened(&self, bytes: &[u8], limit: u32) -> Result<(Journal<TableDisk>, Vec<Entry>), Undone>
        ensures ready { IfOk result (λ opened. IsReady (inside memory_disk) opened.0) }
        ensures entries { IfOk result (λ opened. All IsWritable opened.1.items) }
        ensures whole { IfOk result (λ opened.
            opened.0.start + length (flat_map gated opened.1.items) + 1 ≡ opened.0.len) }
    {
        let disk = disk_of(self.alloc, bytes)?;
        attached(self.alloc, disk, self.decls.as_slice(), limit)
    }
}

type TableDisk = StopDisk<MemDisk>;

// A disk that holds these bytes, where no stop is armed.
fn disk_of(alloc: Global, bytes: &[u8]) -> Result<TableDisk, Undone> {
    let bytes = Vec::from_slice(alloc, bytes)?;
    let disk = MemDisk::new(alloc, bytes, ROOM, Vec::new(alloc))?;
    Ok(StopDisk::new(disk))
}

// The journal of these declarations on a disk, and its entries.
fn attached<D: Disk>(
    alloc: Global,
    disk: D,
    decls: &[u8],
    limit: u32,
) -> Result<(Journal<D>, Vec<Entry>), Undone>
    ensures ready { IfOk result (λ opened. IsReady D.disk opened.0) }
    ensures entries { IfOk result (λ opened. All IsWritable opened.1.items) }
    ensures whole { IfOk result (λ opened.
        opened.0.start + length (flat_map gated opened.1.items) + 1 ≡ opened.0.len) }
{
    if decls.len() > u32::MAX as usize {
        return Err(Undone);
    }
    match Journal::attach(alloc, disk, decls, u64::from(limit)) {
        Ok(opened) => Ok(opened),
        Err(_) => Err(Undone),
    }
}

// Appends entries.
fn append_all<D: Disk>(
    alloc: Global,
    journal: &mut Journal<D>,
    entries: &[Entry],
) -> Result<(), Undone>
    requires ready { IsReady D.disk journal.old }
    requires entries { All IsWritable entries.now }
    ensures { IfOk result (λ _. IsReady D.disk journal.new) }
{
    for entry in entries {
        match journal.append(alloc, entry) {
            Ok(()) => {}
            Err(_) => return Err(Undone),
        }
    }
    Ok(())
}

// What appending a Decide comes to.
fn outcome_of(alloc: Global, journal: &mut Journal<TableDisk>) -> &'static str
    requires ready { IsReady (inside memory_disk) journal.old }
{
    match journal.append(alloc, &Entry::Decide { t: 1 }) {
        Ok(()) => "done",
        Err(AppendFault::DiskFault) if journal.stopped() => "stopped",
        Err(_) => "failed",
    }
}

// What appending a Decide comes to where no stop is armed.
fn shown_append(alloc: Global, journal: &mut Journal<TableDisk>) -> Result<String, AllocError>
    requires ready { IsReady (inside memory_disk) journal.old }
{
    match journal.append(alloc, &Entry::Decide { t: 1 }) {
        Ok(()) => String::from_str(alloc, "done"),
        Err(AppendFault::Full { len }) => format!(in alloc; "Full {len}"),
        Err(_) => String::from_str(alloc, "failed"),
    }
}

// Whether a journal that isn't fresh, of this length, has no room for a Decide.
fn is_full(alloc: Global, journal: &mut Journal<TableDisk>, len: u64) -> bool
    requires ready { IsReady (inside memory_disk) journal.old }
{
    match journal.append(alloc, &Entry::Decide { t: 1 }) {
        Err(AppendFault::Full { len: full }) => full == len && !journal.fresh(),
        _ => false,
    }
}

// An entry that follows others, as `KIND NUMBER PLACE`, and `commits` after that.
fn shown_entry(
    alloc: Global,
    before: &[Entry],
    entry: &Entry,
    place: u64,
) -> Result<String, Undone> {
    let kind = kind_of(entry);
    let number = entry.number();
    let commits = match committed_by(before, entry) {
        Some(_) => " commits",
        None => "",
    };
    Ok(format!(in alloc; "{kind} {number} {place}{commits}")?)
}

// What bytes are as a journal of these declarations.
fn given(alloc: Global, bytes: &[u8], decls: &[u8]) -> Result<String, Undone> {
    if decls.len() > u32::MAX as usize {
        return Err(Undone);
    }
    let disk = disk_of(alloc, bytes)?;
    match Journal::attach(alloc, disk, decls, u64::from(LIMIT)) {
        Ok((_, entries)) => Ok(format!(in alloc; "entries {}", entries.len())?),
        Err((fault, _)) => Ok(shown(alloc, fault)?),
    }
}

// A refusal, and its place.
fn shown(alloc: Global, fault: OpenFault) -> Result<String, AllocError> {
    match fault {
        OpenFault::Foreign { at } => format!(in alloc; "Foreign {at}"),
        OpenFault::Damaged { at } => format!(in alloc; "Damaged {at}"),
        OpenFault::Full { len } => format!(in alloc; "Full {len}"),
        OpenFault::NotJournal => String::from_str(alloc, "NotJournal"),
        OpenFault::DiskFault => String::from_str(alloc, "DiskFault"),
        OpenFault::Memory => String::from_str(alloc, "Memory"),
    }
}

// The answer that a prefix must give, which is so many bytes longer than the first one.
fn wanted(alloc: Global, answer: &str, more: usize) -> Result<String, Undone> {
    let Some(rising) = answer.strip_suffix(" +") else {
        return Ok(String::from_str(alloc, answer)?);
    };
    let (fault, at) = first_word(rising);
    let at: usize = at.parse()?;
    Ok(format!(in alloc; "{fault} {}", at.saturating_add(more))?)
}

// The name of an entry's kind.
fn kind_of(entry: &Entry) -> &'static str {
    match entry {
        Entry::Intent { .. } => "Intent",
        Entry::Decide { .. } => "Decide",
        Entry::Abort { .. } => "Abort",
        Entry::Settled { .. } => "Settled",
    }
}
