//! Running a bundle over memory.

use orc_disk::{Disk, MemDisk};
use orc_io::{MemSink, MemSource};
use orc_run::{Done, Ended, Notes, Stop, orchestrate};
use orc_text::Memory;
use std::alloc::{AllocError, Global};

// The most bytes that a run prints.
const ROOM: usize = 65_536;

/// The room of a run's journal, in bytes.
pub(crate) const JOURNAL_ROOM: u64 = 65_536;

/// The command words of a run, and the calls at which its source and its sink fail.
#[derive(Drop)]
pub(crate) struct Streams {
    pub words: Vec<String>,
    pub source_fails: Vec<u64>,
    pub sink_fails: Vec<u64>,
}

impl Streams {
    /// Those of a run with this command word, at which nothing fails.
    pub(crate) fn of(alloc: Global, word: &str) -> Result<Streams, AllocError> {
        let mut words = Vec::new(alloc);
        words.push(String::from_str(alloc, word)?)?;
        Ok(Streams {
            words,
            source_fails: Vec::new(alloc),
            sink_fails: Vec::new(alloc),
        })
    }
}

/// How a run ended, and what it printed.
#[derive(Drop)]
pub(crate) struct Ran<D> {
    pub disk: D,
    pub printed: Vec<u8>,
    pub status: Result<Done, Stop>,
    pub notes: Notes,
}

/// Runs a bundle over a source and a sink that fail at these calls, and over a disk.
pub(crate) fn run<D: Disk>(
    alloc: Global,
    streams: Streams,
    bundle: Vec<u8>,
    disk: D,
) -> Result<Ran<D>, AllocError> {
    let Streams {
        words,
        source_fails,
        sink_fails,
    } = streams;
    let sink = sink_of(alloc, sink_fails)?;
    run_over(
        alloc,
        words.as_slice(),
        MemSource::new(bundle, source_fails),
        sink,
        disk,
    )
}

// A sink that fails at these calls.
fn sink_of(alloc: Global, fails: Vec<u64>) -> Result<MemSink, AllocError> {
    match MemSink::new(alloc, ROOM, fails) {
        Ok(sink) => Ok(sink),
        Err(Memory) => Err(AllocError),
    }
}

// Runs what a source holds.
fn run_over<D: Disk>(
    alloc: Global,
    words: &[String],
    mut source: MemSource,
    mut sink: MemSink,
    disk: D,
) -> Result<Ran<D>, AllocError> {
    let Ended {
        disk,
        status,
        notes,
    } = orchestrate(alloc, words, &mut source, &mut sink, disk);
    let printed = Vec::from_slice(alloc, sink.bytes())?;
    Ok(Ran {
        disk,
        printed,
        status,
        notes,
    })
}

/// Runs a bundle over an empty disk, as this command word says.
pub(crate) fn run_alone(
    alloc: Global,
    word: &str,
    bundle: Vec<u8>,
) -> Result<Ran<MemDisk>, AllocError> {
    let disk = empty_disk(alloc)?;
    run(alloc, Streams::of(alloc, word)?, bundle, disk)
}

// An empty disk at which nothing fails.
fn empty_disk(alloc: Global) -> Result<MemDisk, AllocError> {
    match MemDisk::new(alloc, Vec::new(alloc), JOURNAL_ROOM, Vec::new(alloc)) {
        Ok(disk) => Ok(disk),
        Err(Memory) => Err(AllocError),
    }
}

/// Whether a bundle is run to its end over an empty disk and prints these bytes.
pub(crate) fn run_to_end(
    alloc: Global,
    bundle: Vec<u8>,
    wanted: &[u8],
) -> Result<bool, AllocError> {
    let ran = run_alone(alloc, "run", bundle)?;
    Ok(ran.status.is_ok() && ran.printed.as_slice() == wanted)
}
