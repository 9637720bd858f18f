//! What a line of a case sets for the next run.

use crate::block::{bytes_of, text_of};
use crate::run::{JOURNAL_ROOM, Streams};
use orc_disk::{DiskOp, MemDisk};
use orc_text::Memory;
use std::alloc::{AllocError, Global};

/// The command words of a run, the calls at which its source and its sink fail, and its disk.
#[derive(Drop)]
pub(crate) struct Settings {
    pub streams: Streams,
    pub disk: DiskSettings,
}

/// What the disk of a run holds before and whether it is a file; of one in memory its room for more,
/// and the calls at which it fails.
#[derive(Drop)]
pub(crate) struct DiskSettings {
    pub holds: Vec<u8>,
    pub is_file: bool,
    room: u64,
    fails: Vec<(DiskOp, u64)>,
}

impl Settings {
    /// Those of a run over an empty disk at which nothing fails.
    pub(crate) fn new(alloc: Global) -> Result<Settings, AllocError> {
        Ok(Settings {
            streams: Streams::of(alloc, "run")?,
            disk: DiskSettings::new(alloc),
        })
    }

    /// Takes a word and what stands after it, and says whether they set something.
    pub(crate) fn take(
        &mut self,
        alloc: Global,
        case: &str,
        word: &str,
        rest: &str,
    ) -> Result<bool, AllocError> {
        match word {
            "words" => self.name_words(alloc, rest),
            "source" => push_fail(&mut self.streams.source_fails, rest),
            "sink" => push_fail(&mut self.streams.sink_fails, rest),
            "disk" => self.disk.take(alloc, case, rest),
            _ => Ok(false),
        }
    }

    // The run has these command words.
    fn name_words(&mut self, alloc: Global, words: &str) -> Result<bool, AllocError> {
        self.streams.words = Vec::new(alloc);
        for word in words.split_whitespace() {
            self.streams.words.push(String::from_str(alloc, word)?)?;
        }
        Ok(true)
    }
}

impl DiskSettings {
    // An empty disk at which nothing fails.
    fn new(alloc: Global) -> DiskSettings {
        DiskSettings {
            holds: Vec::new(alloc),
            is_file: false,
            room: JOURNAL_ROOM,
            fails: Vec::new(alloc),
        }
    }

    /// The disk in memory.
    pub(crate) fn disk(self, alloc: Global) -> Result<MemDisk, AllocError> {
        match MemDisk::new(alloc, self.holds, self.room, self.fails) {
            Ok(disk) => Ok(disk),
            Err(Memory) => Err(AllocError),
        }
    }

    // Takes what stands after the word `disk`, and says whether it sets something.
    fn take(&mut self, alloc: Global, case: &str, rest: &str) -> Result<bool, AllocError> {
        let Some((word, rest)) = rest.split_once(' ') else {
            return Ok(false);
        };
        match word {
            "fails" => self.fail(rest),
            "holds" => self.fill(alloc, case, rest),
            "room" => Ok(self.make_room(rest)),
            "is" => Ok(self.be_a_file(rest)),
            _ => Ok(false),
        }
    }

    // The disk is a file.
    fn be_a_file(&mut self, words: &str) -> bool {
        self.is_file = words == "a file";
        self.is_file
    }

    // The disk has so much room.
    fn make_room(&mut self, number: &str) -> bool {
        match number.parse() {
            Ok(room) => {
                self.room = room;
                true
            }
            Err(_) => false,
        }
    }

    // The disk fails at a call: its kind, and its number among those of that kind.
    fn fail(&mut self, call: &str) -> Result<bool, AllocError> {
        let (kind, number) = call.split_once(' ').unwrap_or((call, ""));
        match (operation(kind), number.parse()) {
            (Some(kind), Ok(number)) => {
                self.fails.push((kind, number))?;
                Ok(true)
            }
            _ => Ok(false),
        }
    }

    // The disk holds the bytes of a block.
    fn fill(&mut self, alloc: Global, case: &str, name: &str) -> Result<bool, AllocError> {
        let Some(text) = text_of(alloc, case, "bytes", name)? else {
            return Ok(false);
        };
        match bytes_of(alloc, text.as_str())? {
            Some(bytes) => {
                self.holds = bytes;
                Ok(true)
            }
            None => Ok(false),
        }
    }
}

// Takes `fails N`, and says whether it is that.
fn push_fail(numbers: &mut Vec<u64>, rest: &str) -> Result<bool, AllocError> {
    let Some(number) = rest.strip_prefix("fails ") else {
        return Ok(false);
    };
    match number.parse() {
        Ok(number) => {
            numbers.push(number)?;
            Ok(true)
        }
        Err(_) => Ok(false),
    }
}

// The operation of a disk with this name.
fn operation(name: &str) -> Option<DiskOp> {
    match name {
        "len" => Some(DiskOp::Len),
        "read" => Some(DiskOp::Read),
        "write" => Some(DiskOp::Write),
        "sync" => Some(DiskOp::Sync),
        _ => None,
    }
}
