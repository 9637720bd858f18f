//! A case: bundles, what they must print, and runs of them, a line each.
//!
//! - `# ..`, or an empty line: nothing
//! - `text NAME`, and the lines `| ..` below: a bundle, or what a run prints; `$1`, `$2`, .. are the
//!   words of the run
//! - `bytes NAME`, and the lines `| ..` below: bytes, as of a bundle or a disk, where `\xHH` is a byte,
//!   `\n` a line feed, and an end of line nothing
//! - `words ..`: the next run has these command words in place of `run`
//! - `source fails N`, `sink fails N`: its source or sink fails at the N-th call
//! - `disk fails KIND N`: its disk fails at the N-th `len`, `read`, `write` or `sync`
//! - `disk holds NAME`, `disk room N`: its disk holds these bytes, or has this room
//! - `disk is a file`: its disk is a real file, made for it in the folder that the program is started in
//! - `run BUNDLE WORD .. -> PRINTED STATUS FAULT`: runs the bundle over a disk of its own; it must
//!   print this text, or `nothing`, and end with this status and, where that isn't 0, this fault
//! - `again BUNDLE ..`: runs it so over the disk that the run before left, where a file is opened anew
//! - `says WORDS`: so what is said of the fault of the run before, which is one of its bundle, ends: with the line at
//!   fault and what may stand there
//! - `finds WORDS`: so it begins, in a line of text above that one: with what in particular is at fault
//! - `stale NAMES`: so the devices are named, with their causes, that are out of step at the end of the run before;
//!   without names where none is
//! - `open NAMES`: so the calls are named that have no answer then
//! - `refused TEXT`: each line of the text is a row `LINE RULE BUNDLE`, as `row` says
//! - `taken TEXT`: each is a row `DEVICES STEPS BUNDLE`
//! - either of them with `behind NAME` at its end: each bundle stands after this text
//! - `left NAME`: the disk of the run before now holds these bytes

use crate::block::{bytes_of, filled, spelled, text_of};
use crate::file::{journal_bytes, journal_made, journal_opened, remove_journal};
use crate::row::{Rows, ending};
use crate::run::{Ran, Streams, run};
use crate::said::{first_line, last_line, named, said_of, words_of};
use crate::settings::Settings;
use orc_disk::{Disk, FileDisk, MemDisk};
use orc_text::Text;
use std::alloc::{AllocError, Global};
use std::fs::File;
use std::io;
use std::mem::replace;
use std::rt::Files;

// The choice of the image that each write outlives, which is what the disk holds.
const CONTENT: u64 = 3;

/// A case, and how far its runs came.
#[derive(Drop)]
pub(crate) struct Case<'a> {
    alloc: Global,
    text: &'a str,
    left: Left,
    has_file: bool,
    said: Option<Text>,
    stale: Option<Text>,
    open: Option<Text>,
    runs: u64,
}

// What the run before left.
#[derive(Drop)]
enum Left {
    Nothing,
    Memory(MemDisk),
    File,
}

// What a line came to.
#[derive(Drop)]
enum Verdict {
    // The line does what it must, or says nothing.
    Good,
    // It is no line of a case.
    Unread,
    // Something else was so.
    Differs(String),
}

impl<'a> Case<'a> {
    /// The case of this text, of which nothing was run.
    pub(crate) fn new(alloc: Global, text: &'a str) -> Case<'a> {
        Case {
            alloc,
            text,
            left: Left::Nothing,
            has_file: false,
            said: None,
            stale: None,
            open: None,
            runs: 0,
        }
    }

    /// How many runs there were.
    pub(crate) fn runs(&self) -> u64 {
        self.runs
    }

    /// Takes each line, prints those at which something else was so, and says whether there was none.
    pub(crate) fn run_all<R: Files<File = File> + Print + AllocGlobal>(
        &mut self,
        rt: &R,
        name: &str,
    ) -> io::Result<bool> {
        let mut good = true;
        let mut number: u64 = 0;
        let mut settings = Settings::new(self.alloc)?;
        for line in self.text.lines() {
            number = number.saturating_add(1);
            if !is_of_a_block(line) {
                let verdict = self.take(rt, &mut settings, line)?;
                good = is_good(rt, name, number, &verdict)? && good;
            }
        }
        if self.has_file {
            remove_journal(rt)?;
        }
        Ok(good)
    }

    // Takes a line that stands in no block.
    fn take<R: Files<File = File> + AllocGlobal>(
        &mut self,
        rt: &R,
        settings: &mut Settings,
        line: &str,
    ) -> io::Result<Verdict> {
        let (word, rest) = line.split_once(' ').unwrap_or((line, ""));
        match word {
            "run" => {
                let set = replace(settings, Settings::new(self.alloc)?);
                self.run_anew(rt, set, rest)
            }
            "again" => {
                let set = replace(settings, Settings::new(self.alloc)?);
                self.run_again(rt, set, rest)
            }
            "says" => is_said(self.alloc, last_line(&self.said), rest),
            "finds" => is_said(self.alloc, first_line(&self.said), rest),
            "stale" => is_said(self.alloc, words_of(&self.stale), rest),
            "open" => is_said(self.alloc, words_of(&self.open), rest),
            "refused" => self.run_rows(rest, Rows::Refused),
            "taken" => self.run_rows(rest, Rows::Taken),
            "left" => self.left(rt, rest),
            _ => read_if(settings.take(self.alloc, self.text, word, rest)?),
        }
    }

    // Runs a bundle over a disk of its own.
    fn run_anew<R: Files<File = File> + AllocGlobal>(
        &mut self,
        rt: &R,
        settings: Settings,
        line: &str,
    ) -> io::Result<Verdict> {
        let Settings { streams, disk } = settings;
        if disk.is_file {
            self.has_file = true;
            let file = journal_made(rt, disk.holds.as_slice())?;
            return self.run_in_file(file, streams, line);
        }
        let disk = disk.disk(self.alloc)?;
        self.run_in_memory(disk, streams, line)
    }

    // Runs a bundle over the disk that the run before left.
    fn run_again<R: Files<File = File> + AllocGlobal>(
        &mut self,
        rt: &R,
        settings: Settings,
        line: &str,
    ) -> io::Result<Verdict> {
        match replace(&mut self.left, Left::Nothing) {
            Left::Memory(disk) => self.run_in_memory(disk, settings.streams, line),
            Left::File => self.run_in_file(journal_opened(rt)?, settings.streams, line),
            Left::Nothing => Ok(Verdict::Unread),
        }
    }

    // Runs a bundle over a disk in memory, and keeps the disk.
    fn run_in_memory(
        &mut self,
        disk: MemDisk,
        streams: Streams,
        line: &str,
    ) -> io::Result<Verdict> {
        let (verdict, disk) = self.run(disk, streams, line)?;
        if let Some(disk) = disk {
            self.left = Left::Memory(disk);
        }
        Ok(verdict)
    }

    // Runs a bundle over a file, which is closed after that.
    fn run_in_file(&mut self, file: File, streams: Streams, line: &str) -> io::Result<Verdict> {
        let (verdict, disk) = self.run(FileDisk::over(file), streams, line)?;
        if disk.is_some() {
            self.left = Left::File;
        }
        Ok(verdict)
    }

    // Runs a bundle as a line says, `BUNDLE WORD .. -> PRINTED STATUS FAULT`, and hands its disk back.
    fn run<D: Disk>(
        &mut self,
        disk: D,
        streams: Streams,
        line: &str,
    ) -> io::Result<(Verdict, Option<D>)> {
        let (before, behind) = line.split_once(" -> ").unwrap_or((line, ""));
        let (printed, ends) = behind.split_once(' ').unwrap_or((behind, ""));
        let Some(bundle) = self.bundle_in(before)? else {
            return Ok((Verdict::Unread, None));
        };
        let Some(printed) = self.text_in(before, printed)? else {
            return Ok((Verdict::Unread, None));
        };
        let ran = self.done(bundle, streams, disk)?;
        let verdict = self.judge(&ran, printed.as_str(), ends)?;
        Ok((verdict, Some(ran.disk)))
    }

    // Runs a bundle, and keeps what is said of its fault, and of devices and calls at its end.
    fn done<D: Disk>(&mut self, bundle: Vec<u8>, streams: Streams, disk: D) -> io::Result<Ran<D>> {
        let read = Vec::from_slice(self.alloc, bundle.as_slice())?;
        let ran = run(self.alloc, streams, read, disk)?;
        self.said = said_of(self.alloc, bundle.as_slice(), &ran)?;
        self.stale = Some(named(ran.notes.devices_named(self.alloc))?);
        self.open = Some(named(ran.notes.calls_named(self.alloc))?);
        Ok(ran)
    }

    // Compares what a run did with what it must do.
    fn judge<D: Disk>(&mut self, ran: &Ran<D>, printed: &str, ends: &str) -> io::Result<Verdict> {
        let alloc = self.alloc;
        self.runs = self.runs.saturating_add(1);
        let ended = ending(alloc, &ran.status)?;
        if ended.as_str() == ends && ran.printed.as_slice() == printed.as_bytes() {
            return Ok(Verdict::Good);
        }
        let is = spelled(alloc, ran.printed.as_slice())?;
        Ok(Verdict::Differs(format!(in alloc; "{is}, status {ended}")?))
    }

    // Holds each row of a text to what it says, after the text that the line names, if it names one.
    fn run_rows(&mut self, line: &str, rows: Rows) -> io::Result<Verdict> {
        let alloc = self.alloc;
        let (name, head) = line.split_once(" behind ").unwrap_or((line, ""));
        let Some(head) = self.head(head)? else {
            return Ok(Verdict::Unread);
        };
        let Some(text) = text_of(alloc, self.text, "text", name)? else {
            return Ok(Verdict::Unread);
        };
        for row in text.as_str().lines() {
            self.runs = self.runs.saturating_add(1);
            match rows.hold(alloc, head.as_str(), row)? {
                Some(true) => {}
                Some(false) => return Ok(Verdict::Differs(String::from_str(alloc, row)?)),
                None => return Ok(Verdict::Unread),
            }
        }
        Ok(Verdict::Good)
    }

    // The text of this name, or nothing where there is no name.
    fn head(&self, name: &str) -> io::Result<Option<String>> {
        if name.is_empty() {
            return Ok(Some(String::new(self.alloc)));
        }
        Ok(text_of(self.alloc, self.text, "text", name)?)
    }

    // The bytes of the bundle that the first word of a line names.
    fn bundle_in(&self, line: &str) -> io::Result<Option<Vec<u8>>> {
        match self.text_in(line, first_word(line))? {
            Some(text) => Ok(Some(text.into_bytes())),
            None => self.bytes_in(first_word(line)),
        }
    }

    // The bytes of a block.
    fn bytes_in(&self, name: &str) -> io::Result<Option<Vec<u8>>> {
        match text_of(self.alloc, self.text, "bytes", name)? {
            Some(text) => Ok(bytes_of(self.alloc, text.as_str())?),
            None => Ok(None),
        }
    }

    // The text of a block, with the words after the first of this line in their places.
    fn text_in(&self, line: &str, name: &str) -> io::Result<Option<String>> {
        if name == "nothing" {
            return Ok(Some(String::new(self.alloc)));
        }
        match text_of(self.alloc, self.text, "text", name)? {
            Some(text) => Ok(Some(filled(self.alloc, text, line)?)),
            None => Ok(None),
        }
    }

    // Compares what the disk of the run before now holds with the bytes of a block.
    fn left<R: Files<File = File> + AllocGlobal>(&self, rt: &R, name: &str) -> io::Result<Verdict> {
        let Some(wanted) = self.bytes_in(name)? else {
            return Ok(Verdict::Unread);
        };
        match &self.left {
            Left::Memory(disk) => match disk.image(self.alloc, CONTENT) {
                Ok(holds) => compared(self.alloc, holds.as_slice(), wanted.as_slice()),
                Err(_) => Ok(Verdict::Unread),
            },
            Left::File => {
                let holds = journal_bytes(rt)?;
                compared(self.alloc, holds.as_slice(), wanted.as_slice())
            }
            Left::Nothing => Ok(Verdict::Unread),
        }
    }
}

// Compares what a disk holds with what it must.
fn compared(alloc: Global, holds: &[u8], wanted: &[u8]) -> io::Result<Verdict> {
    if holds == wanted {
        return Ok(Verdict::Good);
    }
    Ok(Verdict::Differs(spelled(alloc, holds)?))
}

// Whether a line does what it must; prints what else was so.
fn is_good<R: Print>(rt: &R, name: &str, number: u64, verdict: &Verdict) -> io::Result<bool> {
    match verdict {
        Verdict::Good => return Ok(true),
        Verdict::Unread => println!(rt; "{name}, line {number}: no line of a case")?,
        Verdict::Differs(is) => println!(rt; "{name}, line {number}: {is}")?,
    }
    Ok(false)
}

// What a line came to that sets something, or else is none.
fn read_if(sets: bool) -> io::Result<Verdict> {
    match sets {
        true => Ok(Verdict::Good),
        false => Ok(Verdict::Unread),
    }
}

// Whether the line stands in a block, begins one, or says nothing.
fn is_of_a_block(line: &str) -> bool {
    match line.as_bytes().first() {
        None => true,
        Some(first) => *first == b'#' || *first == b'|' || begins_a_block(line),
    }
}

// Whether the line begins a block.
fn begins_a_block(line: &str) -> bool {
    line.starts_with("text ") || line.starts_with("bytes ")
}

// The first word of a line.
fn first_word(line: &str) -> &str {
    match line.split_once(" ") {
        Some((first, _)) => first,
        None => line,
    }
}

// Compares what was said with what is to be said.
fn is_said(alloc: Global, said: Option<&str>, words: &str) -> io::Result<Verdict> {
    match said {
        Some(said) if said == words => Ok(Verdict::Good),
        Some(said) => Ok(Verdict::Differs(String::from_str(alloc, said)?)),
        None => Ok(Verdict::Unread),
    }
}
