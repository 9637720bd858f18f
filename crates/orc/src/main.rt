//! The program: it does what the command words ask for with the bundle on standard input, over a
//! journal in a file or in memory, and writes what that prints to standard output.
#![tactic(auto)]

mod file;
mod line_ends;
mod notes;
mod sentences;

use crate::file::{is_on_disk, journal_file, probe, remove};
use crate::line_ends::differ_by_line_ends;
use crate::notes::{report_after_end, report_calls, report_devices};
use crate::sentences::sentence;
use orc_decls::Rule;
use orc_diagnose::{diagnosis, repeated_findings};
use orc_disk::{Disk, FileDisk, MemDisk};
use orc_io::{KeptSource, Source, StdSink, StdSource};
use orc_journal::{EntriesBefore, entries_before};
use orc_lines::Detail;
use orc_run::{Done, Ended, Notes, Stop, orchestrate, status};
use orc_text::Memory;
use orc_words::{Command, WordsFault, command_of, journal_word, usage_text};
use std::alloc::Global;
use std::fs::File;
use std::process::ExitCode;
use std::rt::{Env, Files};
use std::{env, io};

// The room of a journal in memory, in bytes.
const JOURNAL_ROOM: u64 = 67_108_864;

// The status where the journal's file can't be used.
const FILE_STATUS: u8 = 14;

// What is said of declarations that are a journal's but for carriage returns.
const LINE_ENDS: &str =
    " The two differ in line ends alone: of one, lines end with a carriage return and a line feed.";

// What `history` does over the part of a damaged journal before the damage, whose calls may not make a history.
const OF_A_COPY: &str = "prints these calls, or names an earlier byte.";

// The words are looked at before the file that they name is opened.
fn main(rt: HostRuntime) -> ExitCode {
    let words = match words(&rt) {
        Ok(words) => words,
        Err(stop) => return ends(&rt, &[], &stop),
    };
    let words = words.as_slice();
    match command_of(rt.alloc(), words) {
        Ok(command) => match journal_word(words) {
            Some(name) => run_over_file(&rt, words, &command, name),
            None => run_in_memory(&rt, words, &command),
        },
        Err(WordsFault::Usage) => ends(&rt, words, &Stop::Usage),
        Err(WordsFault::Memory) => ends(&rt, words, &Stop::Memory),
    }
}

// Does what the words ask for over the journal in the file of this name, which only `run` and `gen` make. It says where
// the journal begins there: over a misspelt name nothing is known of earlier calls, and each is done anew. A file that
// was made and in which no journal began is taken away.
fn run_over_file(rt: &HostRuntime, words: &[String], command: &Command, name: &str) -> ExitCode {
    let makes = matches!(command, Command::Run | Command::Gen { .. });
    let journal = match journal_file(rt, name, makes) {
        Ok(journal) => journal,
        Err(error) if error.kind() == io::ErrorKind::OutOfMemory => {
            return ends(rt, words, &Stop::Memory);
        }
        Err(error) => return refuses(rt, name, &error),
    };
    if makes && journal.is_empty {
        let _ = eprintln!(rt; "The journal in \"{name}\" is new: its history is empty.");
    }
    let (status, mut disk) = run(rt, words, command, Some(name), FileDisk::over(journal.file));
    if journal.is_made && matches!(disk.len(), Ok(0)) {
        remove(rt, name);
    }
    status
}

// Does what the words ask for over a journal in memory.
fn run_in_memory(rt: &HostRuntime, words: &[String], command: &Command) -> ExitCode {
    match journal_disk(rt.alloc(), room_for(command)) {
        Ok(disk) => run(rt, words, command, None, disk).0,
        Err(stop) => ends(rt, words, &stop),
    }
}

// Does what the words ask for over the journal of a disk, which is handed back, the one in the file of a name or one in
// memory, and says on standard error what is to be known of the run. A fault of the bundle is explained, unless memory ran
// out for keeping the bundle's bytes.
fn run<D: Disk>(
    rt: &HostRuntime,
    words: &[String],
    command: &Command,
    name: Option<&str>,
    disk: D,
) -> (ExitCode, D) {
    let mut source = KeptSource::new(rt.alloc(), StdSource::new(rt.reader()));
    let mut sink = StdSink::new(io::writer(rt));
    let Ended {
        mut disk,
        status: ended,
        notes,
    } = orchestrate(rt.alloc(), words, &mut source, &mut sink, disk);
    if is_opened(&ended) {
        report_opened(rt, command, &notes);
    }
    if reads_bundle(command) && source.is_all() {
        report_repeated(rt, &ended, source.kept());
    }
    if does_script(command, &ended) {
        report_calls(rt, &notes);
    }
    let status = match &ended {
        Ok(_) => ExitCode::from(status(&ended)),
        Err(Stop::Bundle { line, rule }) => {
            let _ = eprintln!(rt; "orc: Bundle {line} {rule}");
            if source.is_all() {
                match &notes.detail {
                    Some(detail) => explain(rt, source.kept(), *line, *rule, detail),
                    None => explain(rt, source.kept(), *line, *rule, &Detail::Plain),
                }
            }
            ExitCode::from(status(&ended))
        }
        Err(stop) => {
            let status = ends(rt, words, stop);
            match stop {
                Stop::Foreign { at } if reads_bundle(command) => {
                    report_line(rt, &source, &mut disk, *at)
                }
                Stop::JournalFault => report_cause(rt, name),
                Stop::Damaged { at } => report_damage(rt, name, &mut disk, *at),
                _ => {}
            }
            status
        }
    };
    (status, disk)
}

// Whether the command reads a bundle, and doesn't make one.
fn reads_bundle(command: &Command) -> bool {
    match command {
        Command::Gen { .. } => false,
        _ => true,
    }
}

// Whether the script of a bundle that was read was done to its end.
fn does_script(command: &Command, ended: &Result<Done, Stop>) -> bool {
    matches!(command, Command::Run) && ended.is_ok()
}

// Whether the journal was opened, as far as the end of the run shows that.
fn is_opened(ended: &Result<Done, Stop>) -> bool {
    match ended {
        Ok(Done) => true,
        Err(Stop::WriteFault) => true,
        Err(Stop::Full { .. }) => true,
        Err(_) => false,
    }
}

// Writes what is to be known of a journal that was opened, and of the devices of a script that was done over it.
fn report_opened<R: Eprint + AllocGlobal>(rt: &R, command: &Command, notes: &Notes) {
    match command {
        Command::Run | Command::Gen { .. } => report_devices(rt, notes),
        Command::Check | Command::History => {}
    }
    report_after_end(rt, notes);
}

// Writes which members stand twice in the JSON texts of a bundle, where it is one.
fn report_repeated<R: Eprint + AllocGlobal>(rt: &R, ended: &Result<Done, Stop>, bundle: &[u8]) {
    if let Err(Stop::Bundle { .. }) = ended {
        return;
    }
    if let Ok(found) = repeated_findings(rt.alloc(), bundle) {
        for words in found.as_slice() {
            let _ = eprintln!(rt; "{}", words.as_str());
        }
    }
}

// Writes whether another file could be written beside a journal in the file of a name that failed, and if not, why.
fn report_cause<R: Eprint + Files<File = File> + AllocGlobal>(rt: &R, name: Option<&str>) {
    let Some(name) = name else {
        return;
    };
    if !is_on_disk(rt, name) {
        return;
    }
    let _ = match probe(rt, name) {
        Ok(()) => eprintln!(rt;
            "Another file, \"{name}.probe\", could be written beside it just now, and is gone again."
        ),
        Err(error) => eprintln!(rt;
            "Another file, \"{name}.probe\", couldn't be written beside it just now: {error}."
        ),
    };
}

// Writes what stands before the damage, at this byte, of a journal in the file of a name, and how to see it.
fn report_damage<R: Eprint, D: Disk>(rt: &R, name: Option<&str>, disk: &mut D, at: u64) {
    if name.is_none() {
        return;
    }
    if let Ok(Some(before)) = entries_before(disk, at) {
        let EntriesBefore { entries, calls } = before;
        let cut = at.saturating_sub(1);
        let _ = eprint!(rt;
            "Entries before that byte: {entries}; calls that they commit: {calls}. "
        );
        let _ = eprintln!(rt;
            "`history` over a copy of the first {cut} bytes (`head -c {cut} FILE > COPY`) {OF_A_COPY}"
        );
    }
}

// Writes in which line of the bundle the declarations differ from a journal's, and whether they do in their line ends
// alone, unless memory ran out for its bytes.
fn report_line<R: Eprint, S: Source, D: Disk>(
    rt: &R,
    source: &KeptSource<S>,
    disk: &mut D,
    at: u64,
) {
    if !source.is_all() {
        return;
    }
    let line = line_at(source.kept(), at);
    let _ = eprint!(rt; "Line {line} of the bundle is the first that differs.");
    if matches!(differ_by_line_ends(disk, source.kept()), Ok(true)) {
        let _ = eprint!(rt; "{LINE_ENDS}");
    }
    let _ = eprintln!(rt; "");
}

// The number of the line in which a byte of a bundle stands, counted from 1.
fn line_at(bundle: &[u8], at: u64) -> u64 {
    let mut line: u64 = 1;
    for (place, byte) in bundle.iter().enumerate() {
        if place as u64 == at {
            return line;
        }
        if *byte == b'\n' {
            line = line.saturating_add(1);
        }
    }
    line
}

// Writes what is said of the line of a bundle that breaks a rule, and was refused with this detail.
fn explain<R: Eprint + AllocGlobal>(rt: &R, bundle: &[u8], line: u64, rule: Rule, detail: &Detail) {
    if let Ok(said) = diagnosis(rt.alloc(), bundle, line, rule, detail) {
        let _ = eprintln!(rt; "{}", said.as_str());
    }
}

// Says on standard error why a run ended, and ends with its status.
fn ends<R: Eprint + AllocGlobal>(rt: &R, words: &[String], stop: &Stop) -> ExitCode {
    let _ = eprintln!(rt; "orc: {stop}");
    if let Stop::Usage = stop {
        if let Ok(text) = usage_text(rt.alloc(), words) {
            let _ = eprint!(rt; "{}", text.as_str());
        }
    } else {
        let _ = eprintln!(rt; "{}", sentence(stop));
    }
    ExitCode::from(stop.status())
}

// Says on standard error why a file can't hold the journal, and ends.
fn refuses<R: Eprint>(rt: &R, name: &str, error: &io::Error) -> ExitCode {
    let _ = eprintln!(rt; "orc: file");
    let _ = eprintln!(rt; "The journal can't be in \"{name}\": {error}.");
    ExitCode::from(FILE_STATUS)
}

// The room that a command wants for a journal in memory: `check` touches none.
fn room_for(command: &Command) -> u64 {
    match command {
        Command::Check => 0,
        _ => JOURNAL_ROOM,
    }
}

// An empty disk in memory with this room.
fn journal_disk(alloc: Global, room: u64) -> Result<MemDisk, Stop> {
    match MemDisk::new(alloc, Vec::new(alloc), room, Vec::new(alloc)) {
        Ok(disk) => Ok(disk),
        Err(Memory) => Err(Stop::Memory),
    }
}

// The command words, which are the arguments after the program's name. Words that are not UTF-8
// are none.
fn words<R: Env + AllocGlobal>(rt: &R) -> Result<Vec<String>, Stop> {
    let mut arguments = match env::args(rt) {
        Ok(arguments) => arguments,
        Err(error) if error.kind() == io::ErrorKind::OutOfMemory => return Err(Stop::Memory),
        Err(_) => return Err(Stop::Usage),
    };
    let _program = arguments.next();
    let mut words = Vec::new(rt.alloc());
    for word in arguments {
        if words.push(word).is_err() {
            return Err(Stop::Memory);
        }
    }
    Ok(words)
}
