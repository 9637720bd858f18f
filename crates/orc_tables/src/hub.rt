//! Tables of hubs: done from top to bottom on one hub at a time, over a journal in memory: what is declared, the hub,
//! and what it leaves on its disk.
//!
//! Items and changes are parted by ` | `; a change is `+ ITEM` or `- PATH`.
//!
//! - `new`, `declare LINE`: nothing is declared; the next line of the declarations, as in a bundle
//! - `fail OPERATION N`, `limit N`: the next disk fails its Nth `write` or `sync`; the next journal has at most so many
//!   bytes
//! - `start`, `recover`: a hub with these declarations over an empty disk, or over what the last one left
//! - `begin`: a snapshot is taken for a call that comes later
//! - `submit CALL > OUTCOME`, `late CALL > OUTCOME`: a call is planned, on a snapshot that is taken now or on the last
//!   one, and submitted. A call is `CALLER NUMBER; LINE; LINE`, with its lines as in a script; it is answered, or it is
//!   `Queued T`
//! - `admit > OUTCOME`, `decide > OUTCOME`: what came of it: `Nothing`, `Admitted T`, an answer, `Settled T`, `Down`,
//!   or `Full LENGTH`
//! - `due D OP`, `due D none`: the operation that is due on a device
//! - `step D OP > REPLY N`: this operation is due, and gets this reply, with this count of faults
//! - `prepare D T CHANGES`, `confirm D T`, `cancel D T`: the operations of a transaction up to where it is prepared,
//!   and after its decision, are due one by one, and get `Ok`
//! - `agree D INTENTS > ITEMS`, `agree D INTENTS`: a reconciliation confirms or cancels these transactions, as in
//!   `1 commit, 2 abort` or `none`, finds that the device runs this, or nothing, and changes nothing
//! - `reconcile > OUTCOME`, `finish > OUTCOME`: how a reconciliation begins and ends: `ok`, or its failure
//! - `answer CALLER N > ANSWER`, `answer CALLER N > none`: the last answer that this caller and number got
//! - `idle yes`, `down no`: whether nothing is under way, and whether an append failed
//! - `tree D ITEMS`: what is due on a device
//! - `end ENTRIES`: the hub ends, and its journal has these entries: `Intent T CALLER NUMBER DEVICES`, `Decide T`,
//!   `Abort T`, `Settled T`, parted by ` | `, or `none`

mod answers;
mod calls;
mod courses;
mod entries;
mod kept;
mod lines;
mod outcomes;
mod steps;

use crate::hub::entries::push_entries;
use crate::hub::kept::Kept;
use crate::hub::lines::on_hub;
use crate::line::first_word;
use crate::shown::Shown;
use crate::table::Table;
use crate::undone::Undone;
use orc_decls::Decls;
use orc_disk::{DiskOp, MemDisk};
use orc_journal::{Entry, Journal};
use std::alloc::Global;
use std::mem::replace;

// How many bytes a journal may have where a table says nothing else, and how many more a disk has room for.
const LIMIT: u32 = 100_000;

const ROOM: u64 = 100_000;

// The choice of the image that each write outlives.
const CONTENT: u64 = 3;

/// A table of hubs: the declarations, line by line; the disk of the next hub; and the hub, in a box, so that who lets
/// it go needn't know what it is made of.
#[derive(Drop)]
pub(crate) struct Hubs {
    alloc: Global,
    declared: String,
    next: Next,
    hub: Option<Box<Kept>>,
}

impl Table for Hubs {
    fn take(&mut self, line: &str) -> Result<bool, Undone> {
        let (word, rest) = first_word(line);
        match word {
            "new" => self.declared = String::new(self.alloc),
            "declare" => self.declare(rest)?,
            "fail" => self.next.fail(rest)?,
            "limit" => self.next.limit = rest.parse()?,
            "start" => self.start()?,
            "recover" => self.recover()?,
            "begin" => self.begin()?,
            "end" => return self.ends(rest),
            _ => return self.says(word, rest),
        }
        Ok(true)
    }
}

// The operation of a disk of this name.
fn disk_op_of(name: &str) -> Result<DiskOp, Undone> {
    match name {
        "write" => Ok(DiskOp::Write),
        "sync" => Ok(DiskOp::Sync),
        _ => Err(Undone),
    }
}

// The entries of the journal of these declarations on a disk.
fn entries_of(alloc: Global, disk: MemDisk, decls: &Decls) -> Result<Vec<Entry>, Undone> {
    if decls.text().len() > LIMIT as usize {
        return Err(Undone);
    }
    match Journal::attach(alloc, disk, decls.text(), u64::from(LIMIT)) {
        Ok((_journal, entries)) => Ok(entries),
        Err(_) => Err(Undone),
    }
}

// Whether what a disk holds has these entries.
fn has_entries(alloc: Global, disk: &MemDisk, decls: &Decls, wanted: &str) -> Result<bool, Undone> {
    let bytes = disk.image(alloc, CONTENT)?;
    let again = MemDisk::new(alloc, bytes, ROOM, Vec::new(alloc))?;
    let entries = entries_of(alloc, again, decls)?;
    let mut shown = Shown::new(alloc);
    push_entries(&mut shown, decls.names(), &entries)?;
    Ok(shown.as_str() == wanted)
}

/// The next disk: what the last hub left there, and which of its operations fail; and how many bytes its journal
/// may have.
#[derive(Drop)]
struct Next {
    left: Vec<u8>,
    fails: Vec<(DiskOp, u64)>,
    limit: u32,
}

impl Next {
    // An empty disk that doesn't fail.
    fn new(alloc: Global) -> Next {
        Next {
            left: Vec::new(alloc),
            fails: Vec::new(alloc),
            limit: LIMIT,
        }
    }

    // An operation of this name fails, as `OPERATION N`.
    fn fail(&mut self, rest: &str) -> Result<(), Undone> {
        let (name, number) = first_word(rest);
        self.fails.push((disk_op_of(name)?, number.parse()?))?;
        Ok(())
    }

    // A hub of these declarations over it.
    fn hub(self, alloc: Global, declared: &str) -> Result<Kept, Undone> {
        let Next { left, fails, limit } = self;
        let disk = MemDisk::new(alloc, left, ROOM, fails)?;
        Kept::start(alloc, declared, disk, limit)
    }
}

impl Hubs {
    /// Nothing is declared.
    pub(crate) fn new(alloc: Global) -> Hubs {
        Hubs {
            alloc,
            declared: String::new(alloc),
            next: Next::new(alloc),
            hub: None,
        }
    }

    // Adds a line to the declarations.
    fn declare(&mut self, line: &str) -> Result<(), Undone> {
        self.declared.push_str(line)?;
        self.declared.push_str("\n")?;
        Ok(())
    }

    // A hub over an empty disk.
    fn start(&mut self) -> Result<(), Undone> {
        self.next.left = Vec::new(self.alloc);
        self.recover()
    }

    // A hub over what the last one left.
    fn recover(&mut self) -> Result<(), Undone> {
        let next = replace(&mut self.next, Next::new(self.alloc));
        let kept = next.hub(self.alloc, self.declared.as_str())?;
        self.hub = Some(Box::new(self.alloc, kept)?);
        Ok(())
    }

    // Takes a snapshot of the state.
    fn begin(&mut self) -> Result<(), Undone> {
        match &mut self.hub {
            Some(hub) => hub.begin(self.alloc),
            None => Err(Undone),
        }
    }

    // Says whether it is so of the hub, as a line asks.
    fn says(&mut self, word: &str, rest: &str) -> Result<bool, Undone> {
        match &mut self.hub {
            Some(hub) => on_hub(self.alloc, &mut **hub, self.declared.as_str(), word, rest),
            None => Err(Undone),
        }
    }

    // Ends the hub, and says whether its journal has these entries.
    fn ends(&mut self, wanted: &str) -> Result<bool, Undone> {
        match replace(&mut self.hub, None) {
            Some(hub) => self.leave(Box::into_inner(hub), wanted),
            None => Err(Undone),
        }
    }

    // Ends this hub, and says whether its journal has these entries.
    fn leave(&mut self, hub: Kept, wanted: &str) -> Result<bool, Undone> {
        let (disk, decls) = hub.into_parts();
        self.leave_disk(&disk, &decls, wanted)
    }

    // Keeps what is on the disk of a hub that ended, and says whether the journal there, of these
    // declarations, has these entries.
    fn leave_disk(&mut self, disk: &MemDisk, decls: &Decls, wanted: &str) -> Result<bool, Undone> {
        self.next.left = disk.image(self.alloc, CONTENT)?;
        has_entries(self.alloc, disk, decls, wanted)
    }
}
