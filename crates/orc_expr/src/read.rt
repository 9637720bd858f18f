//! What is read, and what a call may write.
ghost use Rattle.std.specs.Prelude.{◌≡◌, ◌++◌, ◌∷◌, [], IfOk, OnOk, OnErr};

use orc_path::Path;
use orc_text::{Copied, Memory, Row, Text};
use std::alloc::Global;
use std::mem;

/// What an expansion or a call reads: the item at a path, present or not; the entries of a list (or
/// the values of a leaf-list); or whether a service lives.
#[derive(Drop)]
pub enum Read {
    Item(Path),
    Keys(Path),
    Service(Text),
}

impl Read {
    /// An equal read.
    pub fn copy(&self, alloc: Global) -> Result<Read, Memory>
        ensures { IfOk result (λ read. read ≡ self.now) }
    {
        match self {
            Read::Item(path) => Ok(Read::Item(path.copy(alloc)?)),
            Read::Keys(list) => Ok(Read::Keys(list.copy(alloc)?)),
            Read::Service(id) => Ok(Read::Service(id.copy(alloc)?)),
        }
    }
}

impl Copied for Read {
    fn copied(&self, alloc: Global) -> Result<Read, Memory> {
        self.copy(alloc)
    }
}

/// What was read, in order. A read may stand in it more than once.
#[derive(Drop)]
pub struct ReadSet {
    pub reads: Row<Read>,
}

impl ReadSet {
    /// Nothing is read, which takes no memory.
    pub fn new(alloc: Global) -> ReadSet
        ensures { result.reads ≡ [] }
    {
        ReadSet {
            reads: Row::new(alloc),
        }
    }

    /// Adds a read. Where memory runs out, the reads are as they were.
    pub fn push(&mut self, read: Read) -> Result<(), Memory>
        ensures ok { OnOk result (self.new.reads ≡ self.old.reads ++ read ∷ []) }
        ensures err { OnErr result (self.new ≡ self.old) }
    {
        self.reads.push(read)
    }

    /// Adds the reads of another set, after its own. Where memory runs out, the reads are as they
    /// were.
    pub fn append(&mut self, alloc: Global, more: ReadSet) -> Result<(), Memory>
        ensures ok { OnOk result (self.new.reads ≡ self.old.reads ++ more.reads) }
        ensures err { OnErr result (self.new ≡ self.old) }
    {
        let mut all = mem::replace(&mut self.reads, Row::new(alloc)).into_vec();
        let mut more = more.reads.into_vec();
        let added = all.append(&mut more);
        self.reads = Row::from_vec(all);
        match added {
            Ok(()) => Ok(()),
            Err(_) => Err(Memory),
        }
    }

    /// An equal set.
    pub fn copy(&self, alloc: Global) -> Result<ReadSet, Memory>
        ensures { IfOk result (λ set. set ≡ self.now) }
    {
        Ok(ReadSet {
            reads: self.reads.copy(alloc)?,
        })
    }
}

impl Copied for ReadSet {
    fn copied(&self, alloc: Global) -> Result<ReadSet, Memory> {
        self.copy(alloc)
    }
}

/// What a call may write, on any data: a path and the entries on its way, or all at and below a
/// path.
#[derive(Drop)]
pub enum Target {
    One(Path),
    Under(Path),
}

impl Target {
    /// An equal target.
    pub fn copy(&self, alloc: Global) -> Result<Target, Memory>
        ensures { IfOk result (λ target. target ≡ self.now) }
    {
        match self {
            Target::One(path) => Ok(Target::One(path.copy(alloc)?)),
            Target::Under(path) => Ok(Target::Under(path.copy(alloc)?)),
        }
    }
}

impl Copied for Target {
    fn copied(&self, alloc: Global) -> Result<Target, Memory> {
        self.copy(alloc)
    }
}
