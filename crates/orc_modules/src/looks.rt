//! How much the build of one schema may look at, and where it stands.

use orc_text::Memory;
use std::cell::Cell;

// So much may be looked at: a statement that a name is looked for at is one look, and one that is
// read for what it defines is four.
const MAX_LOOKS: u64 = 200_000_000;

// So many texts may be kept.
const MAX_TEXTS: u64 = 20_000_000;

/// What the build of one schema may still look at, and how many texts it may still keep. It bounds
/// time and memory alone: where nothing is left the build runs out of memory, and no clause speaks
/// of it. It also says where the build stands, so that after a fault its place can be reported: no
/// clause speaks of that either.
#[derive(Drop)]
pub struct Looks {
    looks: Cell<u64>,
    texts: Cell<u64>,
    module: Cell<usize>,
    at: Cell<u64>,
    node: Cell<Option<usize>>,
}

// Takes so much of what is left, or all of it.
fn take(left: &Cell<u64>, much: u64) {
    left.set(left.get().saturating_sub(much));
}

// Takes so much of what is left, where there is more.
fn spend(left: &Cell<u64>, much: u64) -> Result<(), Memory> {
    take(left, much);
    if left.get() == 0 {
        return Err(Memory);
    }
    Ok(())
}

impl Looks {
    /// What a build begins with.
    pub fn new() -> Looks {
        Looks {
            looks: Cell::new(MAX_LOOKS),
            texts: Cell::new(MAX_TEXTS),
            module: Cell::new(0),
            at: Cell::new(0),
            node: Cell::new(None),
        }
    }

    /// So many statements are looked at for a name.
    pub fn pass(&self, statements: usize) {
        take(&self.looks, statements as u64);
    }

    /// So many statements are looked at for what they define. Memory runs out where no more may be.
    pub fn visit(&self, statements: usize) -> Result<(), Memory> {
        spend(&self.looks, (statements as u64).saturating_mul(4))
    }

    /// So many texts are kept. Memory runs out where no more may be.
    pub fn keep(&self, texts: usize) -> Result<(), Memory> {
        spend(&self.texts, texts as u64)
    }

    /// The walk over the statements goes into the module of this number, from 0 in the order given.
    pub fn enter(&self, module: usize) {
        self.module.set(module);
        self.node.set(None);
    }

    /// It stands at the statement of this module whose `at` this is.
    pub fn stand_at(&self, at: u64) {
        self.at.set(at);
    }

    /// The walk over the nodes, after that over the statements, goes to the next one.
    pub fn go_on(&self) {
        self.node.set(match self.node.get() {
            Some(node) => Some(node.saturating_add(1)),
            None => Some(0),
        });
    }

    /// The number of the module in which the walk over the statements stands, from 0 in the order
    /// given.
    pub fn module(&self) -> usize {
        self.module.get()
    }

    /// The place of the statement at which it stands, in bytes from the beginning of the module's text.
    pub fn at(&self) -> u64 {
        self.at.get()
    }

    /// The number of the node at which the walk over the nodes stands, from 0 in the order in which the
    /// modules define them, and none before that walk.
    pub fn node(&self) -> Option<usize> {
        self.node.get()
    }
}
