//! What was read so far: the configuration, and the least fault.
ghost use Rattle.std.specs.Prelude.{◌≡◌, OnOk, IsTrue};
ghost use Rattle.std.specs.Prelude.{Some};
ghost use Rattle.std.specs.Ordering.{is_lt};
ghost use Rattle.orc_path.specs.Items.{fits};
ghost use Rattle.orc_json.specs.Findings.{states, breaks};
ghost use Rattle.orc_json.specs.Readings.{fault_cmp, lesser_fault, find, nothing_read};

use crate::fault::DUPLICATE;
use orc_path::{Item, Path};
use orc_text::Memory;
use orc_tree::Tree;
use std::alloc::Global;
use std::cmp::Ordering;

/// A rule that is broken at a path.
#[derive(Drop)]
pub(crate) struct Breach {
    pub path: Path,
    pub rule: u8,
}

/// What was read so far.
#[derive(Drop)]
pub(crate) struct Reading {
    pub tree: Tree,
    pub breach: Option<Breach>,
}

// Whether one comes before the other.
fn is_less(one: &Breach, other: &Breach) -> bool
    ensures { result ≡ is_lt (fault_cmp one.now other.now) }
{
    match one.path.cmp(&other.path) {
        Ordering::Less => true,
        Ordering::Equal => one.rule < other.rule,
        Ordering::Greater => false,
    }
}

// The lesser of two faults.
fn lesser_fault(one: Breach, other: Option<Breach>) -> Breach
    ensures { result ≡ lesser_fault one other }
{
    match other {
        None => one,
        Some(other) => if is_less(&one, &other) { one } else { other },
    }
}

impl Reading {
    /// Nothing.
    pub fn new(alloc: Global) -> Reading
        ensures { result ≡ nothing_read }
    {
        Reading {
            tree: Tree::new(alloc),
            breach: None,
        }
    }

    /// A rule is broken at a path.
    pub fn break_rule(&mut self, path: Path, rule: u8)
        ensures { self.new ≡ find (breaks path rule) self.old }
    {
        let breach = self.breach.take();
        self.breach = Some(lesser_fault(Breach { path, rule }, breach));
    }

    /// An item stands at a path.
    pub fn state(&mut self, alloc: Global, path: Path, item: Item) -> Result<(), Memory>
        requires { IsTrue (fits path item) }
        ensures { OnOk result (self.new ≡ find (states path item) self.old) }
    {
        if self.tree.get(&path).is_some() {
            self.break_rule(path.copy(alloc)?, DUPLICATE);
        }
        self.tree.set(path, item)
    }
}
