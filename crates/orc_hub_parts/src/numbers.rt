//! The numbers of transactions.
ghost use Rattle.std.specs.Prelude.{◌≡◌, ℕ, false, IfSome, OnOk};
ghost use Rattle.orc_hub_parts.specs.Numbered.{GivesNumber, IsLeastFree, NotesNumber, is_given, is_noted};

use orc_text::Memory;
use std::alloc::Global;
use std::collections::BTreeSet;

/// The numbers of transactions: those that the journal had as it was opened, and those that were given
/// since, each of them the least from 1 on that was in neither. So of the numbers below the next one all
/// were given that the journal didn't have.
#[derive(Drop)]
pub struct Numbers {
    noted: BTreeSet<u64>,
    next: u64,
}

impl Numbers {
    /// No number is noted, and none was given.
    pub fn new(alloc: Global) -> Numbers
        ensures noted { (t : ℕ) → is_noted result t ≡ false }
        ensures given { (t : ℕ) → is_given result t ≡ false }
        ensures next { result.next ≡ 1 }
    {
        Numbers {
            noted: BTreeSet::new(alloc),
            next: 1,
        }
    }

    /// The least number from 1 on that is neither noted nor given. It takes no memory. None: all numbers
    /// below 2^64 - 1 are taken.
    pub fn least(&self) -> Option<u64>
        ensures { IfSome result (IsLeastFree self.now) }
    {
        for t in self.next.max(1)..u64::MAX {
            if !self.noted.contains(&t) {
                return Some(t);
            }
        }
        None
    }

    /// Notes a number that the journal has.
    pub fn note(&mut self, t: u64) -> Result<(), Memory>
        ensures { OnOk result (NotesNumber self.old self.new t) }
    {
        self.noted.insert(t)?;
        Ok(())
    }

    /// Gives this number, which is the least that is free. It takes no memory.
    pub fn give(&mut self, t: u64)
        requires { IsLeastFree self.old t }
        ensures { GivesNumber self.old self.new t }
    {
        self.next = t + 1;
    }
}
