//! How many lines or cases of a file hold.
ghost use Rattle.std.specs.Prelude.{◌≡◌, ◌+◌, ◌-◌, ◌^◌, ◌&&◌, true, min, if◌then◌else◌, IfOk};

use std::io;

/// How many hold so far, and whether all do.
#[derive(Clone, Copy)]
pub(crate) struct Score {
    pub(crate) count: u64,
    pub(crate) good: bool,
}

impl Score {
    /// None was looked at.
    pub(crate) fn new() -> Score
        ensures count { result.count ≡ 0 }
        ensures good { result.good ≡ true }
    {
        Score {
            count: 0,
            good: true,
        }
    }

    /// Takes in whether one holds. The count stays at 2^64 - 1.
    pub(crate) fn take(&mut self, holds: bool)
        ensures count { self.new.count ≡ (if holds then min (self.old.count + 1) (2 ^ 64 - 1) else self.old.count) }
        ensures good { self.new.good ≡ (self.old.good && holds) }
    {
        if holds {
            self.count = self.count.saturating_add(1);
        } else {
            self.good = false;
        }
    }

    /// Prints `NAME: COUNT KIND hold`, and says whether all do.
    pub(crate) fn told<R: Print>(&self, rt: &R, name: &str, kind: &str) -> io::Result<bool>
        ensures { IfOk result (λ good. good ≡ self.now.good) }
    {
        println!(rt; "{name}: {} {kind} hold", self.count)?;
        Ok(self.good)
    }
}
