//! The order rules of a journal, kept entry by entry.
ghost use Rattle.std.specs.Prelude.{◌≡◌, ◌++◌, ◌∷◌, [], List, IfOk, IsTrue};
ghost use Rattle.orc_journal.specs.declared.entry.Entry.{Entry};
ghost use Rattle.orc_journal.specs.Orders.{next_stage, follows};
ghost use Rattle.orc_journal.specs.inside.Stages.{AreStages};

use crate::Entry;
use crate::stage::Stage;
use orc_text::Memory;
use std::alloc::Global;
use std::collections::BTreeMap;

/// The stage of each transaction that has its intent.
#[derive(Drop)]
pub(crate) struct Stages {
    by_number: BTreeMap<u64, Stage>,
}

// The stage of a transaction after an entry that names it, where the entry may follow.
fn next_stage(before: Option<Stage>, entry: &Entry) -> Option<Stage>
    ensures { result ≡ next_stage before entry.now }
{
    match (before, entry) {
        (None, Entry::Intent { .. }) => Some(Stage::Open),
        (Some(Stage::Open), Entry::Decide { .. }) => Some(Stage::Decided),
        (Some(Stage::Open), Entry::Abort { .. }) => Some(Stage::Aborted),
        (Some(Stage::Open), Entry::Settled { .. }) => Some(Stage::Done),
        (Some(Stage::Decided), Entry::Settled { .. }) => Some(Stage::Done),
        (Some(Stage::Aborted), Entry::Settled { .. }) => Some(Stage::Done),
        _ => None,
    }
}

impl Stages {
    /// The stages where there is no entry yet.
    pub(crate) fn new(alloc: Global) -> Stages
        ensures { AreStages result [] }
    {
        Stages {
            by_number: BTreeMap::new(alloc),
        }
    }

    /// Whether the entry may stand after those so far. If it may, it is one of them from now on.
    pub(crate) fn take(&mut self, entry: &Entry) -> Result<bool, Memory>
        ensures fits { (before : List Entry) → AreStages self.old before
            → IfOk result (λ fits. fits ≡ follows before entry.now) }
        ensures counted { (before : List Entry) → AreStages self.old before
            → IfOk result (λ fits. IsTrue fits → AreStages self.new (before ++ entry.now ∷ [])) }
    {
        let t = entry.number();
        match next_stage(self.by_number.get(&t).copied(), entry) {
            Some(stage) => {
                self.by_number.insert(t, stage)?;
                Ok(true)
            }
            None => Ok(false),
        }
    }
}
