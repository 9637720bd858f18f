//! The snapshots of callers.
ghost use Rattle.std.specs.Prelude.{◌≡◌, [], is_some, not, OnErr, OnOk, filter, slice_get};
ghost use Rattle.std.specs.List.{find};
ghost use Rattle.std.specs.Option.{option_map};
ghost use Rattle.orc_scene.specs.Snapshots.{fronts_of, is_taken_by, taken_by_others, taken_with};

use orc_datastore::Snapshot;
use orc_text::{Memory, Row, Text};
use std::alloc::Global;
use std::mem;

/// A snapshot of a caller.
#[derive(Drop)]
pub struct Taken {
    pub caller: Text,
    pub snapshot: Snapshot,
}

/// The snapshots that callers have, one of each caller at most.
#[derive(Drop)]
pub struct Snapshots {
    pub taken: Row<Taken>,
}

// Whether the snapshot is this caller's.
fn is_taken_by(caller: &Text, one: &Taken) -> bool
    ensures { result ≡ is_taken_by caller.now one.now }
{
    *caller == one.caller
}

// Drops the snapshot of a caller.
fn drop_taken(taken: &mut Vec<Taken>, caller: &Text)
    ensures { taken.new.items ≡ taken_by_others caller.now taken.old.items }
{
    taken.retain(|one| !is_taken_by(caller, one));
}

impl Snapshots {
    /// None.
    pub fn new(alloc: Global) -> Snapshots
        ensures { result.taken ≡ [] }
    {
        Snapshots {
            taken: Row::new(alloc),
        }
    }

    /// The snapshot of a caller, if it has one.
    pub fn of(&self, caller: &Text) -> Option<&Taken>
        ensures { option_map (λ one. one.now) result ≡ find (is_taken_by caller.now) self.now.taken }
    {
        self.taken
            .as_slice()
            .iter()
            .find(|one| is_taken_by(caller, one))
    }

    /// Drops the snapshot of a caller, if it has one.
    pub fn drop_of(&mut self, alloc: Global, caller: &Text)
        ensures { self.new.taken ≡ taken_by_others caller.now self.old.taken }
    {
        let mut items = mem::replace(&mut self.taken, Row::new(alloc)).into_vec();
        drop_taken(&mut items, caller);
        self.taken = Row::from_vec(items);
    }

    /// Puts a snapshot of a caller in the place of the one that it has, if it has one. Where memory runs out the caller
    /// has none any more.
    pub fn put(&mut self, alloc: Global, caller: Text, snapshot: Snapshot) -> Result<(), Memory>
        ensures ok { OnOk result (self.new.taken ≡ taken_with caller snapshot self.old.taken) }
        ensures err { OnErr result (self.new.taken ≡ taken_by_others caller self.old.taken) }
    {
        self.drop_of(alloc, &caller);
        self.taken.push(Taken { caller, snapshot })
    }

    /// No caller has one any more.
    pub fn clear(&mut self, alloc: Global)
        ensures { self.new.taken ≡ [] }
    {
        self.taken = Row::new(alloc);
    }
}
