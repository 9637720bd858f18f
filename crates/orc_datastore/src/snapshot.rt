//! A snapshot of the state, on which calls are planned while other ones are committed.
ghost use Rattle.std.specs.Prelude.{◌≡◌, ◌<◌, ◌^◌, All, IfOk, IsTrue, None, length};
ghost use Rattle.orc_check.specs.Validity.{broken_of};
ghost use Rattle.orc_revalidate.specs.Changes.{DiffersInside};
ghost use Rattle.orc_services.specs.Fitting.{FitActions};
ghost use Rattle.orc_datastore.specs.Actions.{data_after};
ghost use Rattle.orc_decls.specs.Calls.{is_call};
ghost use Rattle.orc_decls.specs.Declarations.{AreDecls};
ghost use Rattle.orc_datastore.specs.Next.{IsStateOf};
ghost use Rattle.orc_datastore.specs.Plans.{call_targets, planned};
ghost use Rattle.orc_datastore.specs.Snapshots.{IsSnapshotOf, IsSnapshotUnder};
ghost use Rattle.orc_datastore.specs.States.{Datastore};
ghost use Rattle.orc_datastore.specs.inside.Sights.{planned_sight, service_key};

use crate::data::data_behind;
use crate::laws::literal_is_expansion;
use crate::plan::{Plan, planned_known};
use orc_call::{Answer, Call};
use orc_decls::Decls;
use orc_text::Memory;
use orc_tree::Tree;
use std::alloc::Global;
use std::marker::Model;

/// The front, the data, and what lives on which devices. Its trees share their pages with the state's
/// until that changes them.
pub struct Snapshot {
    pub(crate) front: u64,
    pub(crate) data: Tree,
    pub(crate) known: Tree,
}

// Written out, so that a crate above lets a snapshot go by one call.
impl Drop for Snapshot {
    fn drop(self) {
        let Snapshot {
            front: _,
            data: _,
            known: _,
        } = self;
    }
}

impl Model for Snapshot {
    ghost use Rattle.orc_datastore.specs.Codes.{snapshot_code};
    ghost use Rattle.orc_datastore.specs.Snapshots.{Snapshot};

    ghost Value = { Snapshot };

    ghost coded = { snapshot_code };

    ghost view = { λ snapshot. record {
      front = snapshot.front;
      «data» = snapshot.data;
      known = snapshot.known;
    } };
}

impl Snapshot {
    /// The number of committed calls that was given when it was taken.
    pub fn front(&self) -> u64
        ensures { result ≡ self.now.front }
    {
        self.front
    }

    /// The plan of a call on the state that the snapshot is of, or why there is none: the first action
    /// at fault, else what is broken in the data after all of them, else the first service that can't
    /// be expanded. It asks that the snapshot is one of a state of these declarations, and looks at
    /// nothing else than the snapshot.
    pub fn plan(
        &self,
        alloc: Global,
        decls: &Decls,
        call: &Call,
    ) -> Result<Result<Plan, Answer>, Memory>
        requires decls { AreDecls decls.now }
        requires call { IsTrue (is_call decls.now call.now) }
        requires state { IsSnapshotUnder decls.now self.now }
        ensures { (state : Datastore) → IsStateOf decls.now state → IsSnapshotOf state self.now
            → IfOk result (λ found. found ≡ planned decls.now state self.now.front call.now) }
    {
        literal_is_expansion();
        self.plan_known(alloc, decls, call)
    }

    // The plan of a call by what the snapshot knows of the living services, or why there is none.
    fn plan_known(
        &self,
        alloc: Global,
        decls: &Decls,
        call: &Call,
    ) -> Result<Result<Plan, Answer>, Memory>
        requires fit { FitActions call.now.actions }
        requires keys { All (λ action. IsTrue (service_key action)) call.now.actions }
        requires few { length decls.now.names < 2 ^ 32 }
        requires valid { broken_of decls.now.data_schema self.now.data ≡ None }
        requires changed { DiffersInside (call_targets call.now.actions) self.now.data
            (data_after call.now.actions self.now.data) }
        ensures { IfOk result (λ found. found ≡ planned_sight decls.now self.now call.now) }
    {
        let actions = call.actions.as_slice();
        match data_behind(alloc, decls.data_schema(), &self.known, &self.data, actions)? {
            Ok(data) => planned_known(alloc, decls, &self.known, self.front, actions, data),
            Err(found) => Ok(Err(found)),
        }
    }
}
