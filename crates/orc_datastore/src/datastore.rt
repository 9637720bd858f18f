//! The state of the orchestrator, and what a call does to it.
ghost use Rattle.std.specs.Prelude.{◌≡◌, ◌≢◌, ◌<◌, ◌^◌, [], IfOk, IsTrue, Ok, None, All, length, map};
ghost use Rattle.orc_check.specs.Validity.{broken_of};
ghost use Rattle.orc_revalidate.specs.Changes.{DiffersInside};
ghost use Rattle.orc_services.specs.Fitting.{FitActions};
ghost use Rattle.orc_datastore.specs.States.{IsComplete, opening, tree_due};
ghost use Rattle.orc_decls.specs.Openings.{declared_base, fits_puts};
ghost use Rattle.orc_datastore.specs.Actions.{data_after, name_each_once};
ghost use Rattle.orc_decls.specs.Declarations.{AreDecls};
ghost use Rattle.orc_datastore.specs.Metas.{IsMeta};
ghost use Rattle.orc_datastore.specs.Plans.{call_targets};
ghost use Rattle.orc_datastore.specs.Next.{IsDataAfter, IsStateOf, clash};
ghost use Rattle.orc_datastore.specs.Snapshots.{IsSnapshotOf};
ghost use Rattle.orc_datastore.specs.inside.Behind.{changed_by};
ghost use Rattle.orc_datastore.specs.inside.Keeping.{IsStoreFor};
ghost use Rattle.orc_datastore.specs.inside.Sights.{service_key};

use crate::Snapshot;
use crate::data::data_behind;
use crate::known::known_behind;
use crate::living::Living;
use crate::stores::{place, stores_behind};
use crate::touched::touched_among;
use crate::turns::{comers, turn_ids, turns};
use orc_call::{Action, Answer, Call};
use orc_decls::{Decls, Device, declared_base, opening_data};
use orc_path::Path;
use orc_refs::{Meta, Refs, store_is_overlay};
use orc_text::{Memory, Row, Text};
use orc_tree::Tree;
use std::alloc::Global;
use std::marker::Model;
use std::mem;

/// The data; the store of each device, which has its base and its tree; and the living services, once
/// with what they write and once as a snapshot knows them.
pub struct Datastore {
    pub(crate) data: Tree,
    pub(crate) stores: Row<Refs>,
    pub(crate) live: Living,
    // What lives on which devices, as `live` says too, in pages that a snapshot shares.
    pub(crate) known: Tree,
}

// Written out, so that a crate above lets it go by one call, and proves nothing of stores and services.
impl Drop for Datastore {
    fn drop(self) {
        let Datastore {
            data: _,
            stores: _,
            live: _,
            known: _,
        } = self;
    }
}

impl Model for Datastore {
    ghost use Rattle.std.specs.Prelude.{map};
    ghost use Rattle.orc_datastore.specs.Codes.{datastore_code};
    ghost use Rattle.orc_datastore.specs.Snapshots.{KnowsLiving};
    ghost use Rattle.orc_datastore.specs.States.{Datastore};
    ghost use Rattle.orc_datastore.specs.inside.Keeping.{AreKept};

    ghost Value = { Datastore };

    ghost coded = { datastore_code };

    ghost view = { λ state. record {
      «data» = state.data;
      bases = map (λ store. store.base) state.stores;
      live = state.live;
    } };

    ghost invariant = { λ state. AreKept state.stores state.live × KnowsLiving state.live state.known };
}

impl Datastore {
    /// The data.
    pub fn data(&self) -> &Tree
        ensures { result.now ≡ self.now.data }
    {
        &self.data
    }

    /// The declared data and bases, and no service.
    pub fn open(alloc: Global, decls: &Decls) -> Result<Datastore, Memory>
        requires { AreDecls decls.now }
        ensures opening { IfOk result (λ state. state ≡ opening decls.now) }
        ensures kept { IfOk result (IsStateOf decls.now) }
    {
        let data = opening_data(alloc, decls.names(), decls.data())?;
        let stores = idle_stores(alloc, decls.devices())?;
        Ok(Datastore {
            data,
            stores,
            live: Living::new(alloc),
            known: Tree::new(alloc),
        })
    }

    /// The tree that is due on a device: its base overlaid with the items that living services write.
    /// It is kept, and nothing is laid anew.
    pub fn tree_due(&self, device: u32) -> &Tree
        requires { device < length self.now.bases }
        ensures { result.now ≡ tree_due self.now device }
    {
        store_is_overlay();
        self.live.names_differ();
        self.stores.as_slice()[device as usize].tree()
    }

    /// What is known of a path of a device; none exactly where no living service writes it. It takes
    /// no memory.
    pub fn meta(&self, device: u32, path: &Path) -> Option<Meta<'_>>
        requires { device < length self.now.bases }
        ensures { IsMeta self.now device path.now result }
    {
        self.live.names_differ();
        self.stores.as_slice()[device as usize].meta(path)
    }

    /// A snapshot of the state, with the number that the caller gives of the calls committed by then.
    /// It shares the pages of the data and of what lives, and costs the same however many there are.
    pub fn snapshot(&self, alloc: Global, front: u64) -> Result<Snapshot, Memory>
        ensures front { IfOk result (λ snapshot. snapshot.front ≡ front) }
        ensures state { IfOk result (IsSnapshotOf self.now) }
    {
        Ok(Snapshot {
            front,
            data: self.data.copy(alloc)?,
            known: self.known.copy(alloc)?,
        })
    }

    // The data after a call, or why it is refused before services are looked at.
    pub(crate) fn data_behind(
        &self,
        alloc: Global,
        decls: &Decls,
        call: &Call,
    ) -> Result<Result<Tree, Answer>, Memory>
        requires fit { FitActions call.now.actions }
        requires keys { All (λ action. IsTrue (service_key action)) call.now.actions }
        requires valid { broken_of decls.now.data_schema self.now.data ≡ None }
        requires changed { DiffersInside (call_targets call.now.actions) self.now.data
            (data_after call.now.actions self.now.data) }
        ensures { IfOk result (IsDataAfter decls.now self.now call.now) }
    {
        let actions = call.actions.as_slice();
        data_behind(alloc, decls.data_schema(), &self.known, &self.data, actions)
    }

    // Changes the stores and the living services by expanded actions and takes the new data, or answers
    // with which service a new one clashes.
    pub(crate) fn change(
        &mut self,
        alloc: Global,
        decls: &Decls,
        actions: &[Action],
        next_data: Tree,
    ) -> Result<Option<Answer>, Memory>
        requires fit { FitActions actions.now }
        requires once { IsTrue (name_each_once actions.now) }
        requires keys { All (λ action. IsTrue (service_key action)) actions.now }
        requires few { length decls.now.names < 2 ^ 32 }
        requires bases { length self.old.bases ≡ length decls.now.names }
        requires complete { IsComplete self.old }
        ensures clash { IfOk result (λ refused. refused ≡ clash decls.now.names self.old.live actions.now) }
        ensures done { result ≡ Ok None
            → self.new ≡ changed_by decls.now.names actions.now next_data self.old }
        ensures refused { result ≢ Ok None → self.new ≡ self.old }
    {
        let turns = turns(alloc, decls, actions)?;
        let touched = touched_among(alloc, decls, self, actions)?;
        self.live.names_differ();
        let found = stores_behind(
            alloc,
            decls,
            &self.live,
            actions,
            turns.as_slice(),
            touched.as_slice(),
            self.stores.as_slice(),
        )?;
        match found {
            Ok(changes) => {
                let ids = turn_ids(alloc, turns.as_slice())?;
                let services = comers(alloc, turns)?;
                let known = known_behind(alloc, &self.known, ids.as_slice(), services.as_slice())?;
                self.live.exchange(alloc, ids.as_slice(), services)?;
                let stores = mem::replace(&mut self.stores, Row::new(alloc)).into_vec();
                self.stores = Row::from_vec(place(stores, changes.into_vec()));
                self.data = next_data;
                self.known = known;
                Ok(None)
            }
            Err(answer) => Ok(Some(answer)),
        }
    }
}

// The store of a device on which no service writes.
fn idle_store(alloc: Global, device: &Device) -> Result<Refs, Memory>
    requires { IsTrue (fits_puts device.now.base) }
    ensures base { IfOk result (λ store. store.base ≡ declared_base device.now) }
    ensures idle { IfOk result (IsStoreFor [] 0) }
{
    let base = declared_base(alloc, device)?;
    let store = Refs::new(alloc, base)?;
    // Looked at, so that the proof knows that it is a store.
    let _base = store.base();
    Ok(store)
}

// The stores of devices on which no service writes.
fn idle_stores(alloc: Global, devices: &[Device]) -> Result<Row<Refs>, Memory>
    requires { All (λ device. IsTrue (fits_puts device.base)) devices.now }
    ensures bases { IfOk result (λ stores. map (λ store. store.base) stores ≡ map declared_base devices.now) }
    ensures idle { IfOk result (All (IsStoreFor [] 0)) }
{
    let mut stores = Row::new(alloc);
    for device in devices {
        stores.push(idle_store(alloc, device)?)?;
    }
    Ok(stores)
}
