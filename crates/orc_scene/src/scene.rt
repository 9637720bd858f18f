//! The scene, and what one who looks at it sees.
ghost use Rattle.std.specs.Prelude.{◌≡◌, true, is_some, MatchOption, Some};
ghost use Rattle.std.specs.Option.{option_map};
ghost use Rattle.orc_scene.specs.Effects.{hub_in};
ghost use Rattle.orc_scene.specs.inside.Effects.{IsClosed, place_without};
ghost use Rattle.orc_scene.specs.Stands.{HasDisk, decls_in, is_somewhere};
ghost use Rattle.orc_scene.specs.declared.scene.Place.TheVariants.{Down};

use crate::events::Events;
use crate::snapshots::Snapshots;
use orc_decls::Decls;
use orc_disk::{Disk, StopDisk};
use orc_hub::Hub;
use orc_links::Links;
use orc_node::Link;
use orc_rules::Event;
use orc_text::Text;
use std::alloc::Global;

/// Where the journal's disk is.
pub enum Place<D: Disk> {
    /// A hub is up over it.
    Up(Hub<StopDisk<D>>),
    /// No hub is up.
    Down(D, Decls),
    /// The run ended, since the journal could not be opened again.
    Ended(D),
    /// Nowhere: so it is inside a call alone.
    Moved,
}

// Written out, so that a hub is let go by its own crate.
impl<D: Disk> Drop for Place<D> {
    fn drop(self) {
        match self {
            Place::Up(hub) => {
                let (disk, decls) = hub.into_parts();
                drop(disk);
                drop(decls);
            }
            Place::Down(disk, decls) => {
                drop(disk);
                drop(decls);
            }
            Place::Ended(disk) => drop(disk),
            Place::Moved => {}
        }
    }
}

impl<D: Disk> Place<D> {
    // The disk of the journal, which is there.
    fn into_disk(self) -> D
        requires { is_somewhere self ≡ true }
        ensures { HasDisk self result }
    {
        match self {
            Place::Up(hub) => hub.into_parts().0.into_inner(),
            Place::Down(disk, decls) => disk_of(disk, decls),
            Place::Ended(disk) => disk,
            Place::Moved => unreachable!(),
        }
    }

    // The place without its hub.
    pub(crate) fn without_hub(self) -> Place<D>
        ensures { result ≡ place_without self }
    {
        match self {
            Place::Up(hub) => place_of(hub),
            Place::Down(disk, decls) => Place::Down(disk, decls),
            Place::Ended(disk) => Place::Ended(disk),
            Place::Moved => Place::Moved,
        }
    }

    // The disk and the declarations, where no hub is up, and the run goes on.
    pub(crate) fn into_closed(self) -> (D, Decls)
        requires { IsClosed self }
        ensures { self ≡ Down result.0 result.1 }
    {
        match self {
            Place::Down(disk, decls) => (disk, decls),
            other => never_closed(other),
        }
    }
}

// The disk, without the declarations, which are let go.
fn disk_of<D>(disk: D, _decls: Decls) -> D
    ensures { result ≡ disk }
{
    disk
}

// A place that isn't there. Nothing is let go here, nor where this stands for what can't come.
fn never_closed<D: Disk>(_place: Place<D>) -> (D, Decls)
    requires { ⊥ }
{
    unreachable!()
}

// The place of a hub that is let go: its disk, without the one that stops it, and the declarations.
fn place_of<D: Disk>(hub: Hub<StopDisk<D>>) -> Place<D>
    ensures { result ≡ Down hub.log.journal.disk.inner hub.decls }
{
    let (disk, decls) = hub.into_parts();
    Place::Down(disk.into_inner(), decls)
}

/// The scene of a run: the hub over its journal, the devices with the links to them, and the events that came.
#[derive(Drop)]
pub struct Scene<D: Disk> {
    pub alloc: Global,
    /// The most bytes of the journal.
    pub limit: u64,
    pub place: Place<D>,
    pub links: Links,
    pub snapshots: Snapshots,
    pub events: Events,
}

impl<D: Disk> Scene<D> {
    /// The hub, where one is up.
    pub fn hub(&self) -> Option<&Hub<StopDisk<D>>>
        ensures { option_map (λ hub. hub.now) result ≡ hub_in self.now.place }
    {
        match &self.place {
            Place::Up(hub) => Some(hub),
            _ => None,
        }
    }

    /// The links to the devices, in the order of their numbers.
    pub fn links(&self) -> &[Link]
        ensures { result.now ≡ self.now.links.links }
    {
        self.links.as_slice()
    }

    /// All events that came.
    pub fn events(&self) -> &[Event]
        ensures { result.now ≡ self.now.events.items.items }
    {
        self.events.as_slice()
    }

    /// The disk of the journal.
    pub fn into_disk(self) -> D
        requires { is_somewhere self.place ≡ true }
        ensures { HasDisk self.place result }
    {
        let Scene { place, .. } = self;
        place.into_disk()
    }

    /// The declarations.
    pub fn decls(&self) -> &Decls
        requires { is_some (decls_in self.now.place) ≡ true }
        ensures { decls_in self.now.place ≡ Some result.now }
    {
        match &self.place {
            Place::Up(hub) => hub.decls(),
            Place::Down(_, decls) => decls,
            Place::Ended(_) => unreachable!(),
            Place::Moved => unreachable!(),
        }
    }

    /// The names of the devices.
    pub fn names(&self) -> &[Text]
        requires { is_some (decls_in self.now.place) ≡ true }
        ensures { MatchOption (decls_in self.now.place) ⊥ (λ decls. result.now ≡ decls.names) }
    {
        self.decls().names()
    }
}
