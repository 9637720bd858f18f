//! The world, and what one who looks at it sees.
ghost use Rattle.std.specs.Prelude.{◌≡◌, ◌<◌, ◌^◌, IfErr, IfOk, length, map, true};
ghost use Rattle.std.specs.Option.{option_map};
ghost use Rattle.orc_decls.specs.Declarations.{AreDecls, accept_of};
ghost use Rattle.orc_scene.specs.Begins.{HasBegun, HasNotBegun};
ghost use Rattle.orc_scene.specs.Effects.{hub_in};
ghost use Rattle.orc_scene.specs.Stands.{HasDisk, is_somewhere};

use orc_declarations::Bundle;
use orc_disk::{Disk, StopDisk};
use orc_hub::Hub;
use orc_node::Link;
use orc_rules::Event;
use orc_scene::{Scene, WorldStop};
use std::alloc::Global;

/// The world of a run: its scene, on which each line of a script is done.
#[derive(Drop)]
pub struct World<D: Disk> {
    pub scene: Scene<D>,
}

impl<D: Disk> World<D> {
    /// The world of a bundle over a disk: each device runs its base, and the journal, whose length is
    /// limited so, is opened, or begun. A refusal hands the disk back.
    pub fn open(
        alloc: Global,
        bundle: Bundle,
        disk: D,
        limit: u64,
    ) -> Result<World<D>, (WorldStop, D)>
        requires decls { AreDecls bundle.decls }
        requires accepts { bundle.accepts ≡ map (accept_of bundle.decls.schemas) bundle.decls.devices }
        requires short { length bundle.decls.text < 2 ^ 32 }
        requires limit { limit < 2 ^ 32 }
        ensures begun { IfOk result (λ world. HasBegun D.disk bundle.decls disk limit world.scene) }
        ensures refused { IfErr result (λ refused. HasNotBegun D.disk bundle.decls disk limit refused.0 refused.1) }
    {
        match Scene::open(alloc, bundle, disk, limit) {
            Ok(scene) => Ok(World { scene }),
            Err(refused) => Err(refused),
        }
    }

    /// The hub, where one is up.
    pub fn hub(&self) -> Option<&Hub<StopDisk<D>>>
        ensures { option_map (λ hub. hub.now) result ≡ hub_in self.now.scene.place }
    {
        self.scene.hub()
    }

    /// The links to the devices, in the order of their numbers.
    pub fn links(&self) -> &[Link]
        ensures { result.now ≡ self.now.scene.links.links }
    {
        self.scene.links()
    }

    /// All events that came.
    pub fn events(&self) -> &[Event]
        ensures { result.now ≡ self.now.scene.events.items.items }
    {
        self.scene.events()
    }

    /// The disk of the journal.
    pub fn into_disk(self) -> D
        requires { is_somewhere self.scene.place ≡ true }
        ensures { HasDisk self.scene.place result }
    {
        self.scene.into_disk()
    }
}
