//! How a scene begins.
ghost use Rattle.std.specs.Prelude.{◌≡◌, ◌<◌, ◌^◌, IfErr, IfOk, length, map};
ghost use Rattle.orc_decls.specs.Declarations.{AreDecls, accept_of};
ghost use Rattle.orc_scene.specs.Begins.{HasBegun, HasNotBegun};
ghost use Rattle.orc_scene.specs.inside.Openings.{IsPlacedOver};
ghost use Rattle.orc_scene.specs.Openings.{IsUnstarted};

use crate::events::Events;
use crate::laws::scene_is_carried;
use crate::scene::{Place, Scene};
use crate::snapshots::Snapshots;
use crate::starting::start;
use crate::stop::WorldStop;
use orc_declarations::Bundle;
use orc_decls::Decls;
use orc_disk::Disk;
use orc_links::Links;
use orc_rules::devices_are_as_declared;
use orc_text::Memory;
use std::alloc::Global;

impl<D: Disk> Scene<D> {
    /// The scene of a bundle over a disk: each device runs its base, and the journal, whose length is
    /// limited so, is opened, or begun. A refusal hands the disk back.
    pub fn open(
        alloc: Global,
        bundle: Bundle,
        disk: D,
        limit: u64,
    ) -> Result<Scene<D>, (WorldStop, D)>
        requires decls { AreDecls bundle.decls }
        requires accepts { bundle.accepts ≡ map (accept_of bundle.decls.schemas) bundle.decls.devices }
        requires short { length bundle.decls.text < 2 ^ 32 }
        requires limit { limit < 2 ^ 32 }
        ensures begun { IfOk result (HasBegun D.disk bundle.decls disk limit) }
        ensures refused { IfErr result (λ refused. HasNotBegun D.disk bundle.decls disk limit refused.0 refused.1) }
    {
        scene_is_carried::<D>();
        devices_are_as_declared();
        let Bundle { decls, accepts, .. } = bundle;
        match Links::open(alloc, &decls, accepts.into_vec()) {
            Err(Memory) => Err((WorldStop::Memory, disk)),
            Ok(links) => match Scene::over(alloc, decls, links, disk, limit) {
                Ok(world) => Ok(world),
                Err(refused) => Err(refused),
            },
        }
    }

    // The scene of these links.
    fn over(
        alloc: Global,
        decls: Decls,
        links: Links,
        disk: D,
        limit: u64,
    ) -> Result<Scene<D>, (WorldStop, D)>
        requires decls { AreDecls decls }
        requires short { length decls.text < 2 ^ 32 }
        requires limit { limit < 2 ^ 32 }
        ensures begun { IfOk result (λ world. IsPlacedOver D.disk decls disk limit links world) }
        ensures refused { IfErr result (λ refused. IsUnstarted D.disk decls disk limit refused.0 refused.1) }
    {
        match start(alloc, decls, disk, limit) {
            Err(refused) => Err(refused),
            Ok(hub) => Ok(Scene {
                alloc,
                limit,
                place: Place::Up(hub),
                links,
                snapshots: Snapshots::new(alloc),
                events: Events::new(alloc),
            }),
        }
    }
}
