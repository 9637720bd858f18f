//! What is printed as a run begins.
ghost use Rattle.std.specs.Prelude.{IfOk};
ghost use Rattle.orc_run.specs.inside.Scripts.{Greets};

use orc_disk::Disk;
use orc_print::recovered;
use orc_text::Memory;
use orc_world::World;
use std::alloc::Global;

/// The most bytes that a journal may have.
pub const LARGEST_JOURNAL: u64 = 268_435_456;

/// What is printed as a run begins: where the disk was not empty, how many calls were recovered.
pub(crate) fn greeting<D: Disk>(alloc: Global, world: &World<D>) -> Result<Vec<u8>, Memory>
    ensures { IfOk result (λ text. Greets world.now.scene.place text.items) }
{
    match world.hub() {
        Some(hub) => {
            if hub.log.journal.fresh() {
                return Ok(Vec::new(alloc));
            }
            recovered(alloc, hub.state().history().len() as u64)
        }
        None => Ok(Vec::new(alloc)),
    }
}
