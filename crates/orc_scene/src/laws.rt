//! How runs are carried on. The function does nothing: its contract is the law.
ghost use Rattle.orc_scene.specs.Laws.{SceneIsCarried};

use orc_disk::Disk;
use orc_rules::devices_are_as_declared;
use orc_runs::runs_are_carried;

/// A run of devices as they are declared is carried on.
pub fn scene_is_carried<D: Disk>()
    ensures { SceneIsCarried D.disk }
{
    runs_are_carried::<D>();
    devices_are_as_declared();
}
