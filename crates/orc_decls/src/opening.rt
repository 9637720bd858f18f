//! The data as a bundle declares it.
ghost use Rattle.std.specs.Prelude.{◌≡◌, All, IfOk, IsTrue};
ghost use Rattle.orc_decls.specs.Calls.{is_lawful_name};
ghost use Rattle.orc_decls.specs.Devices.{device_entry};
ghost use Rattle.orc_decls.specs.Openings.{fits_puts, opening_data};

use crate::base::tree_of;
use crate::steps::{path_of_step, step_of};
use orc_call::Put;
use orc_path::{Item, Path};
use orc_text::{Memory, Text};
use orc_tree::Tree;
use std::alloc::Global;

// The entry of the device of a name.
fn device_entry(alloc: Global, name: &Text) -> Result<Path, Memory>
    requires { IsTrue (is_lawful_name name.now) }
    ensures { IfOk result (λ path. path ≡ device_entry name.now) }
{
    let step = step_of(alloc, "orc:device", name.copy(alloc)?)?;
    path_of_step(alloc, step)
}

/// The data at the opening: these items, and an entry `/orc:device[D]` for each of the devices of
/// these names.
pub fn opening_data(alloc: Global, names: &[Text], puts: &[Put]) -> Result<Tree, Memory>
    requires names { All (λ name. IsTrue (is_lawful_name name)) names.now }
    requires fit { IsTrue (fits_puts puts.now) }
    ensures { IfOk result (λ tree. tree ≡ opening_data names.now puts.now) }
{
    let mut tree = tree_of(alloc, puts)?;
    for name in names {
        tree.set(device_entry(alloc, name)?, Item::Entry)?;
    }
    Ok(tree)
}
