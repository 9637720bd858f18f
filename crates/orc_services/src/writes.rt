//! Items of configurations as writes on devices.
ghost use Rattle.std.specs.Prelude.{◌≡◌, ◌++◌, IfOk, OnOk, IsTrue};
ghost use Rattle.orc_services.specs.Expanded.{writes_of, writes_to};
ghost use Rattle.orc_services.specs.Fitting.{fits_writes};

use orc_call::DevicePut;
use orc_text::{Memory, Row, Text};
use orc_tree::Tree;
use std::alloc::Global;

// Adds the items of a configuration as writes on the device of a name.
fn push_writes(
    alloc: Global,
    writes: &mut Row<DevicePut>,
    name: &Text,
    tree: &Tree,
) -> Result<(), Memory>
    requires { IsTrue (fits_writes writes.old) }
    ensures writes { OnOk result (writes.new ≡ writes.old ++ writes_to name.now tree.now) }
    ensures fit { OnOk result (IsTrue (fits_writes writes.new)) }
{
    for row in tree.rows() {
        writes.push(DevicePut {
            device: name.copy(alloc)?,
            path: row.0.copy(alloc)?,
            item: row.1.copy(alloc)?,
        })?;
    }
    Ok(())
}

/// The items of the configurations of the devices of these names, as writes. Each item fits its path.
pub(crate) fn writes_of(
    alloc: Global,
    names: &[Text],
    trees: &[Tree],
) -> Result<Row<DevicePut>, Memory>
    ensures writes { IfOk result (λ writes. writes ≡ writes_of names.now trees.now) }
    ensures fit { IfOk result (λ writes. IsTrue (fits_writes writes)) }
{
    let mut writes = Row::new(alloc);
    let mut left = names;
    for tree in trees {
        match left {
            [name, later @ ..] => {
                push_writes(alloc, &mut writes, name, tree)?;
                left = later;
            }
            [] => {}
        }
    }
    Ok(writes)
}
