//! Configurations: the trees of devices, and the data.
ghost use Rattle.std.specs.Prelude.{◌≡◌, IfOk};
ghost use Rattle.orc_print.specs.inside.Adding.{Adds};
ghost use Rattle.orc_print.specs.Printed.{data_text, item_lines, json_line, tree_text};

use orc_path::push_item;
use orc_text::{Memory, Text};
use orc_tree::Tree;
use std::alloc::Global;

/// The group `show` of a device: its name, the items of its tree in path order, and an end line.
pub fn show(alloc: Global, name: &Text, tree: &Tree) -> Result<Vec<u8>, Memory>
    ensures { IfOk result (λ bytes. bytes.items ≡ tree_text name.now tree.now) }
{
    let mut out = String::from_str(alloc, "show ")?;
    out.push_str(name.as_str())?;
    out.push_str("\n")?;
    push_rows(&mut out, alloc, tree)?;
    out.push_str("end\n")?;
    Ok(out.into_bytes())
}

/// The group `data`: the items of the data in path order, and an end line.
pub fn show_data(alloc: Global, tree: &Tree) -> Result<Vec<u8>, Memory>
    ensures { IfOk result (λ bytes. bytes.items ≡ data_text tree.now) }
{
    let mut out = String::from_str(alloc, "data\n")?;
    push_rows(&mut out, alloc, tree)?;
    out.push_str("end\n")?;
    Ok(out.into_bytes())
}

/// The line `json` of a device: its name and the JSON text of its tree (RFC 7951), as `orc_json::write`
/// gives it.
pub fn json(alloc: Global, name: &Text, text: &[u8]) -> Result<Vec<u8>, Memory>
    ensures { IfOk result (λ bytes. bytes.items ≡ json_line name.now text.now) }
{
    let mut out = String::from_str(alloc, "json ")?.into_bytes();
    out.extend_from_slice(name.as_str().as_bytes())?;
    out.extend_from_slice(b" ")?;
    out.extend_from_slice(text)?;
    out.extend_from_slice(b"\n")?;
    Ok(out)
}

// The lines of all items of a configuration, in path order.
fn push_rows(out: &mut String, alloc: Global, tree: &Tree) -> Result<(), Memory>
    ensures { Adds result out.old out.new (item_lines tree.now) }
{
    for row in tree.rows() {
        push_item(out, alloc, &row.0, &row.1)?;
        out.push_str("\n")?;
    }
    Ok(())
}
