//! What is known of a path of a device: which services write it, and what the base has there.
ghost use Rattle.std.specs.Prelude.{◌≡◌, ◌++◌, codes, IfOk};
ghost use Rattle.std.specs.Fmt.{decimal};
ghost use Rattle.std.specs.List.{flat_map};
ghost use Rattle.std.specs.Option.{option_copied};
ghost use Rattle.orc_print.specs.inside.Adding.{Adds};
ghost use Rattle.orc_print.specs.Printed.{back_line, known_lines, meta_group, original_line, original_lines};

use orc_path::{Item, Path, push_value};
use orc_refs::Meta;
use orc_text::{Memory, Text};
use std::alloc::Global;

/// The group `meta` of a path of a device: the device's name, the path and how many services write
/// it, the name of each of them, what the base has there, and an end line. Of a path that no service
/// writes there is none of it but that they are 0, and the end line.
pub fn meta(
    alloc: Global,
    name: &Text,
    path: &Path,
    meta: Option<&Meta<'_>>,
) -> Result<Vec<u8>, Memory>
    ensures { IfOk result (λ bytes. bytes.items ≡ meta_group name.now path.now (option_copied meta.entry)) }
{
    let mut out = String::from_str(alloc, "meta ")?;
    out.push_str(name.as_str())?;
    out.push_str(" ")?;
    out.push_str(path.text(alloc)?.as_str())?;
    out.push_str(" ")?;
    push_known(&mut out, alloc, meta)?;
    out.push_str("end\n")?;
    Ok(out.into_bytes())
}

// What is known of the path, after its text.
fn push_known(out: &mut String, alloc: Global, meta: Option<&Meta<'_>>) -> Result<(), Memory>
    ensures { Adds result out.old out.new (known_lines (option_copied meta.entry)) }
{
    match meta {
        Some(meta) => push_meta(out, alloc, meta),
        None => {
            out.push_str("0\n")?;
            Ok(())
        }
    }
}

// How many services write the path, which ones, and what the base has there.
fn push_meta(out: &mut String, alloc: Global, meta: &Meta<'_>) -> Result<(), Memory>
    ensures { Adds result out.old out.new (decimal meta.now.count ++ codes "\n"
        ++ flat_map back_line meta.now.back.now ++ original_lines (option_copied meta.now.original)) }
{
    out.push_str(meta.count.to_string(alloc)?.as_str())?;
    out.push_str("\n")?;
    push_backs(out, meta.back)?;
    push_original(out, meta.original)
}

// The lines of services.
fn push_backs(out: &mut String, ids: &[Text]) -> Result<(), Memory>
    ensures { Adds result out.old out.new (flat_map back_line ids.now) }
{
    for id in ids {
        out.push_str("back ")?;
        out.push_str(id.as_str())?;
        out.push_str("\n")?;
    }
    Ok(())
}

// The line of what the base has there, where it has something.
fn push_original(out: &mut String, original: Option<&Item>) -> Result<(), Memory>
    ensures { Adds result out.old out.new (original_lines (option_copied original.entry)) }
{
    match original {
        None => Ok(()),
        Some(item) => push_original_item(out, item),
    }
}

// The line of an item of the base.
fn push_original_item(out: &mut String, item: &Item) -> Result<(), Memory>
    ensures { Adds result out.old out.new (original_line item.now) }
{
    match item {
        Item::Entry => out.push_str("original\n")?,
        Item::Leaf(text) => {
            out.push_str("original = ")?;
            push_value(out, text.as_str())?;
            out.push_str("\n")?;
        }
    }
    Ok(())
}
