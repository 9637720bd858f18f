//! Whether a call has an encoding.
ghost use Rattle.std.specs.Prelude.{◌↔◌, IsTrue};
ghost use Rattle.std.specs.declared.option.Option.TheVariants.{None};
ghost use Rattle.std.specs.List.{flat_map};
ghost use Rattle.std.specs.Option.{option_copied};
ghost use Rattle.orc_path.specs.Steps.{is_path};
ghost use Rattle.orc_path.specs.Texts.{path_text};
ghost use Rattle.orc_call.specs.Fields.{IsText, IsPathAfter, IsLawful, AreLawful, a_count_of_actions, an_item};
ghost use Rattle.orc_call.specs.Encoding.{IsCall, put_fields, puts_fields, device_put_fields, body_fields, literal_fields, content_fields, action_fields};

use crate::fields::follows;
use crate::parts::last_path;
use crate::{Action, Call, DevicePut, MOST_ACTIONS, Put};
use orc_path::{Item, Path};
use orc_text::Text;

// The longest list that fits its count, and the longest text that fits its length.
const LONGEST: usize = 0xffff_ffff;

fn is_text(text: &Text) -> bool
    ensures { IsTrue result ↔ IsText text.now }
{
    text.as_str().len() <= LONGEST
}

fn is_item(path: &Path, item: &Item) -> bool
    ensures { IsTrue result ↔ IsLawful (an_item path.now item.now) }
{
    match item {
        Item::Entry => item.fits(path),
        Item::Leaf(text) => item.fits(path) && is_text(text),
    }
}

// Whether the text of the path fits its field.
fn is_path_fit(path: &Path) -> bool
    ensures fit { IsTrue result ↔ IsText (path_text path.now) }
    ensures path { IsTrue (is_path path.now) }
{
    path.text_len() <= LONGEST as u64
}

fn is_path_after(before: Option<&Path>, path: &Path) -> bool
    ensures { IsTrue result ↔ IsPathAfter (option_copied before.entry) path.now }
{
    is_path_fit(path) && follows(before, path)
}

fn is_put(before: Option<&Path>, put: &Put) -> bool
    ensures { IsTrue result ↔ AreLawful (put_fields (option_copied before.entry) put.now) }
{
    is_path_after(before, &put.path) && is_item(&put.path, &put.item)
}

fn are_puts(puts: &[Put]) -> bool
    ensures { IsTrue result ↔ AreLawful (puts_fields None puts.now) }
{
    for (i, put) in puts.iter().enumerate() {
        if !is_put(last_path(&puts[..i]), put) {
            return false;
        }
    }
    true
}

fn is_body(service: &Text, puts: &[Put]) -> bool
    ensures { IsTrue result ↔ AreLawful (body_fields service.now puts.now) }
{
    is_text(service) && puts.len() <= LONGEST && are_puts(puts)
}

fn is_device_put(put: &DevicePut) -> bool
    ensures { IsTrue result ↔ AreLawful (device_put_fields put.now) }
{
    is_text(&put.device) && is_path_after(None, &put.path) && is_item(&put.path, &put.item)
}

fn are_device_puts(puts: &[DevicePut]) -> bool
    ensures { IsTrue result ↔ AreLawful (flat_map device_put_fields puts.now) }
{
    for put in puts {
        if !is_device_put(put) {
            return false;
        }
    }
    true
}

fn is_literal(name: &Text, writes: &[DevicePut]) -> bool
    ensures { IsTrue result ↔ AreLawful (literal_fields name.now writes.now) }
{
    is_text(name) && writes.len() <= LONGEST && are_device_puts(writes)
}

fn is_content(action: &Action) -> bool
    ensures { IsTrue result ↔ AreLawful (content_fields action.now) }
{
    match action {
        Action::Create(service, body) => is_body(service, body.as_slice()),
        Action::Modify(service, body) => is_body(service, body.as_slice()),
        Action::Redeploy(service) => is_text(service),
        Action::Delete(service) => is_text(service),
        Action::Set(put) => is_put(None, put),
        Action::Unset(path) => is_path_after(None, path),
        Action::BasePut(put) => is_device_put(put),
        Action::BaseRemove(device, path) => is_text(device) && is_path_after(None, path),
        Action::Literal(name, writes) => is_literal(name, writes.as_slice()),
    }
}

fn are_actions(actions: &[Action]) -> bool
    ensures { IsTrue result ↔ AreLawful (flat_map action_fields actions.now) }
{
    for action in actions {
        if !is_content(action) {
            return false;
        }
    }
    true
}

// Whether so many actions may stand in a call.
fn is_action_count(count: usize) -> bool
    ensures { IsTrue result ↔ IsLawful (a_count_of_actions count) }
{
    (1..=MOST_ACTIONS).contains(&count)
}

/// Whether the call has an encoding: each text's and list's length fits its field, there are 1 to
/// 64 actions, the items of each `Create` and `Modify` stand in path order, each path once, and
/// each item fits its path. It takes no memory.
pub fn is_encodable(call: &Call) -> bool
    ensures { IsTrue result ↔ IsCall call.now }
{
    // Read, so that its range is known to the proof.
    let _number = call.number;
    is_text(&call.caller)
        && is_action_count(call.actions.len())
        && are_actions(call.actions.as_slice())
}
