//! How many bytes the encoding of a call has, counted without writing it. A count stays at the
//! largest 64-bit number.
ghost use Rattle.std.specs.Prelude.{◌≡◌, length};
ghost use Rattle.orc_text.specs.Counts.{capped};
ghost use Rattle.orc_path.specs.Texts.{path_text};
ghost use Rattle.orc_call.specs.Fields.{text_bytes, item_bytes, spelled};
ghost use Rattle.orc_call.specs.Puts.{put_bytes, device_put_bytes};
ghost use Rattle.orc_call.specs.Encoding.{body_fields, literal_fields, content_fields, action_fields, call_bytes};

use crate::{Action, Call, DevicePut, Put};
use orc_path::{Item, Path};
use orc_text::{Counted, Text, total_count};

// A text with its length.
fn text_count(text: &Text) -> u64
    ensures { result ≡ capped (length (text_bytes text.now)) }
{
    (text.as_str().len() as u64).saturating_add(4)
}

// The text of a path, with its length.
fn path_count(path: &Path) -> u64
    ensures { result ≡ capped (length (text_bytes (path_text path.now))) }
{
    path.text_len().saturating_add(4)
}

fn item_count(item: &Item) -> u64
    ensures { result ≡ capped (length (item_bytes item.now)) }
{
    match item {
        Item::Entry => 1,
        Item::Leaf(text) => text_count(text).saturating_add(1),
    }
}

impl Counted for Put {
    ghost spelling = { put_bytes };

    fn count(&self) -> u64 {
        path_count(&self.path).saturating_add(item_count(&self.item))
    }
}

impl Counted for DevicePut {
    ghost spelling = { device_put_bytes };

    fn count(&self) -> u64 {
        let put = path_count(&self.path).saturating_add(item_count(&self.item));
        text_count(&self.device).saturating_add(put)
    }
}

fn body_count(service: &Text, body: &[Put]) -> u64
    ensures { result ≡ capped (length (spelled (body_fields service.now body.now))) }
{
    text_count(service)
        .saturating_add(4)
        .saturating_add(total_count(body))
}

fn literal_count(name: &Text, writes: &[DevicePut]) -> u64
    ensures { result ≡ capped (length (spelled (literal_fields name.now writes.now))) }
{
    text_count(name)
        .saturating_add(4)
        .saturating_add(total_count(writes))
}

fn content_count(action: &Action) -> u64
    ensures { result ≡ capped (length (spelled (content_fields action.now))) }
{
    match action {
        Action::Create(service, body) => body_count(service, body.as_slice()),
        Action::Modify(service, body) => body_count(service, body.as_slice()),
        Action::Redeploy(service) => text_count(service),
        Action::Delete(service) => text_count(service),
        Action::Set(put) => put.count(),
        Action::Unset(path) => path_count(path),
        Action::BasePut(put) => put.count(),
        Action::BaseRemove(device, path) => text_count(device).saturating_add(path_count(path)),
        Action::Literal(name, writes) => literal_count(name, writes.as_slice()),
    }
}

impl Counted for Action {
    ghost spelling = { λ action. spelled (action_fields action) };

    fn count(&self) -> u64 {
        content_count(self).saturating_add(1)
    }
}

/// How many bytes the encoding of the call has, or the largest 64-bit number where it has more.
pub fn encoded_len(call: &Call) -> u64
    ensures { result ≡ capped (length (call_bytes call.now)) }
{
    let actions = total_count(call.actions.as_slice());
    text_count(&call.caller)
        .saturating_add(10)
        .saturating_add(actions)
}
