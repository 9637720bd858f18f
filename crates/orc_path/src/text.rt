//! The text of a path, alone and with an item.
ghost use Rattle.std.specs.Prelude.{◌≡◌, ◌<◌, ◌++◌, IfOk, OnOk, OnErr, IsTrue, codes, encode_utf8};
ghost use Rattle.std.specs.String.{string_bytes};
ghost use Rattle.std.specs.List.{flat_map};
ghost use Rattle.orc_path.specs.Items.{item_text};
ghost use Rattle.orc_path.specs.Steps.{is_path};
ghost use Rattle.orc_path.specs.Texts.{escape, key_text, step_text, path_text, value_text, AddsFront};

use crate::value::push_value;
use crate::{Item, Path, Step};
use orc_text::{Memory, Text};
use std::alloc::{AllocError, Global};

fn push_escaped(out: &mut String, byte: u8) -> Result<(), AllocError>
    requires { byte < 128 }
    ensures { OnOk result (string_bytes out.new ≡ string_bytes out.old ++ escape byte) }
{
    match byte {
        b'\\' => out.push_str("\\\\"),
        b']' => out.push_str("\\]"),
        b' ' => out.push_str("\\s"),
        b'\t' => out.push_str("\\t"),
        b'\n' => out.push_str("\\n"),
        b'\r' => out.push_str("\\r"),
        _ => out.push(char::from(byte)),
    }
}

// Adds a character of a key.
#[tactic(auto, using(crate::proofs::Written::escaped_low, crate::proofs::Written::escaped_high))]
fn push_character(out: &mut String, character: char) -> Result<(), AllocError>
    ensures { OnOk result (string_bytes out.new ≡ string_bytes out.old ++ flat_map escape (encode_utf8 character)) }
{
    if character.is_ascii() {
        push_escaped(out, u32::from(character) as u8)
    } else {
        out.push(character)
    }
}

fn push_key(out: &mut String, key: &Text) -> Result<(), AllocError>
    ensures { OnOk result (string_bytes out.new ≡ string_bytes out.old ++ key_text key.now) }
{
    out.push_str("[")?;
    for character in key.as_str().chars() {
        push_character(out, character)?;
    }
    out.push_str("]")
}

fn push_step(out: &mut String, step: &Step) -> Result<(), AllocError>
    ensures { OnOk result (string_bytes out.new ≡ string_bytes out.old ++ step_text step.now) }
{
    out.push_str("/")?;
    out.push_str(step.node.as_str())?;
    for key in step.keys.as_slice() {
        push_key(out, key)?;
    }
    Ok(())
}

impl Path {
    /// The one text of the path.
    pub fn text(&self, alloc: Global) -> Result<Text, Memory>
        ensures text { IfOk result (λ text. text ≡ path_text self.now) }
        ensures path { IsTrue (is_path self.now) }
    {
        let mut out = String::new(alloc);
        if self.steps.is_empty() {
            out.push_str("/")?;
        }
        for step in self.steps.as_slice() {
            push_step(&mut out, step)?;
        }
        Ok(Text::from_string(out))
    }
}

// Adds ` = ` and the text of a value.
#[tactic(auto, using(crate::proofs::Fronts::front_of_none, crate::proofs::Fronts::front_behind))]
fn push_leaf(out: &mut String, value: &str) -> Result<(), Memory>
    ensures ok { OnOk result (string_bytes out.new ≡ string_bytes out.old ++ (codes " = " ++ value_text value.now)) }
    ensures err { OnErr result
        (AddsFront (codes " = " ++ value_text value.now) (string_bytes out.old) (string_bytes out.new)) }
{
    out.push_str(" = ")?;
    push_value(out, value)
}

/// Adds an item to a text: its path, and after it, where it is a leaf, ` = ` and its value with
/// escapes. If memory runs out, a prefix of it may stand there.
pub fn push_item(out: &mut String, alloc: Global, path: &Path, item: &Item) -> Result<(), Memory>
    ensures ok { OnOk result (string_bytes out.new ≡ string_bytes out.old ++ item_text path.now item.now) }
    ensures err { OnErr result (AddsFront (item_text path.now item.now) (string_bytes out.old) (string_bytes out.new)) }
{
    out.push_str(path.text(alloc)?.as_str())?;
    match item {
        Item::Entry => Ok(()),
        Item::Leaf(value) => push_leaf(out, value.as_str()),
    }
}
