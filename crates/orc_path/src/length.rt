//! How many bytes the text of a path has, counted without writing it.
ghost use Rattle.std.specs.Prelude.{◌≡◌, IsTrue, length};
ghost use Rattle.std.specs.List.{flat_map};
ghost use Rattle.orc_text.specs.Counts.{capped};
ghost use Rattle.orc_path.specs.Steps.{is_path};
ghost use Rattle.orc_path.specs.Texts.{escape, key_text, step_text, path_text};

use crate::{Path, Step};
use orc_text::{Counted, Text, total_count};

// How many bytes a byte of a key has in the text.
fn escaped_len(byte: u8) -> u64
    ensures { result ≡ length (escape byte) }
{
    match byte {
        b'\\' | b']' | b' ' | b'\t' | b'\n' | b'\r' => 2,
        _ => 1,
    }
}

// How many bytes a key has in the text, its brackets included.
fn key_len(key: &Text) -> u64
    ensures { result ≡ capped (length (key_text key.now)) }
{
    let mut len: u64 = 2;
    for byte in key.as_str().as_bytes() {
        len = len.saturating_add(escaped_len(*byte));
    }
    len
}

// How many bytes keys have in the text.
fn keys_len(keys: &[Text]) -> u64
    ensures { result ≡ capped (length (flat_map key_text keys.now)) }
{
    let mut len: u64 = 0;
    for key in keys {
        len = len.saturating_add(key_len(key));
    }
    len
}

impl Counted for Step {
    ghost spelling = { step_text };

    fn count(&self) -> u64 {
        let node = self.node.as_str().len() as u64;
        keys_len(self.keys.as_slice())
            .saturating_add(node)
            .saturating_add(1)
    }
}

impl Path {
    /// How many bytes the text of the path has, or the largest 64-bit number where it has more.
    pub fn text_len(&self) -> u64
        ensures len { result ≡ capped (length (path_text self.now)) }
        ensures path { IsTrue (is_path self.now) }
    {
        if self.steps.is_empty() {
            return 1;
        }
        total_count(self.steps.as_slice())
    }
}
