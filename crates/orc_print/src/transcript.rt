//! A transcript: what was printed so far.
ghost use Rattle.std.specs.Prelude.{◌≡◌, ◌++◌, [], OnErr, OnOk};

use orc_text::Memory;
use std::alloc::Global;
use std::marker::Model;

/// The bytes that were printed so far. It is seen as the list of them.
#[derive(Drop)]
pub struct Transcript {
    text: Vec<u8>,
}

impl Model for Transcript {
    ghost use Rattle.std.specs.Prelude.{List, ℕ};

    ghost Value = { List ℕ };

    ghost view = { λ transcript. transcript.text.items };
}

impl Transcript {
    /// No byte. It takes no memory.
    pub fn new(alloc: Global) -> Transcript
        ensures { result ≡ [] }
    {
        Transcript {
            text: Vec::new(alloc),
        }
    }

    /// Adds these bytes. If memory runs out, it is as it was.
    pub fn push(&mut self, bytes: &[u8]) -> Result<(), Memory>
        ensures ok { OnOk result (self.new ≡ self.old ++ bytes.now) }
        ensures err { OnErr result (self.new ≡ self.old) }
    {
        self.text.extend_from_slice(bytes)?;
        Ok(())
    }

    /// The bytes.
    pub fn bytes(&self) -> &[u8]
        ensures { result.now ≡ self.now }
    {
        self.text.as_slice()
    }
}
