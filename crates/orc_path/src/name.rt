//! Names of nodes.
ghost use Rattle.std.specs.Prelude.{◌≡◌, IfOk, IfErr, IsErrOf, IsTrue};
ghost use Rattle.orc_path.specs.Alphabet.{is_node_name};
ghost use Rattle.orc_path.specs.Texts.{IsNameText};
ghost use Rattle.orc_path.specs.Faults.{IsPathFault};

use crate::PathFault;
use crate::mode::{Mode, is_name_end, name_mode};
use orc_text::{Copied, Memory, Text};
use std::alloc::Global;
use std::marker::Model;

/// The name of a node: an identifier (RFC 7950 section 6.2, with ASCII letters), alone or after its
/// module's name and a colon.
#[derive(Debug, PartialEq, Eq, PartialOrd, Ord, Drop)]
pub struct Name {
    text: Text,
}

impl Model for Name {
    ghost use Rattle.std.specs.Prelude.{List, ℕ, IsTrue};
    ghost use Rattle.orc_path.specs.Alphabet.{is_node_name};

    ghost Value = { List ℕ };

    ghost view = { λ name. name.text };

    ghost invariant = { λ name. IsTrue (is_node_name name.text) };

    ghost inverse = { λ bytes. record { text = bytes } };
}

impl Name {
    /// The name of this text. `BadPath { at }` comes exactly where the text is no name; `at` is
    /// then the length in bytes of its longest prefix that is a prefix of some name. Memory is wanted
    /// for a name alone.
    pub fn new(alloc: Global, text: &str) -> Result<Name, PathFault>
        ensures ok { IfOk result (λ name. name ≡ text.now) }
        ensures fault { IfErr result (IsPathFault IsNameText text.now) }
        ensures memory { IsErrOf result PathFault.Memory → IsNameText text.now }
    {
        let mut mode = Mode::Slash;
        for (at, byte) in text.as_bytes().iter().enumerate() {
            match name_mode(mode, *byte) {
                Some(next) => mode = next,
                None => return Err(PathFault::BadPath { at: at as u64 }),
            }
        }
        if !is_name_end(mode) {
            return Err(PathFault::BadPath {
                at: text.len() as u64,
            });
        }
        Ok(Name {
            text: Text::from_str(alloc, text)?,
        })
    }

    /// The name of this text, which is one.
    pub(crate) fn of_text(text: Text) -> Name
        requires { IsTrue (is_node_name text) }
        ensures { result ≡ text }
    {
        Name { text }
    }

    /// The bytes of the name.
    pub fn as_str(&self) -> &str
        ensures value { result.now ≡ self.now }
        ensures name { IsTrue (is_node_name self.now) }
    {
        self.text.as_str()
    }

    /// An equal name.
    pub fn copy(&self, alloc: Global) -> Result<Name, Memory>
        ensures { IfOk result (λ name. name ≡ self.now) }
    {
        Ok(Name {
            text: self.text.copy(alloc)?,
        })
    }
}

impl Copied for Name {
    fn copied(&self, alloc: Global) -> Result<Name, Memory> {
        self.copy(alloc)
    }
}
