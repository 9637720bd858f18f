//! A text that contracts see as the list of its bytes.
ghost use Rattle.std.specs.Prelude.{◌≡◌, IfOk, OnOk, OnErr, ◌++◌, ◌∷◌, [], ◌<◌, nat_eq, encode_utf8};
ghost use Rattle.std.specs.Ordering.{nat_cmp};
ghost use Rattle.std.specs.Cmp.Lexicographic.{pointwise, slice_cmp, nat_list_eq_equiv, nat_list_cmp_total, texts_ties, texts_po};
ghost use Rattle.std.specs.declared.option.Option.TheVariants.{Some};
ghost use Rattle.std.specs.Cmp.{partial_equiv_from_equiv};
ghost use Rattle.std.specs.String.{string_bytes};
ghost use Rattle.std.specs.Hash as fed;
ghost use Rattle.std.specs.Cmp.Rules.{hashing};
ghost use Rattle.std.proofs.Common.{rules};

use crate::{Copied, Memory};
use arrayvec::ArrayString;
use std::alloc::Global;
use std::cmp::Ordering;
use std::hash::{Hash, Hasher};
use std::marker::Model;

/// How many bytes a text has at most that takes no memory beside itself.
pub const SHORT_TEXT: usize = 16;

// Where the bytes of a text are: a short text's in the value itself.
#[derive(Debug)]
enum Held {
    Short(Global, ArrayString<SHORT_TEXT>),
    Long(String),
}

// Written out, so that a function that drops a text is proved for a text, and not for a short one
// and for a long one.
impl Drop for Held {
    fn drop(self) {
        match self {
            Held::Short(_, _) => {}
            Held::Long(string) => drop(string),
        }
    }
}

/// A text in UTF-8. Two texts with the same bytes are one value, and texts are ordered by their
/// bytes. A text of at most `SHORT_TEXT` bytes takes no memory beside itself, unless it was longer
/// once.
#[derive(Debug, Drop)]
pub struct Text {
    held: Held,
}

impl Model for Text {
    ghost use Rattle.std.specs.Prelude.{List, ℕ};
    ghost use Rattle.orc_text.specs.Texts.{held_bytes};

    ghost Value = { List ℕ };

    ghost view = { λ text. held_bytes text.held };
}

impl Text {
    /// The empty text, which takes no memory.
    pub fn new(alloc: Global) -> Text
        ensures { result ≡ [] }
    {
        Text {
            held: Held::Short(alloc, ArrayString::new()),
        }
    }

    /// A copy of the bytes.
    pub fn from_str(alloc: Global, text: &str) -> Result<Text, Memory>
        ensures { IfOk result (λ made. made ≡ text.now) }
    {
        let held = match ArrayString::from(text) {
            Ok(short) => Held::Short(alloc, short),
            Err(_) => Held::Long(String::from_str(alloc, text)?),
        };
        Ok(Text { held })
    }

    /// The bytes of the string, without taking memory.
    pub fn from_string(string: String) -> Text
        ensures { result ≡ string_bytes string }
    {
        let alloc = *string.allocator();
        if let Ok(short) = ArrayString::from(string.as_str()) {
            return Text {
                held: Held::Short(alloc, short),
            };
        }
        Text {
            held: Held::Long(string),
        }
    }

    /// The bytes.
    pub fn as_str(&self) -> &str
        ensures { result.now ≡ self.now }
    {
        match &self.held {
            Held::Short(_, short) => short.as_str(),
            Held::Long(string) => string.as_str(),
        }
    }

    /// Adds a character at the end. If memory runs out, the text is as it was.
    pub fn push(&mut self, character: char) -> Result<(), Memory>
        ensures ok { OnOk result (self.new ≡ self.old ++ encode_utf8 character) }
        ensures err { OnErr result (self.new ≡ self.old) }
        // An ASCII character is one byte.
        ensures ascii { character < 128 → encode_utf8 character ≡ character ∷ [] }
    {
        match &mut self.held {
            Held::Short(alloc, short) => {
                if short.try_push(character).is_err() {
                    let mut string = String::from_str(*alloc, short.as_str())?;
                    string.push(character)?;
                    self.held = Held::Long(string);
                }
            }
            Held::Long(string) => string.push(character)?,
        }
        Ok(())
    }

    /// An equal text.
    pub fn copy(&self, alloc: Global) -> Result<Text, Memory>
        ensures { IfOk result (λ text. text ≡ self.now) }
    {
        Text::from_str(alloc, self.as_str())
    }
}

impl Copied for Text {
    fn copied(&self, alloc: Global) -> Result<Text, Memory> {
        self.copy(alloc)
    }
}

impl PartialEq for Text {
    ghost eq = { pointwise nat_eq };

    ghost laws = { partial_equiv_from_equiv nat_list_eq_equiv };

    fn eq(&self, other: &Text) -> bool {
        self.as_str() == other.as_str()
    }
}

impl Eq for Text {
    ghost laws = { nat_list_eq_equiv };
}

impl Hash for Text {
    ghost hash_input = { fed.str };

    ghost respects_eq = { Prim.search (hashing, rules) };

    fn hash<H: Hasher>(&self, state: &mut H) {
        self.as_str().hash(state);
    }
}

impl PartialOrd for Text {
    ghost partial_cmp = { λ x y. Some (slice_cmp nat_cmp x y) };

    ghost laws = { texts_po };

    fn partial_cmp(&self, other: &Text) -> Option<Ordering> {
        Some(self.cmp(other))
    }
}

impl Ord for Text {
    ghost cmp = { slice_cmp nat_cmp };

    ghost total = { nat_list_cmp_total };

    ghost matches_partial_cmp = { Prim.search rules };

    ghost matches_eq = { texts_ties };

    fn cmp(&self, other: &Text) -> Ordering {
        self.as_str().cmp(other.as_str())
    }
}
