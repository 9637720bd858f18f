//! What a call asks of one device's store.

use orc_call::Put;
use orc_path::{Item, Path};
use orc_text::{Memory, Row, Text};
use std::alloc::AllocError;

/// A service that goes from what it writes on the device to what it is to write there.
#[derive(Debug, PartialEq, Eq, Drop)]
pub struct Move {
    pub service: Text,
    pub old: Row<Put>,
    pub new: Row<Put>,
}

/// An edit of what no service wrote.
#[derive(Debug, PartialEq, Eq, Drop)]
pub enum BaseEdit {
    Put(Put),
    Remove(Path),
}

/// Why moves are refused.
#[derive(Debug, PartialEq, Eq, Drop)]
pub enum RefsFault {
    /// A service that moves and another one would write unequal items: `path` is the least such
    /// path. Of the services that move the first with such another one counts; `other` is the least
    /// of those others.
    Clash { path: Path, other: Text },
    /// Memory could not be had.
    Memory,
}

impl From<Memory> for RefsFault {
    ghost use Rattle.std.specs.Prelude.{◌≡◌};
    ghost use Rattle.orc_refs.specs.declared.moves.RefsFault.TheVariants as fault;

    ghost from_gives = { λ _ e. e ≡ fault.Memory };

    fn from(_: Memory) -> RefsFault {
        RefsFault::Memory
    }
}

impl From<AllocError> for RefsFault {
    ghost use Rattle.std.specs.Prelude.{◌≡◌};
    ghost use Rattle.orc_refs.specs.declared.moves.RefsFault.TheVariants as fault;

    ghost from_gives = { λ _ e. e ≡ fault.Memory };

    fn from(_: AllocError) -> RefsFault {
        RefsFault::Memory
    }
}

/// What is known of a path that some service writes.
#[derive(Clone, Copy, Debug)]
pub struct Meta<'a> {
    /// How many living services write it.
    pub count: u64,
    /// Their ids, in byte order.
    pub back: &'a [Text],
    /// The item that stands there in the base.
    pub original: Option<&'a Item>,
}
