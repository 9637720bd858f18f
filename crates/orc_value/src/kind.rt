//! The types of values.
ghost use Rattle.std.specs.Prelude.{◌≡◌, IfOk};

use crate::{Lengths, Names, Ranges};
use orc_text::{Copied, Memory};
use std::alloc::Global;

/// The type of a leaf's values. A leafref has the type of its target.
#[derive(Debug, PartialEq, Eq)]
pub enum Kind {
    /// An integer.
    Int(IntKind),
    /// A decimal64 with this many fraction digits, 1 to 18. With another number it has no value.
    Decimal(u8),
    /// A string whose number of characters lies in one of the ranges, each a least and a greatest
    /// length. A string without restriction has the one range 0 to `u64::MAX`.
    Str(Lengths),
    /// `true` or `false`.
    Bool,
    /// One of the names.
    Enum(Names),
    /// The empty text.
    Empty,
}

// Written out, so that a crate above lets a kind go by one call, and not by one for each kind.
impl Drop for Kind {
    fn drop(self) {
        match self {
            Kind::Int(_) => {}
            Kind::Decimal(_) => {}
            Kind::Str(_) => {}
            Kind::Bool => {}
            Kind::Enum(_) => {}
            Kind::Empty => {}
        }
    }
}

/// An integer type.
#[derive(Debug, PartialEq, Eq, Drop)]
pub struct IntKind {
    /// The ranges, each a least and a greatest number. A number lies in one of them, and between
    /// the least int64 and the greatest uint64.
    pub ranges: Ranges,
    /// Whether JSON has the number in a string, as for int64 and uint64.
    pub quoted: bool,
}

impl IntKind {
    /// An equal type.
    pub fn copy(&self, alloc: Global) -> Result<IntKind, Memory>
        ensures { IfOk result (λ copy. copy ≡ self.now) }
    {
        Ok(IntKind {
            ranges: self.ranges.copy(alloc)?,
            quoted: self.quoted,
        })
    }
}

impl Kind {
    /// An equal type.
    pub fn copy(&self, alloc: Global) -> Result<Kind, Memory>
        ensures { IfOk result (λ copy. copy ≡ self.now) }
    {
        match self {
            Kind::Int(kind) => Ok(Kind::Int(kind.copy(alloc)?)),
            Kind::Decimal(digits) => Ok(Kind::Decimal(*digits)),
            Kind::Str(lengths) => Ok(Kind::Str(lengths.copy(alloc)?)),
            Kind::Bool => Ok(Kind::Bool),
            Kind::Enum(names) => Ok(Kind::Enum(names.copy(alloc)?)),
            Kind::Empty => Ok(Kind::Empty),
        }
    }
}

impl Copied for IntKind {
    fn copied(&self, alloc: Global) -> Result<IntKind, Memory> {
        self.copy(alloc)
    }
}

impl Copied for Kind {
    fn copied(&self, alloc: Global) -> Result<Kind, Memory> {
        self.copy(alloc)
    }
}
