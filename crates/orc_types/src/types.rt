//! Types of leaves, as their `type` statements define them.
ghost use Rattle.std.specs.Prelude.{◌≡◌, IfOk, map};
ghost use Rattle.orc_types.specs.Types.{kind_of};

use orc_text::{Copied, Memory, Row, Text};
use orc_value::{IntKind, Kind, Lengths, Names};
use std::alloc::Global;

/// A name of an enumeration, and its value (RFC 7950 section 9.6.4).
#[derive(Debug, PartialEq, Eq, Drop)]
pub struct EnumName {
    pub name: Text,
    pub value: i32,
}

/// The type of a leaf.
#[derive(Debug, PartialEq, Eq)]
pub enum LeafType {
    /// An integer.
    Int(IntKind),
    /// A decimal64 with this many fraction digits.
    Decimal(u8),
    /// A string with one of these lengths, each a least and a greatest one.
    Str(Lengths),
    /// `true` or `false`.
    Bool,
    /// One of the names.
    Enum(Row<EnumName>),
    /// The empty text.
    Empty,
    /// The type of the leaf to which this path leads.
    Leafref(Text),
}

// Written out, so that a crate above lets a type go by one call, and not by one for each type.
impl Drop for LeafType {
    fn drop(self) {
        match self {
            LeafType::Int(_) => {}
            LeafType::Decimal(_) => {}
            LeafType::Str(_) => {}
            LeafType::Bool => {}
            LeafType::Enum(_) => {}
            LeafType::Empty => {}
            LeafType::Leafref(_) => {}
        }
    }
}

/// What the name of a type stands for, before the statements below `type`.
#[derive(Debug, PartialEq, Eq)]
pub enum Base {
    /// A type that may be used as it is.
    Known(LeafType),
    /// The built-in type that needs `fraction-digits`.
    Decimal64,
    /// The built-in type that needs `enum`.
    Enumeration,
    /// The built-in type that needs `path`.
    Leafref,
}

// Written out for the same reason.
impl Drop for Base {
    fn drop(self) {
        match self {
            Base::Known(_) => {}
            Base::Decimal64 => {}
            Base::Enumeration => {}
            Base::Leafref => {}
        }
    }
}

impl EnumName {
    /// An equal name.
    pub fn copy(&self, alloc: Global) -> Result<EnumName, Memory>
        ensures { IfOk result (λ copy. copy ≡ self.now) }
    {
        Ok(EnumName {
            name: self.name.copy(alloc)?,
            value: self.value,
        })
    }
}

impl Copied for EnumName {
    fn copied(&self, alloc: Global) -> Result<EnumName, Memory> {
        self.copy(alloc)
    }
}

impl LeafType {
    /// An equal type.
    pub fn copy(&self, alloc: Global) -> Result<LeafType, Memory>
        ensures { IfOk result (λ copy. copy ≡ self.now) }
    {
        match self {
            LeafType::Int(kind) => Ok(LeafType::Int(kind.copy(alloc)?)),
            LeafType::Decimal(digits) => Ok(LeafType::Decimal(*digits)),
            LeafType::Str(lengths) => Ok(LeafType::Str(lengths.copy(alloc)?)),
            LeafType::Bool => Ok(LeafType::Bool),
            LeafType::Enum(names) => Ok(LeafType::Enum(names.copy(alloc)?)),
            LeafType::Empty => Ok(LeafType::Empty),
            LeafType::Leafref(path) => Ok(LeafType::Leafref(path.copy(alloc)?)),
        }
    }

    /// The type of the values, none for a leafref, whose values are of its target's type.
    pub fn kind(&self, alloc: Global) -> Result<Option<Kind>, Memory>
        ensures { IfOk result (λ kind. kind ≡ kind_of self.now) }
    {
        match self {
            LeafType::Int(kind) => Ok(Some(Kind::Int(kind.copy(alloc)?))),
            LeafType::Decimal(digits) => Ok(Some(Kind::Decimal(*digits))),
            LeafType::Str(lengths) => Ok(Some(Kind::Str(lengths.copy(alloc)?))),
            LeafType::Bool => Ok(Some(Kind::Bool)),
            LeafType::Enum(names) => Ok(Some(Kind::Enum(plain_names(alloc, names.as_slice())?))),
            LeafType::Empty => Ok(Some(Kind::Empty)),
            LeafType::Leafref(_) => Ok(None),
        }
    }
}

impl Copied for LeafType {
    fn copied(&self, alloc: Global) -> Result<LeafType, Memory> {
        self.copy(alloc)
    }
}

// The names without their values, in a row.
fn row_of_names(alloc: Global, enums: &[EnumName]) -> Result<Row<Text>, Memory>
    ensures { IfOk result (λ names. names ≡ map (λ e. e.name) enums.now) }
{
    let mut names = Row::new(alloc);
    for known in enums {
        names.push(known.name.copy(alloc)?)?;
    }
    Ok(names)
}

// The names without their values.
fn plain_names(alloc: Global, enums: &[EnumName]) -> Result<Names, Memory>
    ensures { IfOk result (λ names. names ≡ map (λ e. e.name) enums.now) }
{
    Names::from_row(alloc, row_of_names(alloc, enums)?)
}

impl Base {
    /// An equal base.
    pub fn copy(&self, alloc: Global) -> Result<Base, Memory>
        ensures { IfOk result (λ copy. copy ≡ self.now) }
    {
        match self {
            Base::Known(known) => Ok(Base::Known(known.copy(alloc)?)),
            Base::Decimal64 => Ok(Base::Decimal64),
            Base::Enumeration => Ok(Base::Enumeration),
            Base::Leafref => Ok(Base::Leafref),
        }
    }
}

impl Copied for Base {
    fn copied(&self, alloc: Global) -> Result<Base, Memory> {
        self.copy(alloc)
    }
}
