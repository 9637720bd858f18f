//! What the names of types stand for.

use crate::looked::text_looks;
use orc_text::Text;
use orc_types::{Base, EnumName, LeafType};

/// A type that a name stands for, with the default of its typedefs, and the name of the module in
/// which the `type` statement with the built-in name stands: prefixes of a leafref's path are of
/// that module.
#[derive(Debug, PartialEq, Eq, Drop)]
pub struct Meant {
    pub base: Base,
    pub default: Option<Text>,
    pub home: Text,
}

/// What the argument of a `type` statement stands for.
#[derive(Debug, PartialEq, Eq, Drop)]
pub enum Named {
    /// A type.
    Means(Meant),
    /// Typedefs that lead back to themselves.
    Endless,
    /// Nothing that is known: the name is, or a typedef that it leads to is, at fault.
    Unclear,
}

/// The type that a whole `type` statement makes, with the default of its typedefs and the same
/// module's name.
#[derive(Debug, PartialEq, Eq, Drop)]
pub struct Typed {
    pub of_type: LeafType,
    pub default: Option<Text>,
    pub home: Text,
}

impl Named {
    /// How many texts and ranges it has, which each type that names it copies, and how long these texts
    /// are. Names of an enumeration count as four where there is a default.
    pub fn weight(&self) -> usize {
        match self {
            Named::Means(meant) => base_weight(&meant.base).saturating_add(default_weight(meant)),
            Named::Endless | Named::Unclear => 0,
        }
    }
}

fn base_weight(base: &Base) -> usize {
    match base {
        Base::Known(of_type) => type_weight(of_type),
        Base::Decimal64 | Base::Enumeration | Base::Leafref => 0,
    }
}

fn type_weight(of_type: &LeafType) -> usize {
    match of_type {
        LeafType::Int(kind) => kind.ranges.as_slice().len(),
        LeafType::Str(lengths) => lengths.as_slice().len(),
        LeafType::Enum(names) => names_weight(names.as_slice()),
        LeafType::Leafref(path) => text_looks(path.as_str()),
        LeafType::Decimal(_) | LeafType::Bool | LeafType::Empty => 0,
    }
}

fn names_weight(names: &[EnumName]) -> usize {
    let mut weight = names.len();
    for known in names {
        weight = weight.saturating_add(text_looks(known.name.as_str()));
    }
    weight
}

// Three more for each name: a default is looked for in the set of the names, which is made for it.
fn set_weight(base: &Base) -> usize {
    match base {
        Base::Known(LeafType::Enum(names)) => names.as_slice().len().saturating_mul(3),
        Base::Known(_) | Base::Decimal64 | Base::Enumeration | Base::Leafref => 0,
    }
}

fn default_weight(meant: &Meant) -> usize {
    match &meant.default {
        Some(text) => text_looks(text.as_str()).saturating_add(set_weight(&meant.base)),
        None => 0,
    }
}
