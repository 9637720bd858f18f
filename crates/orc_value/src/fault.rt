//! Why a text or a JSON value is no value of a type.
use orc_text::Memory;

// The text has not the form of the type, or a character that no value has.
pub(crate) const LEXICAL: u8 = 1;

// The number is out of the type's ranges.
pub(crate) const RANGE: u8 = 2;

// The text is too short or too long.
pub(crate) const LENGTH: u8 = 3;

// The text is none of the names.
pub(crate) const ENUM: u8 = 4;

/// The rule that a JSON value breaks which is of another kind than the type's.
pub const KIND: u8 = 5;

/// A text or a JSON value that is no value of a type.
#[derive(Clone, Copy, Debug, PartialEq, Eq)]
pub enum ValueFault {
    /// The least rule that it breaks: 1 lexical, 2 range, 3 length, 4 enumeration, 5 kind.
    BadValue { rule: u8 },
    /// Memory could not be had.
    Memory,
}

impl From<Memory> for ValueFault {
    ghost use Rattle.orc_value.specs.declared.fault.ValueFault.{ValueFault};
    ghost use Rattle.std.specs.Prelude.{◌≡◌};

    ghost from_gives = { λ _ e. e ≡ ValueFault.Memory };

    fn from(_: Memory) -> Self {
        ValueFault::Memory
    }
}
