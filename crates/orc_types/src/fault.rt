//! Why a `type` statement makes no type.

use orc_text::{Memory, Text};

/// Why a `type` statement makes no type of its base, or that memory could not be had. The fault is
/// that of the first faulty statement in the order of the text; at one statement the variant listed
/// first counts.
#[derive(Debug, PartialEq, Eq, Drop)]
pub enum TypeFault {
    /// A statement that the type does not have there.
    Unsupported { keyword: Text },
    /// A name of a derived enumeration that its base does not have.
    Unknown { name: Text },
    /// A statement that may stand once, by its keyword, or a name or a value of an enumeration, as
    /// it is written, that stands there already.
    Duplicate { name: Text },
    /// An argument that is not of its statement's form, or a statement that lacks one it needs.
    BadArgument { keyword: Text },
    /// Memory could not be had.
    Memory,
}

impl From<Memory> for TypeFault {
    ghost use Rattle.orc_types.specs.declared.fault.TypeFault.TheVariants as fault;
    ghost use Rattle.std.specs.Prelude.{◌≡◌};

    ghost from_gives = { λ _ e. e ≡ fault.Memory };

    fn from(_: Memory) -> TypeFault {
        TypeFault::Memory
    }
}
