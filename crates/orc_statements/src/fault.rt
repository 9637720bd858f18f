//! Why modules make no schema.
ghost use Rattle.std.specs.Prelude.{◌≡◌};
ghost use Rattle.orc_statements.specs.Faults.{of_type_fault};

use orc_text::{Memory, Text};
use orc_types::TypeFault;

/// Why modules make no schema, or that memory could not be had. The fault is that of the first
/// faulty statement in the order of the text; at one statement the variant listed first counts.
#[derive(Debug, PartialEq, Eq, Drop)]
pub enum SchemaFault {
    /// A statement that this profile of YANG does not have here.
    Unsupported { keyword: Text },
    /// A name that nothing has: of a type, a grouping, a key or a prefix, or the end of a leafref's
    /// path.
    Unknown { name: Text },
    /// A name that is there already, or a second statement, by its keyword, where one may stand.
    Duplicate { name: Text },
    /// An argument that is not of its statement's form, or a statement that lacks one it needs.
    BadArgument { keyword: Text },
    /// A list without a key.
    NoKey { list: Text },
    /// A type, a grouping or a leafref that leads on without end.
    Loop { name: Text },
    /// Memory could not be had.
    Memory,
}

impl From<Memory> for SchemaFault {
    ghost use Rattle.orc_statements.specs.declared.fault.SchemaFault.TheVariants as fault;
    ghost use Rattle.std.specs.Prelude.{◌≡◌};

    ghost from_gives = { λ _ e. e ≡ fault.Memory };

    fn from(_: Memory) -> SchemaFault {
        SchemaFault::Memory
    }
}

// The fault of a `type` statement as a fault of a schema.
pub(crate) fn of_type(fault: TypeFault) -> SchemaFault
    ensures { result ≡ of_type_fault fault }
{
    match fault {
        TypeFault::Unsupported { keyword } => SchemaFault::Unsupported { keyword },
        TypeFault::Unknown { name } => SchemaFault::Unknown { name },
        TypeFault::Duplicate { name } => SchemaFault::Duplicate { name },
        TypeFault::BadArgument { keyword } => SchemaFault::BadArgument { keyword },
        TypeFault::Memory => SchemaFault::Memory,
    }
}
