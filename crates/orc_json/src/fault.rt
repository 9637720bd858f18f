//! Why bytes are no JSON of a configuration.
use orc_path::Path;
use orc_text::Memory;

/// Rule 1: no node of the schema has the member's name there, or it is a key that belongs to no entry.
pub const MEMBER: u8 = 1;

/// Rule 2: the JSON value is of another kind than the node's.
pub const KIND: u8 = 2;

/// Rule 3: the JSON value is no value of the type.
pub const VALUE: u8 = 3;

/// Rule 4: an entry lacks a key, or has one that is no value of its type.
pub const KEY: u8 = 4;

/// Rule 5: an entry of these keys, or a value of a leaf-list, stands there already.
pub const DUPLICATE: u8 = 5;

/// Why bytes are no JSON of a configuration (RFC 7951).
#[derive(Drop)]
pub enum JsonFault {
    /// The bytes are no JSON text.
    Syntax,
    /// The least fault, by the path and then by the rule: 1 a member that the schema doesn't have
    /// there, 2 a JSON value of another kind than the node's, 3 one that is no value of the type, 4
    /// an entry without its keys, 5 an entry or a value that stands there already. The path is that
    /// of the member; of the object around it, where no path has the member's name; or of the list,
    /// where the entry has no keys or the value no text.
    Bad { path: Path, rule: u8 },
    /// Memory could not be had.
    Memory,
}

impl From<Memory> for JsonFault {
    ghost use Rattle.orc_json.specs.declared.fault.JsonFault.TheVariants as fault;
    ghost use Rattle.std.specs.Prelude.{◌≡◌};

    ghost from_gives = { λ _ e. e ≡ fault.Memory };

    fn from(_: Memory) -> JsonFault {
        JsonFault::Memory
    }
}
