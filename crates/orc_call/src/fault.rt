//! Why bytes are no encoding of a call.

use orc_text::Memory;

/// Why bytes are refused.
#[derive(Clone, Copy, Debug, PartialEq, Eq)]
pub enum CodecFault {
    /// No encoding begins the bytes; `at` is the offset of the first field that isn't there whole
    /// or has no lawful value.
    Bad { at: u64 },
    /// Memory could not be had.
    Memory,
}

impl From<Memory> for CodecFault {
    ghost use Rattle.orc_call.specs.declared.fault.CodecFault.TheVariants as fault;
    ghost use Rattle.std.specs.Prelude.{◌≡◌};

    ghost from_gives = { λ _ e. e ≡ fault.Memory };

    fn from(_: Memory) -> CodecFault {
        CodecFault::Memory
    }
}
