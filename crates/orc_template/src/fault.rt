//! Why a text is no template, and why a template can't be expanded.
use orc_text::Memory;

/// Rule 1: an expression in a string gives no text.
pub const NO_VALUE: u8 = 1;

/// Rule 2: an expression in a string gives more than one text, or the term of a predicate does.
pub const MANY_VALUES: u8 = 2;

/// Rule 3: no device has the name.
pub const UNKNOWN_DEVICE: u8 = 3;

/// Rule 4: a member, a key or a text doesn't fit the device's schema or is past a limit, or the
/// device has none.
pub const BAD_LEAF: u8 = 4;

/// Rule 5: an item differs from the one that was written before at the same device and path.
pub const SELF_CLASH: u8 = 5;

/// Why bytes are no template of a list.
#[derive(Clone, Copy, Debug, PartialEq, Eq)]
pub enum TemplateFault {
    /// The bytes are no JSON text.
    NotJson,
    /// The block has a member that no block has, or one of another kind than it may have, or only
    /// one of `device` and `config`. Block 0 is the template itself.
    BadMember { block: u32 },
    /// An expression or a string of the block is none, or doesn't lead to a node of the schema.
    BadExpr { block: u32 },
    /// Memory could not be had.
    Memory,
}

impl From<Memory> for TemplateFault {
    ghost use Rattle.orc_template.specs.declared.fault.TemplateFault.TheVariants as fault;
    ghost use Rattle.std.specs.Prelude.{◌≡◌};

    ghost from_gives = { λ _ e. e ≡ fault.Memory };

    fn from(_: Memory) -> TemplateFault {
        TemplateFault::Memory
    }
}

/// Why a service can't be expanded.
#[derive(Clone, Copy, Debug, PartialEq, Eq)]
pub enum ExpandFault {
    /// The first block at fault in the order in which blocks are done, and the rule: 1 no-value, 2
    /// many-values, 3 unknown-device, 4 bad-leaf, 5 self-clash.
    At { block: u32, rule: u8 },
    /// Memory could not be had.
    Memory,
}

impl From<Memory> for ExpandFault {
    ghost use Rattle.orc_template.specs.declared.fault.ExpandFault.TheVariants as fault;
    ghost use Rattle.std.specs.Prelude.{◌≡◌};

    ghost from_gives = { λ _ e. e ≡ fault.Memory };

    fn from(_: Memory) -> ExpandFault {
        ExpandFault::Memory
    }
}

/// Why a block ends: by a rule, or since memory could not be had.
#[derive(Clone, Copy, Debug, PartialEq, Eq)]
pub(crate) enum Halt {
    Rule(u8),
    Memory,
}

impl From<Memory> for Halt {
    ghost use Rattle.orc_template.specs.declared.fault.Halt.TheVariants as halt;
    ghost use Rattle.std.specs.Prelude.{◌≡◌};

    ghost from_gives = { λ _ e. e ≡ halt.Memory };

    fn from(_: Memory) -> Halt {
        Halt::Memory
    }
}
