//! Why bytes were not read as a bundle.
use crate::Rule;
use orc_text::Memory;

/// Why bytes were not read as a bundle.
#[derive(Clone, Copy, Debug, PartialEq, Eq)]
pub enum BundleFault {
    /// They are none: the first line at fault, counted from 1, and the first rule that it breaks.
    At { line: u64, rule: Rule },
    /// Memory could not be had.
    Memory,
}

impl From<Memory> for BundleFault {
    ghost use Rattle.orc_decls.specs.declared.fault.BundleFault.TheVariants as fault;
    ghost use Rattle.std.specs.Prelude.{◌≡◌};

    ghost from_gives = { λ _ e. e ≡ fault.Memory };

    fn from(_: Memory) -> BundleFault {
        BundleFault::Memory
    }
}
