//! Why a configuration isn't valid.
use orc_path::Path;
use orc_text::Memory;

/// Why a configuration isn't valid under a schema, or couldn't be looked at.
#[derive(Debug, Drop)]
pub enum CheckFault {
    /// The rule (`KIND` to `LEAFREF`) is broken at the path. Nothing is broken at an earlier path, and
    /// no earlier rule at this one.
    Broken { path: Path, rule: u8 },
    /// Memory could not be had.
    Memory,
}

impl From<Memory> for CheckFault {
    ghost use Rattle.orc_check.specs.declared.fault.CheckFault.TheVariants as fault;
    ghost use Rattle.std.specs.Prelude.{◌≡◌};

    ghost from_gives = { λ _ e. e ≡ fault.Memory };

    fn from(_: Memory) -> CheckFault {
        CheckFault::Memory
    }
}
