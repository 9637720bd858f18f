//! What the definitions make sure of. Each function does nothing: its contract is the law.
ghost use Rattle.orc_types.specs.Laws.{RangesNarrow, LengthsNarrow, NumbersReadBack, EnumsDiffer};

/// A number that a restricted integer type has is one of its base type.
pub fn ranges_narrow()
    ensures { RangesNarrow }
{}

/// A length that a restricted string type has is one of its base type.
pub fn lengths_narrow()
    ensures { LengthsNarrow }
{}

/// Each number of 64 bits has a bound that writes it.
pub fn numbers_read_back()
    ensures { NumbersReadBack }
{}

/// No two enums of an enumeration without a fault have one name or one value.
pub fn enums_differ()
    ensures { EnumsDiffer }
{}
