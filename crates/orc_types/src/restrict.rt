//! What a `type` statement makes of its base.
ghost use Rattle.std.specs.Prelude.{◌≡◌, [], IfOk, is_some, codes, unwrap_or, option_map};
ghost use Rattle.orc_types.specs.Statements.{keyword, subs, argument};
ghost use Rattle.orc_types.specs.Enums.{enums_of};
ghost use Rattle.orc_types.specs.Types.{restriction_of, restriction, may_stand, wanted, enumerated, restricts, argument_fits, restriction_fault, fault_at, first_fault, lacks, own_fault, argument_given, ranges_left, lengths_left, names_left, restricted, digits_given, made, type_of, GivesType};
ghost use Rattle.orc_types.specs.inside.Meeting.{Meets, Finds};

use crate::TypeFault;
use crate::enumeration::Enums;
use crate::enums::{add_enum, enum_fault};
use crate::inherited::Inherited;
use crate::lengths::narrowed_lengths;
use crate::numbers::fraction_digits_of;
use crate::paths::is_leafref_path;
use crate::ranges::narrowed;
use crate::statements::{argument, first_of, has, is_a, is_idle, none_below};
use crate::types::{Base, EnumName, LeafType};
use orc_text::{Memory, Row, Text};
use orc_value::{IntKind, Lengths, Ranges};
use orc_yang::Stmt;
use std::alloc::Global;

// The statement that may restrict a type.
fn restriction_of(known: &LeafType) -> Option<&'static str>
    ensures { option_map (λ word. word.now) result ≡ restriction_of known.now }
{
    match known {
        LeafType::Int(_) => Some("range"),
        LeafType::Str(_) => Some("length"),
        LeafType::Enum(_) => Some("enum"),
        LeafType::Decimal(_) | LeafType::Bool | LeafType::Empty | LeafType::Leafref(_) => None,
    }
}

// The statement that may restrict what a name stands for.
fn restriction(base: &Base) -> Option<&'static str>
    ensures { option_map (λ word. word.now) result ≡ restriction base.now }
{
    match base {
        Base::Known(known) => restriction_of(known),
        Base::Decimal64 => Some("fraction-digits"),
        Base::Enumeration => Some("enum"),
        Base::Leafref => Some("path"),
    }
}

// Whether a statement with this keyword may restrict the base.
fn may_stand(word: &str, base: &Base) -> bool
    ensures { result ≡ may_stand word.now (restriction base.now) }
{
    match restriction(base) {
        Some(allowed) => word == allowed,
        None => false,
    }
}

// Whether the base needs a statement that isn't there.
fn lacks(base: &Base, stmts: &[Stmt]) -> bool
    ensures { result ≡ lacks (wanted base.now) stmts.now }
{
    match base {
        Base::Known(_) => false,
        Base::Decimal64 => !has("fraction-digits", stmts),
        Base::Enumeration => !has("enum", stmts),
        Base::Leafref => !has("path", stmts),
    }
}

// Whether an argument may restrict the type.
fn restricts(alloc: Global, known: &LeafType, text: &str) -> Result<bool, Memory>
    ensures { IfOk result (λ fit. fit ≡ restricts known.now text.now) }
{
    match known {
        LeafType::Int(kind) => Ok(narrowed(alloc, kind.ranges.as_slice(), text)?.is_some()),
        LeafType::Str(lengths) => Ok(narrowed_lengths(alloc, lengths.as_slice(), text)?.is_some()),
        LeafType::Decimal(_)
        | LeafType::Bool
        | LeafType::Enum(_)
        | LeafType::Empty
        | LeafType::Leafref(_) => Ok(true),
    }
}

// Whether an argument may restrict what a name stands for.
fn argument_fits(alloc: Global, base: &Base, text: &str) -> Result<bool, Memory>
    ensures { IfOk result (λ fit. fit ≡ argument_fits base.now text.now) }
{
    match base {
        Base::Known(known) => restricts(alloc, known, text),
        Base::Decimal64 => Ok(fraction_digits_of(text).is_some()),
        Base::Enumeration => Ok(true),
        Base::Leafref => Ok(is_leafref_path(text)),
    }
}

// What is at fault at the restriction of a type and below it, after others of its block.
fn restriction_fault(
    alloc: Global,
    base: &Base,
    before: &[Stmt],
    stmt: &Stmt,
) -> Result<(), TypeFault>
    ensures { Meets (restriction_fault base.now before.now stmt.now) result }
{
    if has(stmt.keyword.as_str(), before) {
        return Err(TypeFault::Duplicate {
            name: stmt.keyword.copy(alloc)?,
        });
    }
    match argument_fits(alloc, base, argument(stmt))? {
        true => none_below(alloc, stmt),
        false => Err(TypeFault::BadArgument {
            keyword: stmt.keyword.copy(alloc)?,
        }),
    }
}

// What is at fault at a statement below `type`, after others of its block, which have these enums.
fn fault_at(
    alloc: Global,
    base: &Base,
    inherited: &Inherited,
    before: &[Stmt],
    enums: &Enums,
    stmt: &Stmt,
) -> Result<(), TypeFault>
    requires inherited { inherited.now ≡ enumerated base.now }
    requires enums { enums.now ≡ enums_of (enumerated base.now) before.now }
    ensures { Meets (fault_at base.now before.now stmt.now) result }
{
    let word = stmt.keyword.as_str();
    if is_idle(word) {
        Ok(())
    } else if !may_stand(word, base) {
        Err(TypeFault::Unsupported {
            keyword: stmt.keyword.copy(alloc)?,
        })
    } else if is_a("enum", stmt) {
        enum_fault(alloc, inherited, enums, stmt)
    } else {
        restriction_fault(alloc, base, before, stmt)
    }
}

// The enums below `type`, or the first fault there.
fn look_through(alloc: Global, base: &Base, stmts: &[Stmt]) -> Result<Row<EnumName>, TypeFault>
    ensures { Finds (first_fault base.now [] stmts.now) (enums_of (enumerated base.now) stmts.now) result }
{
    let inherited = Inherited::of(alloc, base, stmts)?;
    let mut enums = Enums::new(alloc);
    for (at, stmt) in stmts.iter().enumerate() {
        if let Err(fault) = fault_at(alloc, base, &inherited, &stmts[..at], &enums, stmt) {
            return Err(fault);
        }
        enums = add_enum(alloc, &inherited, enums, stmt)?;
    }
    Ok(enums.into_row())
}

// The argument of the statement with this keyword.
fn argument_given<'a>(word: &str, stmts: &'a [Stmt]) -> Option<&'a str>
    ensures { option_map (λ text. text.now) result ≡ argument_given word.now stmts.now }
{
    match first_of(word, stmts) {
        Some(stmt) => Some(argument(stmt)),
        None => None,
    }
}

// The ranges that an argument leaves.
#[tactic(auto, using(crate::proofs::Apart::ranges_apart))]
fn ranges_left(alloc: Global, base: &Ranges, stmts: &[Stmt]) -> Result<Ranges, Memory>
    ensures { IfOk result (λ ranges. ranges ≡ ranges_left base.now (argument_given (codes "range") stmts.now)) }
{
    match argument_given("range", stmts) {
        Some(text) => match narrowed(alloc, base.as_slice(), text)? {
            Some(ranges) => Ok(Ranges::from_row(ranges)),
            None => base.copy(alloc),
        },
        None => base.copy(alloc),
    }
}

// The lengths that an argument leaves.
#[tactic(auto, using(crate::proofs::Apart::lengths_apart))]
fn lengths_left(alloc: Global, base: &Lengths, stmts: &[Stmt]) -> Result<Lengths, Memory>
    ensures { IfOk result (λ lengths. lengths ≡ lengths_left base.now (argument_given (codes "length") stmts.now)) }
{
    match argument_given("length", stmts) {
        Some(text) => match narrowed_lengths(alloc, base.as_slice(), text)? {
            Some(lengths) => Ok(Lengths::from_row(lengths)),
            None => base.copy(alloc),
        },
        None => base.copy(alloc),
    }
}

// The names that are left of an enumeration's.
fn names_left(
    alloc: Global,
    base: &Row<EnumName>,
    enums: Row<EnumName>,
    stmts: &[Stmt],
) -> Result<Row<EnumName>, Memory>
    ensures { IfOk result (λ names. names ≡ names_left base.now enums stmts.now) }
{
    if has("enum", stmts) {
        Ok(enums)
    } else {
        base.copy(alloc)
    }
}

// What the statements below `type` leave of a type.
fn restricted(
    alloc: Global,
    known: &LeafType,
    enums: Row<EnumName>,
    stmts: &[Stmt],
) -> Result<LeafType, Memory>
    ensures { IfOk result (λ left. left ≡ restricted known.now enums stmts.now) }
{
    match known {
        LeafType::Int(kind) => Ok(LeafType::Int(IntKind {
            ranges: ranges_left(alloc, &kind.ranges, stmts)?,
            quoted: kind.quoted,
        })),
        LeafType::Str(lengths) => Ok(LeafType::Str(lengths_left(alloc, lengths, stmts)?)),
        LeafType::Enum(names) => Ok(LeafType::Enum(names_left(alloc, names, enums, stmts)?)),
        LeafType::Decimal(digits) => Ok(LeafType::Decimal(*digits)),
        LeafType::Bool => Ok(LeafType::Bool),
        LeafType::Empty => Ok(LeafType::Empty),
        LeafType::Leafref(path) => Ok(LeafType::Leafref(path.copy(alloc)?)),
    }
}

// The number of fraction digits that are given.
fn digits_given(stmts: &[Stmt]) -> u8
    ensures { result ≡ digits_given (argument_given (codes "fraction-digits") stmts.now) }
{
    match argument_given("fraction-digits", stmts) {
        Some(text) => fraction_digits_of(text).unwrap_or(0),
        None => 0,
    }
}

// The path that is given.
fn path_given(alloc: Global, stmts: &[Stmt]) -> Result<Text, Memory>
    ensures { IfOk result (λ path. path ≡ unwrap_or (argument_given (codes "path") stmts.now) []) }
{
    match argument_given("path", stmts) {
        Some(text) => Text::from_str(alloc, text),
        None => Ok(Text::new(alloc)),
    }
}

// What the statements below `type`, without a fault and with these enums, make of the base.
fn made(
    alloc: Global,
    base: &Base,
    enums: Row<EnumName>,
    stmts: &[Stmt],
) -> Result<LeafType, Memory>
    ensures { IfOk result (λ left. left ≡ made base.now enums stmts.now) }
{
    match base {
        Base::Known(known) => restricted(alloc, known, enums, stmts),
        Base::Decimal64 => Ok(LeafType::Decimal(digits_given(stmts))),
        Base::Enumeration => Ok(LeafType::Enum(enums)),
        Base::Leafref => Ok(LeafType::Leafref(path_given(alloc, stmts)?)),
    }
}

/// The type that a `type` statement makes of what its name stands for, or its first fault.
#[tactic(auto, unfolding(crate::specs::Types::type_of))]
pub fn type_of(alloc: Global, base: &Base, stmt: &Stmt) -> Result<LeafType, TypeFault>
    ensures { GivesType (type_of base.now stmt.now) result }
{
    if lacks(base, stmt.subs.as_slice()) {
        return Err(TypeFault::BadArgument {
            keyword: stmt.keyword.copy(alloc)?,
        });
    }
    match look_through(alloc, base, stmt.subs.as_slice()) {
        Err(fault) => Err(fault),
        Ok(enums) => Ok(made(alloc, base, enums, stmt.subs.as_slice())?),
    }
}
