//! The built-in types.
ghost use Rattle.std.specs.Prelude.{◌≡◌, IsTrue, IfOk, IfSome, Some, codes, int_le};
ghost use Rattle.orc_types.specs.BuiltIn.{integer_range, is_quoted, other_type, integer_type, built_in_or, built_in, is_left_out};

use crate::types::{Base, LeafType};
use orc_text::{Memory, Row};
use orc_value::{IntKind, Lengths, Ranges};
use std::alloc::Global;

// The numbers of an integer type.
fn integer_range(name: &str) -> Option<(i128, i128)>
    ensures range { result ≡ integer_range name.now }
    ensures proper { IfSome result (λ range. IsTrue (int_le range.0 range.1)) }
{
    if name == "int8" {
        Some((-128, 127))
    } else if name == "int16" {
        Some((-32_768, 32_767))
    } else if name == "int32" {
        Some((-2_147_483_648, 2_147_483_647))
    } else if name == "int64" {
        Some((-9_223_372_036_854_775_808, 9_223_372_036_854_775_807))
    } else if name == "uint8" {
        Some((0, 255))
    } else if name == "uint16" {
        Some((0, 65_535))
    } else if name == "uint32" {
        Some((0, 4_294_967_295))
    } else if name == "uint64" {
        Some((0, 18_446_744_073_709_551_615))
    } else {
        None
    }
}

// The integer type of a name and a range.
fn integer_type(alloc: Global, name: &str, range: (i128, i128)) -> Result<Base, Memory>
    requires { IsTrue (int_le range.0 range.1) }
    ensures { IfOk result (λ base. base ≡ integer_type name.now range) }
{
    let mut ranges = Row::new(alloc);
    ranges.push(range)?;
    let quoted = name == "int64" || name == "uint64";
    Ok(Base::Known(LeafType::Int(IntKind {
        ranges: Ranges::from_row(ranges),
        quoted,
    })))
}

// Strings of every length.
fn string_type(alloc: Global) -> Result<Base, Memory>
    ensures { IfOk result (λ base. Some base ≡ other_type (codes "string")) }
{
    let mut lengths = Row::new(alloc);
    lengths.push((0, u64::MAX))?;
    Ok(Base::Known(LeafType::Str(Lengths::from_row(lengths))))
}

// The other types.
fn other_type(alloc: Global, name: &str) -> Result<Option<Base>, Memory>
    ensures { IfOk result (λ base. base ≡ other_type name.now) }
{
    if name == "string" {
        Ok(Some(string_type(alloc)?))
    } else if name == "boolean" {
        Ok(Some(Base::Known(LeafType::Bool)))
    } else if name == "empty" {
        Ok(Some(Base::Known(LeafType::Empty)))
    } else if name == "decimal64" {
        Ok(Some(Base::Decimal64))
    } else if name == "enumeration" {
        Ok(Some(Base::Enumeration))
    } else if name == "leafref" {
        Ok(Some(Base::Leafref))
    } else {
        Ok(None)
    }
}

/// The built-in type of a name (RFC 7950 section 4.2.4), or none where there is no such type here.
#[tactic(auto, unfolding(crate::specs::BuiltIn::built_in))]
pub fn built_in(alloc: Global, name: &str) -> Result<Option<Base>, Memory>
    ensures { IfOk result (λ base. base ≡ built_in name.now) }
{
    match integer_range(name) {
        Some(range) => Ok(Some(integer_type(alloc, name, range)?)),
        None => other_type(alloc, name),
    }
}

/// Whether RFC 7950 has a built-in type of this name that is left out here.
pub fn is_left_out(name: &str) -> bool
    ensures { result ≡ is_left_out name.now }
{
    name == "binary"
        || name == "bits"
        || name == "identityref"
        || name == "instance-identifier"
        || name == "union"
}
