//! The names and values of an enumeration.
ghost use Rattle.std.specs.Prelude.{◌≡◌, ◌&&◌, ◌||◌, [], None, IfOk, OnOk, is_some, codes, option_map};
ghost use Rattle.std.specs.List.{list_any, find};
ghost use Rattle.orc_types.specs.Statements.{argument, subs, has};
ghost use Rattle.orc_types.specs.Enums.{is_enum_name, has_name, has_value, greatest, next_value, own_value, enum_value, add_enum, is_new, is_valued, name_fault, keeps, number_fault, value_fault, values_fault, enum_fault};
ghost use Rattle.orc_types.specs.inside.Meeting.{Meets};

use crate::TypeFault;
use crate::enumeration::Enums;
use crate::inherited::Inherited;
use crate::numbers::int32_of;
use crate::ranges::is_trimmed;
use crate::statements::{argument, argument_text, first_of, has, is_a, is_idle, none_below};
use orc_text::Memory;
use orc_yang::Stmt;
use std::alloc::Global;

// Whether the name is not empty and has no white space at an end.
fn is_enum_name(name: &str) -> bool
    ensures { result ≡ is_enum_name name.now }
{
    !name.is_empty() && is_trimmed(name)
}

// The value of a name without `value`, after others.
fn own_value(base: &Inherited, before: &Enums, name: &str) -> Option<i32>
    ensures { result ≡ own_value base.now before.now name.now }
{
    match base.names() {
        Some(_) => base.value(name),
        None => before.next(),
    }
}

// The value of an enum, after others.
fn enum_value(base: &Inherited, before: &Enums, stmt: &Stmt) -> i32
    ensures { result ≡ enum_value base.now before.now stmt.now }
{
    match first_of("value", stmt.subs.as_slice()) {
        Some(value) => int32_of(argument(value)).unwrap_or(0),
        None => own_value(base, before, argument(stmt)).unwrap_or(0),
    }
}

// Adds an enum with its value, where the statement is one.
pub(crate) fn add_enum<'m>(
    alloc: Global,
    base: &Inherited,
    enums: Enums<'m>,
    stmt: &'m Stmt,
) -> Result<Enums<'m>, Memory>
    ensures { IfOk result (λ more. more ≡ add_enum base.now enums.entry stmt.now) }
{
    if is_a("enum", stmt) {
        let value = enum_value(base, &enums, stmt);
        enums.with(alloc, argument(stmt), value)
    } else {
        Ok(enums)
    }
}

// Whether a derived enumeration has a name that its base lacks.
fn is_new(base: &Inherited, name: &str) -> bool
    ensures { result ≡ is_new base.now name.now }
{
    match base.names() {
        Some(_) => !base.has(name),
        None => false,
    }
}

// Whether a value is given or left for an enum, after others.
fn is_valued(base: &Inherited, before: &Enums, stmt: &Stmt) -> bool
    ensures { result ≡ is_valued base.now before.now stmt.now }
{
    has("value", stmt.subs.as_slice()) || own_value(base, before, argument(stmt)).is_some()
}

// What is at fault at an `enum`, after others.
fn name_fault(alloc: Global, base: &Inherited, before: &Enums, stmt: &Stmt) -> Result<(), TypeFault>
    ensures { Meets (name_fault base.now before.now stmt.now) result }
{
    let name = argument(stmt);
    if is_new(base, name) {
        Err(TypeFault::Unknown {
            name: argument_text(alloc, stmt)?,
        })
    } else if before.has_name(name) {
        Err(TypeFault::Duplicate {
            name: argument_text(alloc, stmt)?,
        })
    } else if is_enum_name(name) && is_valued(base, before, stmt) {
        Ok(())
    } else {
        Err(TypeFault::BadArgument {
            keyword: stmt.keyword.copy(alloc)?,
        })
    }
}

// What is at fault at the number of a `value`.
fn number_fault(
    alloc: Global,
    base: &Inherited,
    before: &Enums,
    name: &str,
    stmt: &Stmt,
    number: Option<i32>,
) -> Result<(), TypeFault>
    ensures { Meets (number_fault base.now before.now name.now stmt.now number) result }
{
    match number {
        Some(value) => {
            if before.has_value(value) {
                Err(TypeFault::Duplicate {
                    name: argument_text(alloc, stmt)?,
                })
            } else if base.keeps(name, value) {
                Ok(())
            } else {
                Err(TypeFault::BadArgument {
                    keyword: stmt.keyword.copy(alloc)?,
                })
            }
        },
        None => Err(TypeFault::BadArgument {
            keyword: stmt.keyword.copy(alloc)?,
        }),
    }
}

// What is at fault at a statement below an `enum`, after others of its block.
fn value_fault(
    alloc: Global,
    base: &Inherited,
    before: &Enums,
    name: &str,
    earlier: &[Stmt],
    stmt: &Stmt,
) -> Result<(), TypeFault>
    ensures { Meets (value_fault base.now before.now name.now earlier.now stmt.now) result }
{
    if is_idle(stmt.keyword.as_str()) {
        Ok(())
    } else if !is_a("value", stmt) {
        Err(TypeFault::Unsupported {
            keyword: stmt.keyword.copy(alloc)?,
        })
    } else if has("value", earlier) {
        Err(TypeFault::Duplicate {
            name: stmt.keyword.copy(alloc)?,
        })
    } else {
        match number_fault(alloc, base, before, name, stmt, int32_of(argument(stmt))) {
            Err(fault) => Err(fault),
            Ok(()) => none_below(alloc, stmt),
        }
    }
}

// The first fault below an `enum`.
fn values_fault(
    alloc: Global,
    base: &Inherited,
    before: &Enums,
    name: &str,
    stmts: &[Stmt],
) -> Result<(), TypeFault>
    ensures { Meets (values_fault base.now before.now name.now [] stmts.now) result }
{
    for (at, stmt) in stmts.iter().enumerate() {
        if let Err(fault) = value_fault(alloc, base, before, name, &stmts[..at], stmt) {
            return Err(fault);
        }
    }
    Ok(())
}

// The first fault at an `enum` and below it.
pub(crate) fn enum_fault(
    alloc: Global,
    base: &Inherited,
    before: &Enums,
    stmt: &Stmt,
) -> Result<(), TypeFault>
    ensures { Meets (enum_fault base.now before.now stmt.now) result }
{
    match name_fault(alloc, base, before, stmt) {
        Err(fault) => Err(fault),
        Ok(()) => values_fault(alloc, base, before, argument(stmt), stmt.subs.as_slice()),
    }
}
