//! The opening: its data is valid, and each device accepts its base.
ghost use Rattle.std.specs.Prelude.{◌≡◌, IfOk, IsTrue};
ghost use Rattle.std.specs.List.{All, list_all};
ghost use Rattle.std.specs.Option.{is_none};
ghost use Rattle.orc_check.specs.Validity.{broken_of};
ghost use Rattle.orc_decls.specs.Calls.{is_device};
ghost use Rattle.orc_decls.specs.Declarations.{accepts_base};
ghost use Rattle.orc_declarations.specs.Declarations.{is_opening};
ghost use Rattle.orc_lines.specs.Lawful.{AreDeclared};

use orc_check::{CheckFault, accepts_under, valid};
use orc_decls::{Device, declared_base, opening_data, schema_in};
use orc_lines::{Breach, Declared, Detail, WrongOpening};
use orc_path::Path;
use orc_schema::Schema;
use orc_text::{Memory, Text};
use orc_tree::Tree;
use std::alloc::Global;
use std::slice::from_ref;

// What a configuration breaks of its schema.
fn broken_schema(alloc: Global, schema: &Schema, tree: &Tree) -> Result<Option<Breach>, Memory>
    ensures { IfOk result (λ broken. is_none broken ≡ is_none (broken_of schema.now tree.now)) }
{
    match valid(alloc, schema, tree) {
        Ok(()) => Ok(None),
        Err(CheckFault::Broken { path, rule }) => Ok(Some(Breach::Schema { path, rule })),
        Err(CheckFault::Memory) => Err(Memory),
    }
}

// The first of these rules whose list has more entries than it may.
fn broken_max(
    alloc: Global,
    plain: &Schema,
    base: &Tree,
    max: &[(Path, u64)],
) -> Result<Option<Breach>, Memory> {
    for rule in max {
        if !accepts_under(alloc, plain, from_ref(rule), &[], base)? {
            return Ok(Some(Breach::Max(rule.0.copy(alloc)?, rule.1)));
        }
    }
    Ok(None)
}

// The first of these rules whose leaf has the text that it may not have.
fn broken_forbid(
    alloc: Global,
    plain: &Schema,
    base: &Tree,
    forbid: &[(Path, Text)],
) -> Result<Option<Breach>, Memory> {
    for rule in forbid {
        if !accepts_under(alloc, plain, &[], from_ref(rule), base)? {
            return Ok(Some(Breach::Forbid(rule.0.copy(alloc)?, rule.1.copy(alloc)?)));
        }
    }
    Ok(None)
}

// What a base that its device doesn't accept breaks: of the schema, else of its rules. Each of these is
// looked at under the plain schema, by which every configuration is valid.
fn base_breach(
    alloc: Global,
    schema: &Schema,
    device: &Device,
    base: &Tree,
) -> Result<Option<Breach>, Memory> {
    if let Some(breach) = broken_schema(alloc, schema, base)? {
        return Ok(Some(breach));
    }
    let plain = Schema::plain(alloc);
    if let Some(breach) = broken_max(alloc, &plain, base, device.max.as_slice())? {
        return Ok(Some(breach));
    }
    broken_forbid(alloc, &plain, base, device.forbid.as_slice())
}

// Of a base that its device doesn't accept.
fn wrong_base(
    alloc: Global,
    schema: &Schema,
    device: &Device,
    base: &Tree,
) -> Result<Detail, Memory> {
    match base_breach(alloc, schema, device, base)? {
        Some(breach) => Ok(Detail::Opening(WrongOpening {
            device: Some(device.name.copy(alloc)?),
            breach,
        })),
        None => Ok(Detail::Plain),
    }
}

// What is at fault in the base of a device, where the device doesn't accept it.
fn broken_base(alloc: Global, schemas: &[Schema], device: &Device) -> Result<Option<Detail>, Memory>
    requires { IsTrue (is_device schemas.now device.now) }
    ensures { IfOk result (λ broken. is_none broken ≡ accepts_base schemas.now device.now) }
{
    let base = declared_base(alloc, device)?;
    let plain = Schema::plain(alloc);
    let schema = schema_in(schemas, device.schema, &plain);
    if accepts_under(
        alloc,
        schema,
        device.max.as_slice(),
        device.forbid.as_slice(),
        &base,
    )? {
        return Ok(None);
    }
    Ok(Some(wrong_base(alloc, schema, device, &base)?))
}

// What is at fault in the first base that its device doesn't accept.
fn broken_bases(
    alloc: Global,
    schemas: &[Schema],
    devices: &[Device],
) -> Result<Option<Detail>, Memory>
    requires { All (λ device. IsTrue (is_device schemas.now device)) devices.now }
    ensures { IfOk result (λ broken. is_none broken ≡ list_all (accepts_base schemas.now) devices.now) }
{
    for device in devices {
        match broken_base(alloc, schemas, device)? {
            Some(detail) => return Ok(Some(detail)),
            None => {}
        }
    }
    Ok(None)
}

/// What is at fault at the opening, where its data isn't valid or a device doesn't accept its base.
pub(crate) fn broken_opening(alloc: Global, declared: &Declared) -> Result<Option<Detail>, Memory>
    requires { AreDeclared declared.now }
    ensures { IfOk result (λ broken. is_none broken ≡ is_opening declared.now) }
{
    let tree = opening_data(alloc, declared.names.as_slice(), declared.data.as_slice())?;
    match broken_schema(alloc, &declared.data_schema, &tree)? {
        Some(breach) => Ok(Some(Detail::Opening(WrongOpening {
            device: None,
            breach,
        }))),
        None => broken_bases(
            alloc,
            declared.schemas.as_slice(),
            declared.devices.as_slice(),
        ),
    }
}
