//! A bundle: what it declares, and where its script begins.
ghost use Rattle.std.specs.Prelude.{◌≡◌, ◌≤◌, [], IfOk, IsTrue, Ok, OnOk, length, map};
ghost use Rattle.std.specs.List.{All, IsDistinct};
ghost use Rattle.orc_schema_nodes.specs.Sound.{IsSound};
ghost use Rattle.orc_decls.specs.Declarations.{AreDecls, accept_of};
ghost use Rattle.orc_decls.specs.Devices.{is_same_text};
ghost use Rattle.orc_lines.specs.Answers.{Explains, Gives};
ghost use Rattle.orc_lines.specs.Lawful.{AreDeclared, decls_with};
ghost use Rattle.orc_lines.specs.Rules.{on_ok};
ghost use Rattle.orc_declarations.specs.Answers.{front_left};
ghost use Rattle.orc_declarations.specs.Declarations.{is_opening};
ghost use Rattle.orc_declarations.specs.Bundles.{BeginsScript, bundle_at, declarations_in};

use crate::declarations::nothing_declared;
use crate::read::{Behind, read_declared};
use orc_check::Accept;
use orc_decls::{BundleFault, Decls, Device, Names, schema_in};
use orc_lines::{Declared, ExplainedFault, plain_fault};
use orc_schema::Schema;
use orc_template::Devices;
use orc_text::{Memory, Row, Text};
use std::alloc::Global;

/// What a bundle declares, and where its script begins.
#[derive(Drop)]
pub struct Bundle {
    pub decls: Decls,
    /// What each device accepts, in the order of their numbers.
    pub accepts: Row<Accept>,
    /// The bytes and the lines before the script, the line `script` among them: all of them where
    /// there is none.
    pub rest: usize,
    pub line: u64,
}

// The names as a row.
fn row_of(alloc: Global, names: &Names) -> Result<Row<Text>, Memory>
    ensures row { IfOk result (λ row. row ≡ names.now) }
    ensures distinct { OnOk result (IsDistinct is_same_text names.now) }
{
    Row::of_copies(alloc, names.as_slice())
}

// The places of the devices' schemas.
fn places_of(alloc: Global, devices: &[Device]) -> Result<Row<u32>, Memory>
    ensures { IfOk result (λ places. places ≡ map (λ device. device.schema) devices.now) }
{
    let mut places = Row::new(alloc);
    for device in devices {
        places.push(device.schema)?;
    }
    Ok(places)
}

// The devices as expansions take them.
fn table_of(alloc: Global, declared: &Declared) -> Result<Devices, Memory>
    requires { AreDeclared declared.now }
    ensures table { IfOk result (λ table. table ≡ (decls_with [] declared.now).table) }
    ensures distinct { OnOk result (IsDistinct is_same_text declared.now.names) }
{
    let names = row_of(alloc, &declared.names)?;
    let schemas = declared.schemas.copy(alloc)?;
    let places = places_of(alloc, declared.devices.as_slice())?;
    match Devices::of_parts(names, schemas, places) {
        Some(table) => Ok(table),
        // Names differ, and each device has the place of a schema.
        None => unreachable!(),
    }
}

// What was declared, with its text.
fn decls_of(alloc: Global, text: &[u8], declared: Declared) -> Result<Decls, Memory>
    requires { AreDeclared declared }
    ensures decls { IfOk result (λ decls. decls ≡ decls_with text.now declared) }
    ensures lawful { IsTrue (is_opening declared) → IfOk result AreDecls }
{
    let table = table_of(alloc, &declared)?;
    let text = Row::of_copies(alloc, text)?;
    Ok(declared.into_decls(text, table))
}

// What a device accepts. It shares the schema.
fn accept_of(alloc: Global, schemas: &[Schema], device: &Device) -> Result<Accept, Memory>
    ensures { IfOk result (λ accept. accept ≡ accept_of schemas.now device.now) }
{
    let plain = Schema::plain(alloc);
    Ok(Accept {
        schema: schema_in(schemas, device.schema, &plain).copy(alloc)?,
        max: device.max.copy(alloc)?,
        forbid: device.forbid.copy(alloc)?,
    })
}

// What each device accepts.
fn accepts_of(alloc: Global, schemas: &[Schema], devices: &[Device]) -> Result<Row<Accept>, Memory>
    ensures { IfOk result (λ accepts. accepts ≡ map (accept_of schemas.now) devices.now) }
{
    let mut accepts = Row::new(alloc);
    for device in devices {
        accepts.push(accept_of(alloc, schemas, device)?)?;
    }
    Ok(accepts)
}

// What was declared where the declarations end.
fn bundle_at(
    alloc: Global,
    bytes: &[u8],
    front: &Behind<'_>,
    declared: Declared,
) -> Result<Bundle, Memory>
    requires known { AreDeclared declared }
    requires opened { IsTrue (is_opening declared) }
    requires size { front.now.size ≤ length bytes.now }
    ensures bundle { IfOk result (λ bundle. bundle ≡ bundle_at bytes.now (front_left declared front.now)) }
    ensures lawful { IfOk result (λ bundle. AreDecls bundle.decls) }
{
    let accepts = accepts_of(
        alloc,
        declared.schemas.as_slice(),
        declared.devices.as_slice(),
    )?;
    let decls = decls_of(alloc, &bytes[..front.size], declared)?;
    Ok(Bundle {
        decls,
        accepts,
        rest: front.at as usize,
        line: front.number,
    })
}

/// Reads what a bundle declares: its lines up to the line `script`, or all where there is none. Of a fault
/// it says what in particular it is.
pub fn read_declarations_explained(alloc: Global, bytes: &[u8]) -> Result<Bundle, ExplainedFault>
    // The one answer, unless memory runs out.
    ensures gives { Explains (on_ok (declarations_in bytes.now) (λ front. Ok (bundle_at bytes.now front))) result }
    // What is read is lawful.
    ensures lawful { IfOk result (λ bundle. AreDecls bundle.decls) }
    ensures sound { IfOk result (λ bundle. All IsSound bundle.decls.schemas) }
    ensures script { IfOk result (BeginsScript bytes.now) }
{
    let mut declared = nothing_declared(alloc)?;
    let front = match read_declared(alloc, bytes, &mut declared) {
        Ok(front) => front,
        Err(fault) => return Err(fault),
    };
    match bundle_at(alloc, bytes, &front, declared) {
        Ok(bundle) => Ok(bundle),
        Err(Memory) => Err(ExplainedFault::Memory),
    }
}

/// Reads what a bundle declares: its lines up to the line `script`, or all where there is none.
pub fn read_declarations(alloc: Global, bytes: &[u8]) -> Result<Bundle, BundleFault>
    // The one answer, unless memory runs out.
    ensures gives { Gives (on_ok (declarations_in bytes.now) (λ front. Ok (bundle_at bytes.now front))) result }
    // What is read is lawful.
    ensures lawful { IfOk result (λ bundle. AreDecls bundle.decls) }
    ensures sound { IfOk result (λ bundle. All IsSound bundle.decls.schemas) }
    ensures script { IfOk result (BeginsScript bytes.now) }
{
    match read_declarations_explained(alloc, bytes) {
        Ok(bundle) => Ok(bundle),
        Err(fault) => Err(plain_fault(fault)),
    }
}
