//! The schema of modules that a line names.
ghost use Rattle.std.specs.Prelude.{◌≡◌, IfOk};
ghost use Rattle.orc_schema_nodes.specs.Sound.{IsSound};
ghost use Rattle.orc_declarations.specs.Declarations.{built_in_schema, schema_or_plain};
ghost use Rattle.orc_declarations.specs.Schemas.{schema_or_rule};
ghost use Rattle.orc_lines.specs.Answers.{ReadsLine};
ghost use Rattle.orc_declarations.specs.inside.Faults.{of_schema};

use crate::statements::orc_module;
use orc_decls::Rule;
use orc_lines::{BuildPlace, Detail, LineFault, WrongSchema};
use orc_schema::{Build, Looks, Schema, SchemaFault, schemas_are_sound};
use orc_text::{Memory, Row};
use orc_yang::Stmt;
use std::alloc::Global;

// What a fault of modules is, with where their build stood.
fn of_schema(fault: SchemaFault, place: BuildPlace) -> LineFault
    ensures { result ≡ of_schema fault place }
{
    match fault {
        SchemaFault::Memory => LineFault::Memory,
        _ => LineFault::Breaks(Rule::Schema, Detail::Schema(WrongSchema { fault, place })),
    }
}

// A number of a node, where there is one.
fn node_at(looks: &Looks) -> Option<u64> {
    match looks.node() {
        Some(node) => Some(node as u64),
        None => None,
    }
}

// Modules, of which these are the places among those that are declared, and where their build stands.
fn place_of(
    alloc: Global,
    modules: Row<Stmt>,
    places: Row<Option<u64>>,
    looks: &Looks,
) -> BuildPlace {
    BuildPlace {
        modules,
        places,
        lines: Row::new(alloc),
        module: looks.module() as u64,
        at: looks.at(),
        node: node_at(looks),
    }
}

/// The schema of modules, of which these are the places among those that are declared, within what may still be
/// looked at.
#[tactic(auto, unfolding(crate::specs::Schemas::schema_or_rule))]
pub(crate) fn schema_of(
    alloc: Global,
    modules: Row<Stmt>,
    places: Row<Option<u64>>,
    looks: &Looks,
) -> Result<Schema, LineFault>
    ensures reads { ReadsLine (schema_or_rule modules) result }
    ensures sound { IfOk result IsSound }
{
    schemas_are_sound();
    match Schema::build_within(alloc, modules.as_slice(), looks) {
        Ok(schema) => Ok(schema),
        Err(fault) => Err(of_schema(fault, place_of(alloc, modules, places, looks))),
    }
}

// The schema of modules that make one, else the plain one.
fn schema_or_plain(alloc: Global, modules: Row<Stmt>) -> Result<Schema, Memory>
    ensures { IfOk result (λ schema. schema ≡ schema_or_plain (schema_or_rule modules)) }
{
    match schema_of(alloc, modules, Row::new(alloc), &Looks::new()) {
        Ok(schema) => Ok(schema),
        Err(LineFault::Breaks(_, _)) => Ok(Schema::plain(alloc)),
        Err(LineFault::Memory) => Err(Memory),
    }
}

/// The schema of the built-in module alone.
pub(crate) fn built_in_schema(alloc: Global) -> Result<Schema, Memory>
    ensures { IfOk result (λ schema. schema ≡ built_in_schema) }
{
    let mut modules = Row::new(alloc);
    modules.push(orc_module(alloc)?)?;
    schema_or_plain(alloc, modules)
}
