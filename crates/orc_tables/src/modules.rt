//! Schemas of YANG modules.
use crate::undone::Undone;
use orc_schema::{Build, Schema};
use orc_yang::parse;
use std::alloc::Global;

/// The schema of modules, where they make one.
pub(crate) fn schema_of(alloc: Global, modules: &str) -> Result<Schema, Undone> {
    match parse(alloc, modules.as_bytes()) {
        Ok(modules) => match Schema::build(alloc, modules.as_slice()) {
            Ok(schema) => Ok(schema),
            Err(_) => Err(Undone),
        },
        Err(_) => Err(Undone),
    }
}
