//! Reads a configuration as JSON under YANG modules, checks it, and writes it again.
//!
//! The words are two files: YANG modules, one after the other, and the JSON text (RFC 7951). What is
//! printed is the configuration's JSON, without white space, or the first fault.
#![tactic(auto)]

use orc_check::{CheckFault, valid};
use orc_json::{JsonFault, read, write};
use orc_path::Path;
use orc_schema::{Build, Schema};
use orc_text::Memory;
use orc_tree::Tree;
use orc_yang::parse;
use std::alloc::Global;
use std::process::ExitCode;
use std::rt::{Env, Files};
use std::{env, fs, io};

// What is found in a text.
enum Outcome {
    Json(String),
    Fault(String),
}

// Ends with 0 where the configuration was printed.
fn main(rt: HostRuntime) -> ExitCode {
    match run(&rt) {
        Ok(true) => ExitCode::SUCCESS,
        Ok(false) => ExitCode::FAILURE,
        Err(error) => {
            let _ = eprintln!(rt; "{error}");
            ExitCode::FAILURE
        }
    }
}

// Reads the two files, and prints what is found.
fn run<R: Files<File = fs::File> + Env + Print + AllocGlobal>(rt: &R) -> io::Result<bool> {
    let mut words = env::args(rt)?;
    let _program = words.next();
    let (Some(modules), Some(json)) = (words.next(), words.next()) else {
        println!(rt; "orc_config MODULES JSON")?;
        return Ok(false);
    };
    let modules = fs::read_to_string(rt, modules.as_str())?;
    let json = fs::read_to_string(rt, json.as_str())?;
    match found(rt.alloc(), modules.as_str(), json.as_str()) {
        Ok(Outcome::Json(text)) => {
            println!(rt; "{}", text.as_str())?;
            Ok(true)
        }
        Ok(Outcome::Fault(text)) => {
            println!(rt; "{}", text.as_str())?;
            Ok(false)
        }
        Err(Memory) => {
            println!(rt; "memory is wanting")?;
            Ok(false)
        }
    }
}

// What a JSON text is under modules.
fn found(alloc: Global, modules: &str, json: &str) -> Result<Outcome, Memory> {
    let Some(schema) = schema_of(alloc, modules) else {
        return Ok(Outcome::Fault(String::from_str(alloc, "no schema")?));
    };
    match read(alloc, &schema, json.as_bytes()) {
        Ok(tree) => checked(alloc, &schema, &tree),
        Err(JsonFault::Syntax) => Ok(Outcome::Fault(String::from_str(alloc, "no JSON text")?)),
        Err(JsonFault::Bad { path, rule }) => fault(alloc, "JSON", &path, rule),
        Err(JsonFault::Memory) => Err(Memory),
    }
}

// The schema of modules.
fn schema_of(alloc: Global, modules: &str) -> Option<Schema> {
    match parse(alloc, modules.as_bytes()) {
        Ok(modules) => match Schema::build(alloc, modules.as_slice()) {
            Ok(schema) => Some(schema),
            Err(_) => None,
        },
        Err(_) => None,
    }
}

// A configuration as JSON, where it is valid.
fn checked(alloc: Global, schema: &Schema, tree: &Tree) -> Result<Outcome, Memory> {
    match valid(alloc, schema, tree) {
        Ok(()) => match String::from_utf8(write(alloc, schema, tree)?) {
            Ok(text) => Ok(Outcome::Json(text)),
            Err(_) => Err(Memory),
        },
        Err(CheckFault::Broken { path, rule }) => fault(alloc, "validity", &path, rule),
        Err(CheckFault::Memory) => Err(Memory),
    }
}

// A rule that is broken at a path.
fn fault(alloc: Global, kind: &str, path: &Path, rule: u8) -> Result<Outcome, Memory> {
    let mut text = String::from_str(alloc, kind)?;
    text.push_str(" ")?;
    text.push_str(path.text(alloc)?.as_str())?;
    text.push_str(" ")?;
    text.push_str(rule.to_string(alloc)?.as_str())?;
    Ok(Outcome::Fault(text))
}
