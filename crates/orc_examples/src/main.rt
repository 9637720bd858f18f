//! Runs each example of a folder, of the one that it is started in where no word names another, and
//! says of which it doesn't do what stands beside it.
//!
//! `NAME.orc` is a bundle that is run to its end over an empty disk and must print `NAME.out`.
//! `NAME.case` has bundles of its own and runs of them, over disks, sources and sinks that fail where
//! it says so; `case` says how it is written.
#![tactic(auto)]

mod block;
mod case;
mod faults;
mod file;
mod row;
mod run;
mod said;
mod settings;

use crate::case::Case;
use crate::faults::faults;
use crate::run::run_to_end;
use std::fs::File;
use std::process::ExitCode;
use std::rt::{Env, Files};
use std::{env, fs, io};

// Ends with 0 where each example does what it must.
fn main(rt: HostRuntime) -> ExitCode {
    match run_all(&rt) {
        Ok(true) => ExitCode::SUCCESS,
        Ok(false) => ExitCode::FAILURE,
        Err(error) => {
            let _ = println!(rt; "{error}");
            ExitCode::FAILURE
        }
    }
}

// Runs the folder that the first word names, or else the one that the program is started in.
fn run_all<R: Files<File = File> + Env + Print + AllocGlobal + Clone + Drop>(
    rt: &R,
) -> io::Result<bool> {
    let mut words = env::args(rt)?;
    let _program = words.next();
    match words.next() {
        Some(folder) => run_folder(rt, folder.as_str()),
        None => run_folder(rt, "."),
    }
}

// Prints a line for each example that differs, in the order of their names, and one line where none does.
fn run_folder<R: Files<File = File> + Print + AllocGlobal + Clone + Drop>(
    rt: &R,
    folder: &str,
) -> io::Result<bool> {
    let files = files(rt, folder)?;
    let good = faults(rt)? && !files.is_empty();
    let good = run_each(rt, folder, files.as_slice())? && good;
    if good {
        println!(rt; "each example: as it must be")?;
    }
    Ok(good)
}

// Prints a line for each example that differs, and says whether none does.
fn run_each<R: Files<File = File> + Print + AllocGlobal>(
    rt: &R,
    folder: &str,
    files: &[String],
) -> io::Result<bool> {
    let mut good = true;
    for file in files {
        if !is_as_it_must_be(rt, folder, files, file.as_str())? {
            println!(rt; "{file}: DIFFERS")?;
            good = false;
        }
    }
    Ok(good)
}

// The names of the files in the folder, in order.
fn files<R: Files + AllocGlobal + Clone + Drop>(rt: &R, folder: &str) -> io::Result<Vec<String>> {
    let mut names = Vec::new(rt.alloc());
    for entry in fs::read_dir(rt, folder)? {
        names.push(String::from_str(rt.alloc(), entry?.file_name())?)?;
    }
    names.sort()?;
    Ok(names)
}

// Whether the file, where it is part of an example, does what it must.
fn is_as_it_must_be<R: Files<File = File> + Print + AllocGlobal>(
    rt: &R,
    folder: &str,
    files: &[String],
    file: &str,
) -> io::Result<bool> {
    if let Some(name) = file.strip_suffix(".orc") {
        return is_bundle_as_it_must_be(rt, folder, name);
    }
    if let Some(name) = file.strip_suffix(".out") {
        let bundle = format!(in rt.alloc(); "{name}.orc")?;
        return Ok(files.contains(&bundle));
    }
    if let Some(name) = file.strip_suffix(".case") {
        return is_case_as_it_must_be(rt, folder, name);
    }
    Ok(true)
}

// Whether the bundle is run to its end and prints what stands beside it.
fn is_bundle_as_it_must_be<R: Files + Print + AllocGlobal>(
    rt: &R,
    folder: &str,
    name: &str,
) -> io::Result<bool> {
    let alloc = rt.alloc();
    let bundle = fs::read(rt, format!(in alloc; "{folder}/{name}.orc")?.as_str())?;
    let Ok(wanted) = fs::read(rt, format!(in alloc; "{folder}/{name}.out")?.as_str()) else {
        return Ok(false);
    };
    Ok(run_to_end(alloc, bundle, wanted.as_slice())?)
}

// Whether each run of the case does what stands beside it.
fn is_case_as_it_must_be<R: Files<File = File> + Print + AllocGlobal>(
    rt: &R,
    folder: &str,
    name: &str,
) -> io::Result<bool> {
    let text = fs::read_to_string(rt, format!(in rt.alloc(); "{folder}/{name}.case")?.as_str())?;
    let mut case = Case::new(rt.alloc(), text.as_str());
    Ok(case.run_all(rt, name)? && case.runs() > 0)
}
