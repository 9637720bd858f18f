//! How the program begins and ends.
ghost use Rattle.std.specs.Prelude.{◌≡◌, ◌≤◌, ◌↔◌, IsOkAnd, IsTrue};
ghost use Rattle.std.specs.Process.{exit_status};

use std::process::ExitCode;
use std::rt::Env;
use std::{env, io};

/// The words that a program was given, after its own name.
pub(crate) fn given_words<R: Env + AllocGlobal>(rt: &R) -> io::Result<env::Args> {
    let mut words = env::args(rt)?;
    let _program = words.next();
    Ok(words)
}

/// The status of a program that found out whether all is as it must be: 0 exactly where it is, and 1 where it isn't or
/// that couldn't be found out. Why it couldn't is printed on standard output.
pub(crate) fn ended<R: Print>(rt: &R, good: io::Result<bool>) -> ExitCode
    ensures success { exit_status result ≡ 0 ↔ IsOkAnd good IsTrue }
    ensures failure { exit_status result ≤ 1 }
{
    if let Err(error) = &good {
        let _ = println!(rt; "{error}");
    }
    status_of(&good)
}

// The status alone.
fn status_of(good: &io::Result<bool>) -> ExitCode
    ensures success { exit_status result ≡ 0 ↔ IsOkAnd good.now IsTrue }
    ensures failure { exit_status result ≤ 1 }
{
    match good {
        Ok(true) => ExitCode::SUCCESS,
        _ => ExitCode::FAILURE,
    }
}
