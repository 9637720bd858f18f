//! What the program takes, for the parser of command lines.
ghost use Rattle.std.specs.Prelude.{◌≡◌, IfOk, false};
ghost use Rattle.clap.specs.Words.{app_of, rule_of};
ghost use Rattle.clap.specs.declared.builder.command.Command.TheViews.{out-Command};
ghost use Rattle.orc_words.specs.Interface.{bare_program, check_interface, gen_interface, history_interface, journal_option, number_argument, program, reading_program, run_interface};

use clap::{Arg, Command};
use std::alloc::{AllocError, Global};

/// The program with its commands.
pub(crate) fn program<'a>(alloc: Global) -> Result<Command<'a>, AllocError>
    ensures { IfOk result (λ command. app_of command ≡ program) }
{
    reading_program(alloc)?.subcommand(gen_command(alloc)?)
}

// The program with the commands that read a bundle.
fn reading_program<'a>(alloc: Global) -> Result<Command<'a>, AllocError>
    ensures { IfOk result (λ command. app_of command ≡ reading_program) }
{
    bare_program(alloc)?
        .subcommand(check_command(alloc))?
        .subcommand(run_command(alloc)?)?
        .subcommand(history_command(alloc)?)
}

// The program without its commands. Its name stands in what is said of them (`Usage: orc run`).
fn bare_program<'a>(alloc: Global) -> Result<Command<'a>, AllocError>
    ensures { IfOk result (λ command. app_of command ≡ bare_program) }
{
    let program = Command::new(alloc, "orc").bin_name("orc")?;
    Ok(
        program
            .about(
                "Orchestrates network services: a bundle on standard input declares devices and calls on services",
            )
            .version("0.1.0")
            .no_binary_name(true)
            .disable_help_subcommand(true)
            .subcommand_required(true)
            .arg_required_else_help(true),
    )
}

// `check`.
fn check_command<'a>(alloc: Global) -> Command<'a>
    ensures app { app_of result ≡ check_interface }
    ensures local { (out-Command result).has_globals ≡ false }
{
    Command::new(alloc, "check").about(
        "Reads the bundle on standard input (`< FILE`), and prints how many devices and steps it has",
    )
}

// `run`.
fn run_command<'a>(alloc: Global) -> Result<Command<'a>, AllocError>
    ensures app { IfOk result (λ command. app_of command ≡ run_interface) }
    ensures local { IfOk result (λ command. (out-Command command).has_globals ≡ false) }
{
    Command::new(alloc, "run")
        .about(
            "Runs the script of the bundle on standard input (`< FILE`), and prints what each step gives",
        )
        .arg(journal_option(alloc))
}

// `history`.
fn history_command<'a>(alloc: Global) -> Result<Command<'a>, AllocError>
    ensures app { IfOk result (λ command. app_of command ≡ history_interface) }
    ensures local { IfOk result (λ command. (out-Command command).has_globals ≡ false) }
{
    Command::new(alloc, "history")
        .about(
            "Prints the journal's calls, under the declarations of the bundle on standard input (`< FILE`)",
        )
        .arg(journal_option(alloc))
}

// `gen`.
fn gen_command<'a>(alloc: Global) -> Result<Command<'a>, AllocError>
    ensures app { IfOk result (λ command. app_of command ≡ gen_interface) }
    ensures local { IfOk result (λ command. (out-Command command).has_globals ≡ false) }
{
    Command::new(alloc, "gen")
        .about(
            "Makes a bundle of DEVICES (1 to 64) and CALLS (0 to 5000), drawn from NUMBER, runs it and sums it up",
        )
        .arg(number_argument(alloc, "NUMBER"))?
        .arg(number_argument(alloc, "DEVICES"))?
        .arg(number_argument(alloc, "CALLS"))?
        .arg(journal_option(alloc))
}

// An argument that must stand.
fn number_argument<'a>(alloc: Global, name: &'a str) -> Arg<'a>
    ensures rule { rule_of result ≡ number_argument name.now }
    ensures local { result.global ≡ false }
{
    Arg::new(alloc, name).required(true)
}

// `--journal FILE`.
fn journal_option<'a>(alloc: Global) -> Arg<'a>
    ensures rule { rule_of result ≡ journal_option }
    ensures local { result.global ≡ false }
{
    Arg::new(alloc, "journal")
        .long("journal")
        .value_name("FILE")
        .help(
            "The file that holds the journal, which is made where it isn't there; without one the journal is in memory",
        )
}
