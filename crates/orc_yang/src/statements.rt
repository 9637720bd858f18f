//! From bytes to statements.
ghost use Rattle.std.specs.Prelude.{◌≡◌, ◌<◌, ◌^◌, length, MatchResult, IfOk, IfErr, IsErrOf};
ghost use Rattle.std.specs.Str.{chars};
ghost use Rattle.orc_yang.specs.Text.{placed, next_column, IsTextOf};
ghost use Rattle.orc_yang.specs.Machine.{run, start};
ghost use Rattle.orc_yang.specs.Faults.{IsFault};
ghost use Rattle.orc_yang.specs.Parsing.{IsParseOf, ReadsNoOther, TellsUnclosed, FailsWith};
ghost use Rattle.orc_yang.specs.inside.Wanting.{RunMayTake};

use crate::character::Character;
use crate::parser::Parser;
use crate::{Stmt, YangFault};
use std::alloc::Global;
use std::str::from_utf8;

/// The statements that the bytes spell.
pub fn parse(alloc: Global, bytes: &[u8]) -> Result<Vec<Stmt>, YangFault>
    // The one answer, unless memory runs out.
    ensures answer { IsParseOf bytes.now result }
    // What is read is spelled so.
    ensures found { IfOk result (λ list. IsTextOf bytes.now list.items) }
    // What is spelled so is read, unless memory runs out, and as no other list.
    ensures only { ReadsNoOther bytes.now result }
    // Where bytes that are not UTF-8 cease to be; else what the fault means for the characters.
    // Memory is wanted only of a text that comes to a keyword.
    ensures faults { IfErr result (IsFault bytes.now) }
    // A string or a comment without end is the fault, whatever stands in it, unless memory runs out.
    ensures unclosed { TellsUnclosed bytes.now result }
{
    match from_utf8(bytes) {
        Ok(text) => read(alloc, text),
        Err(error) => Err(YangFault::NotUtf8 {
            at: error.valid_up_to() as u64,
        }),
    }
}

// The statements of a text.
fn read(alloc: Global, text: &str) -> Result<Vec<Stmt>, YangFault>
    ensures answer { MatchResult result
        (λ list. run (placed 0 1 (chars text.now)) start (length text.now) ≡ Ok list.items)
        (FailsWith (run (placed 0 1 (chars text.now)) start (length text.now))) }
    ensures memory { IsErrOf result YangFault.Memory → RunMayTake (placed 0 1 (chars text.now)) start }
{
    let end = text.len() as u64;
    let mut parser = Parser::new(alloc, text.len());
    let mut at = 0;
    let mut column = 1;
    for code in text.chars() {
        let next = at + code.len_utf8() as u64;
        let x = Character {
            code,
            at,
            last: next - 1,
            column,
        };
        parser.step(alloc, x)?;
        at = next;
        column = next_column(code, column);
    }
    parser.finish(end)
}

// The column after a character: a line break begins a line, and a tab counts as eight columns.
fn next_column(code: char, column: u128) -> u128
    requires { column < 2 ^ 100 }
    ensures { result ≡ next_column code column }
{
    match code {
        '\n' => 1,
        '\t' => column + 8,
        _ => column + 1,
    }
}
