//! Reading of the declarations line by line.
ghost use Rattle.std.specs.Prelude.{◌≡◌, IfOk, OnOk, IsTrue};
ghost use Rattle.orc_lines.specs.Lines.{lines_of};
ghost use Rattle.orc_declarations.specs.Declarations.{declarations_of, is_opening, nothing_declared};
ghost use Rattle.orc_lines.specs.Lawful.{AreDeclared};
ghost use Rattle.orc_declarations.specs.Answers.{Declares, EndsWithin, IsOpened};

use crate::declarations::take_line;
use crate::opening::broken_opening;
use orc_decls::Rule;
use orc_lines::{Declared, ExplainedFault, Section, at_line, first_line, with_lines};
use orc_schema::Looks;
use orc_text::{Memory, Row};
use std::alloc::Global;

/// What is left where the declarations end.
#[derive(Drop)]
pub struct Behind<'a> {
    /// The bytes before the line `script`, or all of them where there is none.
    pub size: usize,
    /// The bytes and the lines before the script.
    pub at: u64,
    pub number: u64,
    /// The bytes of the script.
    pub later: &'a [u8],
}

// That the opening data is valid and each device accepts its base, where the declarations end in the
// line of this number.
fn check_opening(alloc: Global, declared: &Declared, number: u64) -> Result<(), ExplainedFault>
    requires { AreDeclared declared.now }
    ensures { IsOpened declared.now number result }
{
    match broken_opening(alloc, declared)? {
        None => Ok(()),
        Some(detail) => Err(ExplainedFault::At {
            line: number,
            rule: Rule::Opening,
            detail,
        }),
    }
}

// Notes the number of a line where it declared a module: there are more of them than there were.
fn note_module(lines: &mut Row<u64>, number: u64, declared: &Declared) -> Result<(), Memory> {
    if lines.len() < declared.statements.len() {
        return lines.push(number);
    }
    Ok(())
}

/// Reads the declarations: up to the line `script`, or all lines where there is none. Nothing is declared
/// before. After a fault it has what the lines before that declared.
pub(crate) fn read_declared<'a>(
    alloc: Global,
    bytes: &'a [u8],
    declared: &mut Declared,
) -> Result<Behind<'a>, ExplainedFault>
    requires nothing { declared.old ≡ nothing_declared }
    requires lawful { AreDeclared declared.old }
    ensures answer { Declares (declarations_of declared.old 0 0 (lines_of bytes.now)) declared.new result }
    ensures lawful { OnOk result (AreDeclared declared.new) }
    ensures opened { OnOk result (IsTrue (is_opening declared.new)) }
    ensures within { IfOk result (EndsWithin bytes.now) }
{
    let looks = Looks::new();
    let mut lines = Row::new(alloc);
    let mut rest = bytes;
    let mut at = 0;
    let mut number = 0;
    'lines: while !rest.is_empty() {
        let (line, later) = first_line(rest);
        number += 1;
        if let Err(fault) = take_line(alloc, declared, at, line, later, &looks) {
            return Err(with_lines(at_line(number, fault), lines));
        }
        note_module(&mut lines, number, declared)?;
        let begin = at;
        at += line.len() as u64;
        rest = later;
        if declared.section == Section::Script {
            check_opening(alloc, declared, number)?;
            return Ok(Behind {
                size: begin as usize,
                at,
                number,
                later,
            });
        }
    }
    check_opening(alloc, declared, number + 1)?;
    Ok(Behind {
        size: bytes.len(),
        at,
        number,
        later: rest,
    })
}
