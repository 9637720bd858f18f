//! Why a line was not taken, and what is answered of a line at fault.
ghost use Rattle.std.specs.Prelude.{◌≡◌, Err};
ghost use Rattle.orc_lines.specs.Answers.{explained_at, plain_fault};

use crate::detail::{BuildPlace, Detail, WrongSchema};
use orc_decls::{BundleFault, Rule};
use orc_text::{Memory, Row};

/// Why a line was not taken.
#[derive(Drop)]
pub enum LineFault {
    /// The line breaks this rule, and none before it. Beside it stands what in particular is at fault.
    Breaks(Rule, Detail),
    /// Memory ran out.
    Memory,
}

impl From<Memory> for LineFault {
    ghost use Rattle.orc_lines.specs.declared.fault.LineFault.TheVariants as fault;

    ghost from_gives = { λ _ e. e ≡ fault.Memory };

    fn from(_: Memory) -> LineFault {
        LineFault::Memory
    }
}

/// A line that breaks a rule, of which the rule and the line's text say all.
pub fn breaks<T>(rule: Rule) -> Result<T, LineFault>
    ensures { result ≡ Err (LineFault.Breaks rule Detail.Plain) }
{
    Err(LineFault::Breaks(rule, Detail::Plain))
}

/// A line that breaks a rule, with what in particular is at fault.
pub fn breaks_by<T>(rule: Rule, detail: Detail) -> Result<T, LineFault>
    ensures { result ≡ Err (LineFault.Breaks rule detail) }
{
    Err(LineFault::Breaks(rule, detail))
}

/// Why bytes were not read, with what in particular is at fault.
#[derive(Drop)]
pub enum ExplainedFault {
    /// The first line at fault, counted from 1, and the first rule that it breaks.
    At {
        line: u64,
        rule: Rule,
        detail: Detail,
    },
    /// Memory could not be had.
    Memory,
}

impl From<Memory> for ExplainedFault {
    ghost use Rattle.orc_lines.specs.declared.fault.ExplainedFault.TheVariants as fault;

    ghost from_gives = { λ _ e. e ≡ fault.Memory };

    fn from(_: Memory) -> ExplainedFault {
        ExplainedFault::Memory
    }
}

/// The line and the rule alone.
pub fn plain_fault(fault: ExplainedFault) -> BundleFault
    ensures { result ≡ plain_fault fault }
{
    match fault {
        ExplainedFault::At {
            line,
            rule,
            detail: _,
        } => BundleFault::At { line, rule },
        ExplainedFault::Memory => BundleFault::Memory,
    }
}

/// What a fault of the line of this number is.
pub fn at_line(number: u64, fault: LineFault) -> ExplainedFault
    ensures { result ≡ explained_at number fault }
{
    match fault {
        LineFault::Breaks(rule, detail) => ExplainedFault::At {
            line: number,
            rule,
            detail,
        },
        LineFault::Memory => ExplainedFault::Memory,
    }
}

// A detail with the numbers of the lines `yang N` of the modules that are declared.
fn detail_with(detail: Detail, lines: Row<u64>) -> Detail {
    match detail {
        Detail::Schema(wrong) => Detail::Schema(WrongSchema {
            fault: wrong.fault,
            place: BuildPlace {
                lines,
                ..wrong.place
            },
        }),
        _ => detail,
    }
}

/// A fault with the numbers of the lines `yang N` of the modules that are declared, in that order.
pub fn with_lines(fault: ExplainedFault, lines: Row<u64>) -> ExplainedFault
    ensures { plain_fault result ≡ plain_fault fault }
{
    match fault {
        ExplainedFault::At { line, rule, detail } => ExplainedFault::At {
            line,
            rule,
            detail: detail_with(detail, lines),
        },
        ExplainedFault::Memory => ExplainedFault::Memory,
    }
}
