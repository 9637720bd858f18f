//! Expressions and conditions of strings.
ghost use Rattle.std.specs.Prelude.{◌≡◌, IfOk, option_map};
ghost use Rattle.orc_expr.specs.Parts.{expression_of, condition_of};
ghost use Rattle.orc_template.specs.inside.Machine.{the_readers};

use orc_expr::{Cond, Expr, ExprFault};
use orc_text::Memory;
use std::alloc::Global;

/// The expression of this text, where there is one.
pub(crate) fn expression(alloc: Global, text: &str) -> Result<Option<Expr>, Memory>
    ensures { IfOk result (λ found. option_map expression_of found ≡ the_readers.expression text.now) }
{
    match Expr::parse(alloc, text) {
        Ok(expr) => Ok(Some(expr)),
        Err(ExprFault::Bad { at: _ }) => Ok(None),
        Err(ExprFault::Memory) => Err(Memory),
    }
}

/// The condition of this text, where there is one.
pub(crate) fn condition(alloc: Global, text: &str) -> Result<Option<Cond>, Memory>
    ensures { IfOk result (λ found. option_map condition_of found ≡ the_readers.condition text.now) }
{
    match Cond::parse(alloc, text) {
        Ok(cond) => Ok(Some(cond)),
        Err(ExprFault::Bad { at: _ }) => Ok(None),
        Err(ExprFault::Memory) => Err(Memory),
    }
}
