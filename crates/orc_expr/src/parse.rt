//! Reads expressions and conditions.
ghost use Rattle.std.specs.Prelude.{◌≡◌, ℕ, List, true, false, IfOk, IfErr, IsTrue};
ghost use Rattle.orc_expr.specs.Expressions.{Expression, Condition, is_expression, expression_text, is_condition, condition_text};
ghost use Rattle.orc_expr.specs.Grammar.{IsExpressionText, IsConditionText, IsExprFault};
ghost use Rattle.orc_expr.specs.Parts.{expression_of, condition_of};
ghost use Rattle.orc_expr.specs.inside.Grammar.{IsText, IsReading};

use crate::expr::{Cond, Expr, ExprFault};
use crate::reader::Reader;
use std::alloc::Global;

// The condition of a text, or the expression of one.
fn read(alloc: Global, text: &str, conditional: bool) -> Result<Cond, ExprFault>
    ensures ok { IfOk result (λ cond. IsReading conditional text.now (condition_of cond)) }
    ensures fault { IfErr result (IsExprFault (IsText conditional) text.now) }
{
    let mut reader = Reader::new(alloc, conditional);
    let mut at = 0;
    for character in text.chars() {
        if !reader.take(alloc, character)? {
            return Err(ExprFault::Bad { at: at as u64 });
        }
        at += character.len_utf8();
    }
    match reader.finish(alloc)? {
        Some(cond) => Ok(cond),
        None => Err(ExprFault::Bad { at: at as u64 }),
    }
}

impl Expr {
    /// The expression of this text. `Bad { at }` comes exactly where the text is none; `at` is then
    /// the length in bytes of its longest prefix that is a prefix of some expression. Brackets inside
    /// one another are counted and not recurred on, so a long text costs no stack.
    pub fn parse(alloc: Global, text: &str) -> Result<Expr, ExprFault>
        ensures kind { IfOk result (λ expr. IsTrue (is_expression (expression_of expr))) }
        ensures text { IfOk result (λ expr. expression_text (expression_of expr) ≡ text.now) }
        // An expression's text is read as that expression.
        ensures again { (written : Expression) → IsTrue (is_expression written) → expression_text written ≡ text.now
            → IfOk result (λ expr. expression_of expr ≡ written) }
        ensures fault { IfErr result (IsExprFault IsExpressionText text.now) }
    {
        match read(alloc, text, false) {
            Ok(cond) => Ok(cond.expr),
            Err(fault) => Err(fault),
        }
    }
}

impl Cond {
    /// The condition of this text. `Bad { at }` comes exactly where the text is none; `at` is then
    /// the length in bytes of its longest prefix that is a prefix of some condition.
    pub fn parse(alloc: Global, text: &str) -> Result<Cond, ExprFault>
        ensures kind { IfOk result (λ cond. IsTrue (is_condition (condition_of cond))) }
        ensures text { IfOk result (λ cond. condition_text (condition_of cond) ≡ text.now) }
        // A condition's text is read as that condition.
        ensures again { (written : Condition) → IsTrue (is_condition written) → condition_text written ≡ text.now
            → IfOk result (λ cond. condition_of cond ≡ written) }
        ensures fault { IfErr result (IsExprFault IsConditionText text.now) }
    {
        match read(alloc, text, true) {
            Ok(cond) => Ok(cond),
            Err(fault) => Err(fault),
        }
    }
}
