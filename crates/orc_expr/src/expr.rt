//! Expressions and conditions.
ghost use Rattle.std.specs.Prelude.{◌≡◌, IfOk};

use orc_path::Name;
use orc_text::{Copied, Memory, Row, Text};
use std::alloc::Global;

/// Why a text is no expression or no condition.
#[derive(Clone, Copy, Debug, PartialEq, Eq)]
pub enum ExprFault {
    /// The text is none; `at` is the length in bytes of its longest prefix that is a prefix of one.
    Bad { at: u64 },
    /// Memory could not be had.
    Memory,
}

impl From<Memory> for ExprFault {
    ghost use Rattle.orc_expr.specs.declared.expr.ExprFault.TheVariants as fault;
    ghost use Rattle.std.specs.Prelude.{◌≡◌};

    ghost from_gives = { λ _ e. e ≡ fault.Memory };

    fn from(_: Memory) -> ExprFault {
        ExprFault::Memory
    }
}

/// Why an expression gave no answer.
#[derive(Clone, Copy, Debug, PartialEq, Eq)]
pub enum EvalFault {
    /// The term of a predicate gave more than one text.
    Many,
    /// Memory could not be had.
    Memory,
}

impl From<Memory> for EvalFault {
    ghost use Rattle.orc_expr.specs.declared.expr.EvalFault.TheVariants as fault;
    ghost use Rattle.std.specs.Prelude.{◌≡◌};

    ghost from_gives = { λ _ e. e ≡ fault.Memory };

    fn from(_: Memory) -> EvalFault {
        EvalFault::Memory
    }
}

/// A part of an expression, in the order of the text.
#[derive(Drop)]
pub(crate) enum Part {
    /// `.`, the context.
    Here,
    /// `/` and a top node's name, which has its module.
    FromRoot(Name),
    /// So many `../`, and the name of a node below the one reached.
    FromContext(u64, Name),
    /// `/` and the name of a node below those before.
    Below(Name),
    /// A text in quotes, as a predicate's term.
    Quoted(Text),
    /// `[`, a key's name and `=`. The term follows, and `Close`.
    Open(Name),
    /// `]`.
    Close,
}

impl Part {
    /// An equal part.
    pub(crate) fn copy(&self, alloc: Global) -> Result<Part, Memory>
        ensures { IfOk result (λ part. part ≡ self.now) }
    {
        match self {
            Part::Here => Ok(Part::Here),
            Part::FromRoot(name) => Ok(Part::FromRoot(name.copy(alloc)?)),
            Part::FromContext(ups, name) => Ok(Part::FromContext(*ups, name.copy(alloc)?)),
            Part::Below(name) => Ok(Part::Below(name.copy(alloc)?)),
            Part::Quoted(text) => Ok(Part::Quoted(text.copy(alloc)?)),
            Part::Open(key) => Ok(Part::Open(key.copy(alloc)?)),
            Part::Close => Ok(Part::Close),
        }
    }
}

impl Copied for Part {
    fn copied(&self, alloc: Global) -> Result<Part, Memory> {
        self.copy(alloc)
    }
}

/// An expression: a place in a configuration, as seen from a context. Its parts stand in one row,
/// predicates inside one another too, so that nothing recurs on it.
#[derive(Drop)]
pub struct Expr {
    pub(crate) parts: Row<Part>,
}

impl Expr {
    /// An equal expression.
    pub fn copy(&self, alloc: Global) -> Result<Expr, Memory>
        ensures { IfOk result (λ expr. expr ≡ self.now) }
    {
        Ok(Expr {
            parts: self.parts.copy(alloc)?,
        })
    }
}

impl Copied for Expr {
    fn copied(&self, alloc: Global) -> Result<Expr, Memory> {
        self.copy(alloc)
    }
}

/// What a condition asks of the texts of its expression: that there is one at all, that there is
/// exactly one and it is this text, or that there is exactly one and it isn't.
#[derive(Drop)]
pub enum Test {
    Any,
    Equals(Text),
    Differs(Text),
}

impl Test {
    /// An equal test.
    pub fn copy(&self, alloc: Global) -> Result<Test, Memory>
        ensures { IfOk result (λ test. test ≡ self.now) }
    {
        match self {
            Test::Any => Ok(Test::Any),
            Test::Equals(text) => Ok(Test::Equals(text.copy(alloc)?)),
            Test::Differs(text) => Ok(Test::Differs(text.copy(alloc)?)),
        }
    }
}

impl Copied for Test {
    fn copied(&self, alloc: Global) -> Result<Test, Memory> {
        self.copy(alloc)
    }
}

/// A condition: an expression, alone or compared with a text.
#[derive(Drop)]
pub struct Cond {
    pub expr: Expr,
    pub test: Test,
}

impl Cond {
    /// An equal condition.
    pub fn copy(&self, alloc: Global) -> Result<Cond, Memory>
        ensures { IfOk result (λ cond. cond ≡ self.now) }
    {
        Ok(Cond {
            expr: self.expr.copy(alloc)?,
            test: self.test.copy(alloc)?,
        })
    }
}

impl Copied for Cond {
    fn copied(&self, alloc: Global) -> Result<Cond, Memory> {
        self.copy(alloc)
    }
}
