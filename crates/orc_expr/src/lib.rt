//! Expressions over a configuration, what they read, and which writes touch that.
//!
//! `Expr` is a place in a configuration as seen from a context, and `Cond` a condition on its texts.
//! Both are read from texts (`parse`) and looked at in any `DataView` (`eval`, `nodes`, `holds`); each
//! look adds exactly what it read to a `ReadSet`, and two views that share this give the same. Of
//! `first_touch` and `covers` the first finds the write that changes what was read, and the second
//! says whether a call may make one.
#![tactic(auto)]

mod alphabet;
mod choosing;
mod eval;
mod expr;
mod following;
mod laws;
mod looked;
mod looks;
mod mode;
mod nodes;
mod parse;
mod read;
mod reader;
mod resolving;
mod step;
mod touch;

pub use expr::{Cond, EvalFault, Expr, ExprFault, Test};
pub use laws::{looks_are_fixed_by_reads, untouched_is_shared};
pub use read::{Read, ReadSet, Target};
pub use touch::{covers, first_touch};
