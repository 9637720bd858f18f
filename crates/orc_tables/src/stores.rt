//! What changes between small configurations, and what a store makes of a service that goes from entry to entry of a
//! long list. It has no lines: the word is `stores`.

mod items;
mod rounds;
mod shown;
mod small;

use crate::shown::Shown;
use crate::stores::rounds::push_rounds;
use crate::stores::small::{push_between, push_store};
use crate::table::tell;
use crate::undone::Undone;
use std::io;
use std::marker::Brand;
use std::sync::ledger::Blank;

/// Prints what is shown, and says whether all is.
pub(crate) fn run<R: Print + AllocGlobal>(rt: &R) -> io::Result<bool> {
    let mut out = Shown::new(rt.alloc());
    let done = push_all(&mut out);
    tell(rt, out.as_str(), done)
}

// Adds all that is shown.
fn push_all(out: &mut Shown) -> Result<(), Undone> {
    push_between(out)?;
    push_store::<Brand>(out, Blank::new(1))?;
    push_rounds(out)
}
