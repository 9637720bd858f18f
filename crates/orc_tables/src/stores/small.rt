//! Changes of configurations with one leaf.
ghost use Rattle.std.specs.Prelude.{◌≡◌, ◌<◌};

use crate::shown::Shown;
use crate::stores::items::{bring_first, holding_with, tree_with, unwritten};
use crate::stores::shown::{push_set, push_state};
use crate::undone::Undone;
use orc_change::{between, reverse};
use orc_io::Steps;
use orc_text::Text;
use orc_tree::Tree;
use std::alloc::Global;
use std::sync::ledger::{Blank, Ledger};

/// Adds the changes that lead from no item to a leaf, and those that lead back.
pub(crate) fn push_between(out: &mut Shown) -> Result<(), Undone> {
    let from = Tree::new(out.alloc);
    let to = tree_with(out.alloc, "/if:mtu", "9")?;
    let set = between(out.alloc, &from, &to)?;
    push_set(out, "between", &set)?;
    let back = reverse(out.alloc, &set, &from)?;
    push_set(out, "reverse", &back)
}

/// Adds what changes as a service writes a leaf that stands in the base, and what is known of that.
pub(crate) fn push_store<L: Ledger>(out: &mut Shown, blank: Blank) -> Result<(), Undone>
    requires name { blank.name ≡ L.name }
    requires parts { blank.parts ≡ L.parts }
    requires some { 0 < blank.parts }
{
    let base = tree_with(out.alloc, "/if:mtu", "1500")?;
    let service = Text::from_str(out.alloc, "a")?;
    let mut refs = unwritten(out.alloc, base, &service)?;
    let next = holding_with(out.alloc, "/if:mtu", "9000")?;
    let mut steps = Steps::<L>::new(blank);
    let set = bring_first(out.alloc, &mut refs, &service, &next, &mut steps)?;
    push_set(out, "store", &set)?;
    push_state(out, "store", &refs, "/if:mtu")
}
