//! Which paths are entries of which lists.
ghost use Rattle.std.specs.Prelude.{◌≡◌};
ghost use Rattle.orc_path.specs.Configurations.{is_entry_of};
ghost use Rattle.orc_path.specs.inside.Entries.{is_entry_step};

use crate::{Path, Step};

// Whether the step of an entry is that of the list with keys.
fn is_entry_step(list: &Step, entry: &Step) -> bool
    ensures { result ≡ is_entry_step list.now entry.now }
{
    entry.keys.len() > 0 && list.keys.is_empty() && entry.node == list.node
}

// Whether the steps are those of an entry of the list.
fn are_entry_steps(list: &[Step], entry: &[Step]) -> bool
    ensures { result ≡ is_entry_of list.now entry.now }
{
    match entry.split_last() {
        Some((step, front)) => match list.split_last() {
            Some((list_step, list_front)) => {
                front == list_front && is_entry_step(list_step, step)
            }
            None => false,
        },
        None => false,
    }
}

impl Path {
    /// Whether it is the path of an entry of the list at the other path.
    pub fn is_entry_of(&self, list: &Path) -> bool
        ensures { result ≡ is_entry_of list.now self.now }
    {
        are_entry_steps(list.steps.as_slice(), self.steps.as_slice())
    }
}
