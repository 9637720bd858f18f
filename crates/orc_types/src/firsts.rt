//! The value of the first enum of each name, in the order of the names: however these are chosen, one is found in time
//! that grows with the logarithm of how many there are.
ghost use Rattle.std.specs.Prelude.{◌≡◌, ℕ, List, cond, Some, None, OnOk};
ghost use Rattle.std.specs.Option.{option_or};
ghost use Rattle.orc_value.specs.Canon.{same_text};
ghost use Rattle.orc_types.specs.inside.Running.{by_name};

use orc_text::Memory;
use std::collections::BTreeMap;

// Adds a value under its name, where there is none yet.
pub(crate) fn add_first<'m>(
    firsts: &mut BTreeMap<&'m str, i32>,
    name: &'m str,
    value: i32,
) -> Result<(), Memory>
    ensures { OnOk result ((q : List ℕ) → by_name firsts.new q
        ≡ option_or (by_name firsts.old q) (cond (same_text name.now q) (Some value) None)) }
{
    match firsts.get(name) {
        Some(_) => Ok(()),
        None => {
            firsts.insert(name, value)?;
            Ok(())
        },
    }
}

// What a map has under a name.
pub(crate) fn named(firsts: &BTreeMap<&str, i32>, name: &str) -> Option<i32>
    ensures { result ≡ by_name firsts.now name.now }
{
    firsts.get(name).copied()
}
