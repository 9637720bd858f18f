//! The first definition of each name in a block.
ghost use Rattle.std.specs.Prelude.{◌≡◌, ℕ, List, cond, Some, None, IfOk, OnOk, is_some, option_map};
ghost use Rattle.std.specs.List.{find};
ghost use Rattle.std.specs.Option.{option_or};
ghost use Rattle.orc_value.specs.Canon.{same_text};
ghost use Rattle.orc_modules.specs.Statements.{defines};
ghost use Rattle.orc_modules.specs.inside.Blocks.{by_name};

use orc_text::Memory;
use orc_types::{argument, is_a};
use orc_yang::Stmt;
use std::alloc::Global;
use std::collections::BTreeMap;

// Adds a definition under its name, where there is none yet.
fn add_first<'m>(
    firsts: &mut BTreeMap<&'m str, &'m Stmt>,
    name: &'m str,
    here: &'m Stmt,
) -> Result<(), Memory>
    ensures { OnOk result ((q : List ℕ) → by_name firsts.new q
        ≡ option_or (by_name firsts.old q) (cond (same_text name.now q) (Some here.now) None)) }
{
    match firsts.get(name) {
        Some(_) => Ok(()),
        None => {
            firsts.insert(name, here)?;
            Ok(())
        },
    }
}

// Adds a statement where it is a definition of this keyword.
fn add_definition<'m>(
    keyword: &str,
    here: &'m Stmt,
    firsts: &mut BTreeMap<&'m str, &'m Stmt>,
) -> Result<(), Memory>
    ensures { OnOk result ((q : List ℕ) → by_name firsts.new q
        ≡ option_or (by_name firsts.old q) (cond (defines keyword.now q here.now) (Some here.now) None)) }
{
    if is_a(keyword, here) {
        return add_first(firsts, argument(here), here);
    }
    Ok(())
}

/// The first definition of each name in a block.
pub(crate) fn names_of<'m>(
    alloc: Global,
    keyword: &str,
    block: &'m [Stmt],
) -> Result<BTreeMap<&'m str, &'m Stmt>, Memory>
    ensures { IfOk result (λ firsts. (q : List ℕ) → by_name firsts q ≡ find (defines keyword.now q) block.now) }
{
    let mut firsts = BTreeMap::new(alloc);
    for here in block {
        add_definition(keyword, here, &mut firsts)?;
    }
    Ok(firsts)
}

/// What a map has under a name.
pub(crate) fn named<'m>(firsts: &BTreeMap<&'m str, &'m Stmt>, name: &str) -> Option<&'m Stmt>
    ensures { option_map (λ s. s.now) result ≡ by_name firsts.now name.now }
{
    firsts.get(name).copied()
}

/// Whether it has something there.
pub(crate) fn is_named(firsts: &BTreeMap<&str, &Stmt>, name: &str) -> bool
    ensures { result ≡ is_some (by_name firsts.now name.now) }
{
    firsts.contains_key(name)
}
