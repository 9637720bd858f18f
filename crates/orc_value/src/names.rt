//! The names of an enumeration.
ghost use Rattle.std.specs.Prelude.{◌≡◌, IfOk};
ghost use Rattle.std.specs.Cmp.Lexicographic.{pointwise, nat_list_eq_equiv, lists_per, lists_equiv};
ghost use Rattle.std.specs.Cmp.{partial_equiv_from_equiv};
ghost use Rattle.std.specs.Prelude.{nat_eq};
ghost use Rattle.orc_value.specs.inside.Sets.{HasAll};

use orc_text::{Copied, Memory, Row, Text};
use std::alloc::Global;
use std::collections::BTreeSet;
use std::fmt::{self, Debug, Formatter, Write};
use std::marker::Model;

/// Names in their order. Each is found in time that grows with the logarithm of how many there are,
/// whatever they are.
#[derive(Drop)]
pub struct Names {
    names: Row<Text>,
    pub(crate) set: BTreeSet<String>,
}

impl Model for Names {
    ghost use Rattle.std.specs.Prelude.{List, ℕ};
    ghost use Rattle.orc_value.specs.inside.Sets.{HasAll};

    ghost Value = { List (List ℕ) };

    ghost view = { λ all. all.names };

    ghost invariant = { λ all. HasAll all.set all.names };
}

// The set of the names.
fn set_of(alloc: Global, names: &[Text]) -> Result<BTreeSet<String>, Memory>
    ensures { IfOk result (λ set. HasAll set names.now) }
{
    let mut set = BTreeSet::new(alloc);
    for name in names {
        set.insert(String::from_str(alloc, name.as_str())?)?;
    }
    Ok(set)
}

impl Names {
    /// These names, in this order.
    pub fn from_row(alloc: Global, names: Row<Text>) -> Result<Names, Memory>
        ensures { IfOk result (λ made. made ≡ names) }
    {
        let set = set_of(alloc, names.as_slice())?;
        Ok(Names { names, set })
    }

    /// The names.
    pub fn as_slice(&self) -> &[Text]
        ensures { result.now ≡ self.now }
    {
        self.names.as_slice()
    }

    /// Equal names.
    pub fn copy(&self, alloc: Global) -> Result<Names, Memory>
        ensures { IfOk result (λ copy. copy ≡ self.now) }
    {
        Names::from_row(alloc, self.names.copy(alloc)?)
    }
}

impl Copied for Names {
    fn copied(&self, alloc: Global) -> Result<Names, Memory> {
        self.copy(alloc)
    }
}

impl Debug for Names {
    fn fmt<W: Write>(&self, f: &mut Formatter<W>) -> fmt::Result {
        self.names.fmt(f)
    }
}

impl PartialEq for Names {
    ghost eq = { pointwise (pointwise nat_eq) };

    ghost laws = { lists_per (partial_equiv_from_equiv nat_list_eq_equiv) };

    fn eq(&self, other: &Names) -> bool {
        self.names == other.names
    }
}

impl Eq for Names {
    ghost laws = { lists_equiv nat_list_eq_equiv };
}
