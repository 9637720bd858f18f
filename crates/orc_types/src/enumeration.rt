//! The enums of a block so far, with what is asked of them without a look at each.
ghost use Rattle.std.specs.Prelude.{◌≡◌, ◌∷◌, ◌++◌, [], None, IfOk};
ghost use Rattle.std.specs.List.{list_any};
ghost use Rattle.orc_types.specs.Enums.{has_name, has_value, own_value};
ghost use Rattle.orc_types.specs.inside.Running.{higher, value_behind};

use crate::firsts::{add_first, named};
use crate::taken::Taken;
use crate::types::EnumName;
use orc_text::{Memory, Row, Text};
use std::alloc::Global;
use std::collections::BTreeMap;
use std::marker::Model;

/// Enums with their names and values, found without a look at the others, and the greatest value.
/// Contracts see the enums.
#[derive(Drop)]
pub(crate) struct Enums<'m> {
    row: Row<EnumName>,
    firsts: BTreeMap<&'m str, i32>,
    values: Taken,
    greatest: Option<i32>,
}

impl<'m> Model for Enums<'m> {
    ghost use Rattle.std.specs.Prelude.{List};
    ghost use Rattle.orc_types.specs.declared.types.EnumName.{EnumName};
    ghost use Rattle.orc_types.specs.inside.Running.{by_name, Knows};

    ghost Value = { List EnumName };

    ghost view = { λ e. e.row };

    ghost invariant = { λ e. Knows e.row (by_name e.firsts) e.values e.greatest };
}

// The greater of a value and the greatest so far.
fn higher(greatest: Option<i32>, value: i32) -> Option<i32>
    ensures { result ≡ higher greatest value }
{
    match greatest {
        None => Some(value),
        Some(high) => Some(if high < value { value } else { high }),
    }
}

// The value after the greatest, where it has 32 bits.
fn value_behind(greatest: Option<i32>) -> Option<i32>
    ensures { result ≡ value_behind greatest }
{
    let value = match greatest {
        None => 0,
        Some(high) => i64::from(high) + 1,
    };
    if i32::MIN as i64 <= value && value <= i32::MAX as i64 {
        Some(value as i32)
    } else {
        None
    }
}

impl<'m> Enums<'m> {
    /// None.
    pub(crate) fn new(alloc: Global) -> Enums<'m>
        ensures { result ≡ [] }
    {
        Enums {
            row: Row::new(alloc),
            firsts: BTreeMap::new(alloc),
            values: Taken::new(alloc),
            greatest: None,
        }
    }

    /// Whether one of the enums has the name.
    #[tactic(auto, using(crate::proofs::Running::found_any))]
    pub(crate) fn has_name(&self, name: &str) -> bool
        ensures { result ≡ list_any (has_name name.now) self.now }
    {
        named(&self.firsts, name).is_some()
    }

    /// Whether one of the enums has the value.
    pub(crate) fn has_value(&self, value: i32) -> bool
        ensures { result ≡ list_any (has_value value) self.now }
    {
        self.values.has(value)
    }

    /// The value after the enums, where it has 32 bits.
    #[tactic(auto, using(crate::proofs::Running::next_behind))]
    pub(crate) fn next(&self) -> Option<i32>
        ensures { result ≡ own_value None self.now [] }
    {
        value_behind(self.greatest)
    }

    /// These enums and one more.
    pub(crate) fn with(self, alloc: Global, name: &'m str, value: i32) -> Result<Enums<'m>, Memory>
        ensures { IfOk result (λ more. more ≡ self.entry ++ record { name = name.now; value = value } ∷ []) }
    {
        let Enums {
            mut row,
            mut firsts,
            mut values,
            greatest,
        } = self;
        row.push(EnumName {
            name: Text::from_str(alloc, name)?,
            value,
        })?;
        add_first(&mut firsts, name, value)?;
        values.add(value)?;
        Ok(Enums {
            row,
            firsts,
            values,
            greatest: higher(greatest, value),
        })
    }

    /// The enums.
    pub(crate) fn into_row(self) -> Row<EnumName>
        ensures { result ≡ self.entry }
    {
        self.row
    }
}
