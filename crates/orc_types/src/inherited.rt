//! The names of an enumeration that may be restricted, found without a look at the others.
ghost use Rattle.std.specs.Prelude.{◌≡◌, ◌&&◌, ℕ, List, [], Some, None, cond, IfOk, IfSome, OnOk, unwrap_or, option_map};
ghost use Rattle.std.specs.List.{list_any, find};
ghost use Rattle.std.specs.Option.{option_or};
ghost use Rattle.orc_types.specs.Enums.{has_name, has_value, keeps};
ghost use Rattle.orc_types.specs.Types.{enumerated};
ghost use Rattle.orc_types.specs.inside.Running.{by_name, HasFirsts};

use crate::firsts::{add_first, named};
use crate::statements::has;
use crate::types::{Base, EnumName, LeafType};
use orc_text::{Memory, Row};
use orc_yang::Stmt;
use std::alloc::Global;
use std::collections::BTreeMap;
use std::marker::Model;

/// The names that a derived enumeration has from its base, with the first value of each where the
/// `type` has an `enum` (else nobody asks). Contracts see these names, or none where the enumeration
/// isn't derived.
#[derive(Drop)]
pub(crate) struct Inherited<'m> {
    names: Option<&'m Row<EnumName>>,
    firsts: Option<BTreeMap<&'m str, i32>>,
}

impl<'m> Model for Inherited<'m> {
    ghost use Rattle.std.specs.Prelude.{[], List, Option, IfSome, option_map, unwrap_or};
    ghost use Rattle.orc_types.specs.declared.types.EnumName.{EnumName};
    ghost use Rattle.orc_types.specs.inside.Running.{by_name, HasFirsts};

    ghost Value = { Option (List EnumName) };

    ghost view = { λ i. option_map (λ names. names.now) i.names };

    ghost invariant = { λ i. IfSome i.firsts (λ m. HasFirsts (by_name m)
        (unwrap_or (option_map (λ names. names.now) i.names) [])) };
}

// The names of an enumeration that may be restricted.
fn enumerated(base: &Base) -> Option<&Row<EnumName>>
    ensures { option_map (λ names. names.now) result ≡ enumerated base.now }
{
    match base {
        Base::Known(known) => match known {
            LeafType::Enum(names) => Some(names),
            _ => None,
        },
        _ => None,
    }
}

// Adds the value of a name, where it is the first.
fn add_known<'m>(firsts: &mut BTreeMap<&'m str, i32>, known: &'m EnumName) -> Result<(), Memory>
    ensures { OnOk result ((q : List ℕ) → by_name firsts.new q
        ≡ option_or (by_name firsts.old q) (cond (has_name q known.now) (Some known.now.value) None)) }
{
    add_first(firsts, known.name.as_str(), known.value)
}

// The first value of each name.
fn firsts_of<'m>(alloc: Global, enums: &'m [EnumName]) -> Result<BTreeMap<&'m str, i32>, Memory>
    ensures { IfOk result (λ firsts. HasFirsts (by_name firsts) enums.now) }
{
    let mut firsts = BTreeMap::new(alloc);
    for known in enums {
        add_known(&mut firsts, known)?;
    }
    Ok(firsts)
}

// The first value of each of these names, where it is asked for.
fn firsts_if<'m>(
    alloc: Global,
    asked: bool,
    names: Option<&'m Row<EnumName>>,
) -> Result<Option<BTreeMap<&'m str, i32>>, Memory>
    ensures { IfOk result (λ firsts. IfSome firsts (λ m. HasFirsts (by_name m)
        (unwrap_or (option_map (λ names. names.now) names.entry) []))) }
{
    if !asked {
        return Ok(None);
    }
    match names {
        Some(known) => Ok(Some(firsts_of(alloc, known.as_slice())?)),
        None => Ok(None),
    }
}

// The first of the enums that has the name.
fn first_named<'m>(enums: &'m [EnumName], name: &str) -> Option<&'m EnumName>
    ensures { option_map (λ e. e.now) result ≡ find (has_name name.now) enums.now }
{
    enums.iter().find(|known| known.name.as_str() == name)
}

// The value of the first that has it.
fn first_value(enums: &[EnumName], name: &str) -> Option<i32>
    ensures { result ≡ option_map (λ e. e.value) (find (has_name name.now) enums.now) }
{
    match first_named(enums, name) {
        Some(known) => Some(known.value),
        None => None,
    }
}

// Whether one of the enums has the name with this value.
fn any_is(enums: &[EnumName], name: &str, value: i32) -> bool
    ensures { result ≡ list_any (λ e. has_name name.now e && has_value value e) enums.now }
{
    enums.iter().any(|known| known.name.as_str() == name && known.value == value)
}

impl<'m> Inherited<'m> {
    /// What an enumeration of this base has from it, where these stand below its `type`.
    pub(crate) fn of(alloc: Global, base: &'m Base, stmts: &[Stmt]) -> Result<Inherited<'m>, Memory>
        ensures { IfOk result (λ made. made ≡ enumerated base.now) }
    {
        let names = enumerated(base);
        let firsts = firsts_if(alloc, has("enum", stmts), names)?;
        Ok(Inherited { names, firsts })
    }

    /// The names, where the enumeration is derived.
    pub(crate) fn names(&self) -> Option<&'m Row<EnumName>>
        ensures { option_map (λ names. names.now) result ≡ self.now }
    {
        self.names
    }

    /// The value of a name.
    pub(crate) fn value(&self, name: &str) -> Option<i32>
        ensures { result ≡ option_map (λ e. e.value) (find (has_name name.now) (unwrap_or self.now [])) }
    {
        match &self.firsts {
            Some(firsts) => named(firsts, name),
            None => match self.names {
                Some(names) => first_value(names.as_slice(), name),
                None => None,
            },
        }
    }

    /// Whether a name is among them.
    #[tactic(auto, using(crate::proofs::Running::found_any))]
    pub(crate) fn has(&self, name: &str) -> bool
        ensures { result ≡ list_any (has_name name.now) (unwrap_or self.now []) }
    {
        self.value(name).is_some()
    }

    /// Whether a derived enumeration has this value for the name.
    #[tactic(auto, using(crate::proofs::Running::kept))]
    pub(crate) fn keeps(&self, name: &str, value: i32) -> bool
        ensures { result ≡ keeps self.now name.now value }
    {
        match self.names {
            Some(names) => self.value(name) == Some(value) || any_is(names.as_slice(), name, value),
            None => true,
        }
    }
}
