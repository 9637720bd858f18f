//! Paths that are lent in parts, and their order among others. It takes no memory.
ghost use Rattle.std.specs.Prelude.{◌≡◌, ◌++◌, ◌∷◌, []};
ghost use Rattle.std.specs.Cmp.Lexicographic.{slice_cmp};
ghost use Rattle.orc_path.specs.Order.{path_cmp, step_cmp, text_cmp};
ghost use Rattle.orc_check.specs.Validity.{plain_step, plain_steps};
ghost use Rattle.orc_check.specs.inside.Lent.{keyed_step, spot_path};

use crate::order::{order_steps, order_to};
use orc_path::{Item, Path, Step};
use orc_text::Text;
use std::cmp::Ordering;

/// The entry of the list of this name with this one key.
#[derive(Drop)]
pub(crate) struct Keyed<'a> {
    pub(crate) name: &'a Text,
    pub(crate) key: &'a Text,
}

/// A path: steps, after them steps of these names without keys, and after these an entry or none.
#[derive(Drop)]
pub(crate) struct Spot<'a> {
    pub(crate) steps: &'a [Step],
    pub(crate) names: &'a [Text],
    pub(crate) entry: Option<Keyed<'a>>,
}

// One key, and keys.
fn order_key(key: &Text, keys: &[Text]) -> Ordering
    ensures { result ≡ slice_cmp text_cmp (key.now ∷ []) keys.now }
{
    match keys {
        [] => Ordering::Greater,
        [first, more @ ..] => match key.as_str().cmp(first.as_str()) {
            Ordering::Less => Ordering::Less,
            Ordering::Greater => Ordering::Greater,
            Ordering::Equal => match more {
                [] => Ordering::Equal,
                [..] => Ordering::Less,
            },
        },
    }
}

// A step with one key, and a step.
fn order_keyed_step(entry: &Keyed<'_>, step: &Step) -> Ordering
    ensures { result ≡ step_cmp (keyed_step entry.now) step.now }
{
    match entry.name.as_str().cmp(step.node.as_str()) {
        Ordering::Less => Ordering::Less,
        Ordering::Greater => Ordering::Greater,
        Ordering::Equal => order_key(entry.key, step.keys.as_slice()),
    }
}

// A step with one key alone, and steps.
fn order_entry(entry: &Keyed<'_>, others: &[Step]) -> Ordering
    ensures { result ≡ path_cmp (keyed_step entry.now ∷ []) others.now }
{
    match others {
        [] => Ordering::Greater,
        [step, more @ ..] => match order_keyed_step(entry, step) {
            Ordering::Less => Ordering::Less,
            Ordering::Greater => Ordering::Greater,
            Ordering::Equal => match more {
                [] => Ordering::Equal,
                [..] => Ordering::Less,
            },
        },
    }
}

fn order_no_keys(keys: &[Text]) -> Ordering
    ensures { result ≡ slice_cmp text_cmp [] keys.now }
{
    match keys {
        [] => Ordering::Equal,
        [..] => Ordering::Less,
    }
}

// A step of this name without keys, and a step.
fn order_plain_step(name: &Text, step: &Step) -> Ordering
    ensures { result ≡ step_cmp (plain_step name.now) step.now }
{
    match name.as_str().cmp(step.node.as_str()) {
        Ordering::Less => Ordering::Less,
        Ordering::Greater => Ordering::Greater,
        Ordering::Equal => order_no_keys(step.keys.as_slice()),
    }
}

// The order of names with an entry after them, and of steps.
fn order_entry_below(names: &[Text], entry: &Keyed<'_>, others: &[Step]) -> Ordering
    ensures { result ≡ path_cmp (plain_steps names.now ++ keyed_step entry.now ∷ []) others.now }
{
    match names {
        [] => order_entry(entry, others),
        [name, later @ ..] => match others {
            [] => Ordering::Greater,
            [step, more @ ..] => match order_plain_step(name, step) {
                Ordering::Less => Ordering::Less,
                Ordering::Greater => Ordering::Greater,
                Ordering::Equal => order_entry_below(later, entry, more),
            },
        },
    }
}

// The order of steps with names and an entry after them, and of steps.
fn order_entry_at(steps: &[Step], names: &[Text], entry: &Keyed<'_>, others: &[Step]) -> Ordering
    ensures { result ≡ path_cmp (steps.now ++ (plain_steps names.now ++ keyed_step entry.now ∷ [])) others.now }
{
    match steps {
        [] => order_entry_below(names, entry, others),
        [step, later @ ..] => match others {
            [] => Ordering::Greater,
            [other, more @ ..] => match order_steps(step, other) {
                Ordering::Less => Ordering::Less,
                Ordering::Greater => Ordering::Greater,
                Ordering::Equal => order_entry_at(later, names, entry, more),
            },
        },
    }
}

// A path in parts, and steps.
fn order_spot(spot: &Spot<'_>, others: &[Step]) -> Ordering
    ensures { result ≡ path_cmp (spot_path spot.now) others.now }
{
    match &spot.entry {
        Some(entry) => order_entry_at(spot.steps, spot.names, entry, others),
        None => order_to(spot.steps, spot.names, others),
    }
}

/// A path in parts, and that of a row.
pub(crate) fn order_row(spot: &Spot<'_>, row: &(Path, Item)) -> Ordering
    ensures { result ≡ path_cmp (spot_path spot.now) row.now.0 }
{
    order_spot(spot, row.0.steps.as_slice())
}
