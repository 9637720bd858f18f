//! The order of paths that are lent in two parts: steps, and after them the names of steps without
//! keys. It takes no memory.
ghost use Rattle.std.specs.Prelude.{◌≡◌, ◌++◌, [], nat_eq};
ghost use Rattle.std.specs.Cmp.Lexicographic.{pointwise, slice_cmp};
ghost use Rattle.orc_path.specs.Order.{path_cmp, step_cmp, step_eq, text_cmp};
ghost use Rattle.orc_check.specs.Validity.{plain_step, plain_steps};

use orc_path::Step;
use orc_text::Text;
use std::cmp::Ordering;

// Keys and none.
fn order_keys(keys: &[Text]) -> Ordering
    ensures { result ≡ slice_cmp text_cmp keys.now [] }
{
    match keys {
        [] => Ordering::Equal,
        [..] => Ordering::Greater,
    }
}

// A step and one of this name without keys.
fn order_step(step: &Step, name: &Text) -> Ordering
    ensures { result ≡ step_cmp step.now (plain_step name.now) }
{
    match step.node.as_str().cmp(name.as_str()) {
        Ordering::Less => Ordering::Less,
        Ordering::Greater => Ordering::Greater,
        Ordering::Equal => order_keys(step.keys.as_slice()),
    }
}

// Names and names.
fn order_names(names: &[Text], others: &[Text]) -> Ordering
    ensures { result ≡ path_cmp (plain_steps names.now) (plain_steps others.now) }
{
    match names {
        [] => match others {
            [] => Ordering::Equal,
            [..] => Ordering::Less,
        },
        [name, later @ ..] => match others {
            [] => Ordering::Greater,
            [other, more @ ..] => match name.as_str().cmp(other.as_str()) {
                Ordering::Less => Ordering::Less,
                Ordering::Greater => Ordering::Greater,
                Ordering::Equal => order_names(later, more),
            },
        },
    }
}

// The order of steps with names after them, and of names.
fn order_plain(steps: &[Step], names: &[Text], others: &[Text]) -> Ordering
    ensures { result ≡ path_cmp (steps.now ++ plain_steps names.now) (plain_steps others.now) }
{
    match steps {
        [] => order_names(names, others),
        [step, later @ ..] => match others {
            [] => Ordering::Greater,
            [other, more @ ..] => match order_step(step, other) {
                Ordering::Less => Ordering::Less,
                Ordering::Greater => Ordering::Greater,
                Ordering::Equal => order_plain(later, names, more),
            },
        },
    }
}

/// Two steps.
pub(crate) fn order_steps(step: &Step, other: &Step) -> Ordering
    ensures { result ≡ step_cmp step.now other.now }
{
    step.cmp(other)
}

/// The order of steps with names after them, and of others with theirs.
pub(crate) fn order(
    steps: &[Step],
    names: &[Text],
    others: &[Step],
    other_names: &[Text],
) -> Ordering
    ensures { result ≡ path_cmp (steps.now ++ plain_steps names.now) (others.now ++ plain_steps other_names.now) }
{
    match steps {
        [] => order_plain(others, other_names, names).reverse(),
        [step, later @ ..] => match others {
            [] => order_plain(steps, names, other_names),
            [other, more @ ..] => match order_steps(step, other) {
                Ordering::Less => Ordering::Less,
                Ordering::Greater => Ordering::Greater,
                Ordering::Equal => order(later, names, more, other_names),
            },
        },
    }
}

/// The order of steps with names after them, and of other steps.
pub(crate) fn order_to(steps: &[Step], names: &[Text], others: &[Step]) -> Ordering
    ensures { result ≡ path_cmp (steps.now ++ plain_steps names.now) others.now }
{
    order(steps, names, others, &[])
}

/// Whether there is no key.
pub(crate) fn has_no_keys(keys: &[Text]) -> bool
    ensures { result ≡ pointwise (pointwise nat_eq) [] keys.now }
{
    match keys {
        [] => true,
        [..] => false,
    }
}

/// Whether a step has this name and no keys.
pub(crate) fn is_plain(name: &Text, step: &Step) -> bool
    ensures { result ≡ step_eq (plain_step name.now) step.now }
{
    name.as_str() == step.node.as_str() && has_no_keys(step.keys.as_slice())
}

/// Whether two steps are the same.
pub(crate) fn same_step(step: &Step, other: &Step) -> bool
    ensures { result ≡ step_eq step.now other.now }
{
    step == other
}
