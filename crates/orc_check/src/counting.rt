//! How many entries a list has. These rows and those below them stand together.
ghost use Rattle.std.specs.Prelude.{◌≡◌, ◌++◌, length, nat_lt, IsTrue};
ghost use Rattle.std.specs.FinMap.{is_sorted};
ghost use Rattle.orc_path.specs.Order.{path_cmp};
ghost use Rattle.orc_path.specs.Configurations.{is_entry_of};
ghost use Rattle.orc_tree.specs.inside.Lists.{entries_of};
ghost use Rattle.orc_check.specs.Validity.{plain_steps, entry_count};
ghost use Rattle.orc_check.specs.inside.Lists.{is_keyed, is_named, is_alone, enters, goes_on, is_past, count_down};
ghost use Rattle.orc_check.specs.inside.Runs.{all_rows};

use crate::order::{has_no_keys, is_plain, order_to, same_step};
use crate::runs::{Runs, runs_from};
use crate::spot::Spot;
use orc_path::{Item, Path, Step};
use orc_text::Text;
use orc_tree::Tree;

// Whether the path is one step, with the name and keys.
fn is_keyed(path: &[Step], name: &str) -> bool
    ensures { result ≡ is_keyed path.now name.now }
{
    match path {
        [] => false,
        [step, later @ ..] => match later {
            [] => step.keys.len() > 0 && step.node.as_str() == name,
            [..] => false,
        },
    }
}

// Whether the path begins with a step of the name.
fn is_named(path: &[Step], name: &str) -> bool
    ensures { result ≡ is_named path.now name.now }
{
    match path {
        [] => false,
        [step, ..] => step.node.as_str() == name,
    }
}

// Whether there is no key in the list's own step, and the path is one step of its name with keys.
fn is_alone(list: &Step, path: &[Step]) -> bool
    ensures { result ≡ is_alone list.now path.now }
{
    has_no_keys(list.keys.as_slice()) && is_keyed(path, list.node.as_str())
}

// Whether a path enters the list at these names.
fn enters_below(names: &[Text], path: &[Step]) -> bool
    ensures { result ≡ enters (plain_steps names.now) path.now }
{
    match names {
        [] => false,
        [name, later @ ..] => match later {
            [] => is_keyed(path, name.as_str()),
            [..] => match path {
                [] => false,
                [step, rest @ ..] => is_plain(name, step) && enters_below(later, rest),
            },
        },
    }
}

// Whether a path enters the list at these steps with names after them.
fn enters(steps: &[Step], names: &[Text], path: &[Step]) -> bool
    ensures { result ≡ enters (steps.now ++ plain_steps names.now) path.now }
{
    match steps {
        [] => enters_below(names, path),
        [list, later @ ..] => match later {
            [] => match names {
                [] => is_alone(list, path),
                [..] => match path {
                    [] => false,
                    [step, rest @ ..] => same_step(list, step) && enters_below(names, rest),
                },
            },
            [..] => match path {
                [] => false,
                [step, rest @ ..] => same_step(list, step) && enters(later, names, rest),
            },
        },
    }
}

// Whether a path is that of an entry of the list.
fn is_entry(steps: &[Step], names: &[Text], path: &[Step]) -> bool
    ensures { result ≡ is_entry_of (steps.now ++ plain_steps names.now) path.now }
{
    enters(steps, names, path)
}

// Whether a path goes on from the steps above the list at these names by a step of its last name.
fn goes_on_below(names: &[Text], path: &[Step]) -> bool
    ensures { result ≡ goes_on (plain_steps names.now) path.now }
{
    match names {
        [] => false,
        [name, later @ ..] => match later {
            [] => is_named(path, name.as_str()),
            [..] => match path {
                [] => false,
                [step, rest @ ..] => is_plain(name, step) && goes_on_below(later, rest),
            },
        },
    }
}

// Whether a path goes on from the steps above the list at these steps with names after them by a step
// of its last name.
fn goes_on(steps: &[Step], names: &[Text], path: &[Step]) -> bool
    ensures { result ≡ goes_on (steps.now ++ plain_steps names.now) path.now }
{
    match steps {
        [] => goes_on_below(names, path),
        [list, later @ ..] => match later {
            [] => match names {
                [] => is_named(path, list.node.as_str()),
                [..] => match path {
                    [] => false,
                    [step, rest @ ..] => same_step(list, step) && goes_on_below(names, rest),
                },
            },
            [..] => match path {
                [] => false,
                [step, rest @ ..] => same_step(list, step) && goes_on(later, names, rest),
            },
        },
    }
}

// Whether the first of the rows stands after the list and all that is below it.
fn starts_past(rows: &[(Path, Item)], steps: &[Step], names: &[Text]) -> bool
    ensures { result ≡ is_past (steps.now ++ plain_steps names.now) rows.now }
{
    match rows.first() {
        Some(row) => {
            let path = row.0.steps.as_slice();
            order_to(steps, names, path).is_lt() && !goes_on(steps, names, path)
        }
        None => false,
    }
}

// The number less one for each entry of the list among rows, or None where they are more.
fn count_down(rows: &[(Path, Item)], steps: &[Step], names: &[Text], number: u64) -> Option<u64>
    ensures { result ≡ count_down number (length (entries_of (steps.now ++ plain_steps names.now) rows.now)) }
{
    match rows {
        [] => Some(number),
        [row, later @ ..] => {
            if !is_entry(steps, names, row.0.steps.as_slice()) {
                count_down(later, steps, names, number)
            } else if number == 0 {
                None
            } else {
                count_down(later, steps, names, number - 1)
            }
        }
    }
}

// Whether the list has more entries than the number among the rows of runs.
fn has_more_among(runs: Runs<'_>, steps: &[Step], names: &[Text], number: u64) -> bool
    requires { IsTrue (is_sorted path_cmp (all_rows runs)) }
    ensures { result ≡ nat_lt number (length (entries_of (steps.now ++ plain_steps names.now) (all_rows runs.entry))) }
{
    let mut left = number;
    for rows in runs {
        if starts_past(rows, steps, names) {
            return false;
        }
        match count_down(rows, steps, names, left) {
            Some(rest) => left = rest,
            None => return true,
        }
    }
    false
}

/// Whether the list at these steps with names after them has more entries than the number. It takes
/// no memory, and looks at the rows at and below these entries.
pub(crate) fn has_more<'a>(tree: &Tree, steps: &'a [Step], names: &'a [Text], number: u64) -> bool
    ensures { result ≡ nat_lt number (entry_count tree.now (steps.now ++ plain_steps names.now)) }
{
    let spot = Spot {
        steps,
        names,
        entry: None,
    };
    has_more_among(runs_from(tree, &spot), steps, names, number)
}

/// Whether it has fewer.
pub(crate) fn has_fewer(tree: &Tree, steps: &[Step], names: &[Text], number: u64) -> bool
    ensures { result ≡ nat_lt (entry_count tree.now (steps.now ++ plain_steps names.now)) number }
{
    number > 0 && !has_more(tree, steps, names, number - 1)
}
