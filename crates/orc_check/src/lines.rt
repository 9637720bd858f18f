//! The lines of a schema that lead on from a place: they stand together.
ghost use Rattle.std.specs.Prelude.{◌≡◌, ◌≤◌, ◌&&◌, not, length, take, false};
ghost use Rattle.std.specs.List.{list_any};
ghost use Rattle.std.specs.Ordering.{is_lt};
ghost use Rattle.orc_schema_nodes.specs.Names.{names_cmp};
ghost use Rattle.orc_schema_nodes.specs.Schemas.{Ascends, path_names};
ghost use Rattle.orc_check.specs.inside.Lines.{leads_on, is_before};

use crate::reach::behind;
use orc_path::Step;
use orc_schema_nodes::SchemaLine;
use orc_text::Text;
use std::cmp::Ordering;

// Whether names are less than those of steps.
fn are_before(names: &[Text], steps: &[Step]) -> bool
    ensures { result ≡ is_lt (names_cmp names.now (path_names steps.now)) }
{
    match names {
        [] => !steps.is_empty(),
        [name, later @ ..] => match steps {
            [] => false,
            [step, below @ ..] => match name.as_str().cmp(step.node.as_str()) {
                Ordering::Less => true,
                Ordering::Greater => false,
                Ordering::Equal => are_before(later, below),
            },
        },
    }
}

// Whether the names of a line are less than those of a place.
fn is_before(line: &SchemaLine, steps: &[Step]) -> bool
    ensures { result ≡ is_before steps.now line.now }
{
    are_before(line.names.as_slice(), steps)
}

// Whether they begin with these.
fn leads_on(line: &SchemaLine, steps: &[Step]) -> bool
    ensures { result ≡ leads_on steps.now line.now }
{
    behind(steps, line.names.as_slice()).is_some()
}

/// Whether a line stands after all that lead on from a place.
pub(crate) fn is_past(line: &SchemaLine, steps: &[Step]) -> bool
    ensures { result ≡ (not (is_before steps.now line.now) && not (leads_on steps.now line.now)) }
{
    !is_before(line, steps) && !leads_on(line, steps)
}

/// A line before which none leads on from the place, found by halving.
pub(crate) fn first_line(lines: &[SchemaLine], steps: &[Step]) -> usize
    requires { Ascends lines.now }
    ensures within { result ≤ length lines.now }
    ensures before { list_any (leads_on steps.now) (take result lines.now) ≡ false }
{
    let mut low = 0;
    let mut high = lines.len();
    while low < high {
        let middle = low + (high - low) / 2;
        if is_before(&lines[middle], steps) {
            low = middle + 1;
        } else {
            high = middle;
        }
    }
    low
}
