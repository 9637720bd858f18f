//! Rows in path order, each a path with a value: the search for a path, and a row put among them.
ghost use Rattle.std.specs.Prelude.{◌≡◌, ◌+◌, ◌<◌, ◌≤◌, IfOk, IfErr, IsTrue, vec_len, vec_capacity};
ghost use Rattle.std.specs.FinMap.{put, is_sorted};
ghost use Rattle.std.specs.Cmp.Lexicographic.{slice_cmp};
ghost use Rattle.orc_path.specs.Order.{path_cmp, step_cmp, text_cmp};
ghost use Rattle.orc_tree.specs.Rows.{IsRowOf, IsPlaceOf};
ghost use Rattle.orc_tree.specs.inside.Puts.{put_entries};

use orc_path::{Item, Path, Step};
use orc_text::Text;
use std::cmp::Ordering;

// How one key stands to another one, and several keys to others. Most entries have one key, which needs
// no walk over others.
fn order_of_keys(keys: &[Text], others: &[Text]) -> Ordering
    ensures { result ≡ slice_cmp text_cmp keys.now others.now }
{
    match (keys, others) {
        ([key], [other]) => key.cmp(other),
        _ => Ord::cmp(&keys, &others),
    }
}

// How a step stands to another one. In a search most of them have one name, which costs less to find
// than how two names stand to each other.
fn order_of_steps(step: &Step, other: &Step) -> Ordering
    ensures { result ≡ step_cmp step.now other.now }
{
    if step.node == other.node {
        return order_of_keys(step.keys.as_slice(), other.keys.as_slice());
    }
    step.node.cmp(&other.node)
}

/// How the path of these steps stands to another one in the order of paths. It is what `Path::cmp`
/// answers, and costs less where the names of their steps are equal.
pub fn order(steps: &[Step], path: &Path) -> Ordering
    ensures { result ≡ path_cmp steps.now path.now }
{
    let mut rest = steps;
    let mut others = path.steps.as_slice();
    while let Some((step, later)) = rest.split_first() {
        let (other, others_later) = match others.split_first() {
            Some(parts) => parts,
            None => return Ordering::Greater,
        };
        let found = order_of_steps(step, other);
        if found.is_ne() {
            return found;
        }
        rest = later;
        others = others_later;
    }
    if others.is_empty() {
        return Ordering::Equal;
    }
    Ordering::Less
}

// Where the row of the path of these steps stands among rows in path order, or else where it
// would. It takes no memory, and halves the rows with each comparison.
pub(crate) fn search<V>(rows: &[(Path, V)], steps: &[Step]) -> Result<usize, usize>
    requires { IsTrue (is_sorted path_cmp rows.now) }
    ensures found { IfOk result (IsRowOf steps.now rows.now) }
    ensures absent { IfErr result (IsPlaceOf steps.now rows.now) }
{
    let mut low = 0;
    let mut high = rows.len();
    while low < high {
        let middle = low + (high - low) / 2;
        match order(steps, &rows[middle].0) {
            Ordering::Less => high = middle,
            Ordering::Equal => return Ok(middle),
            Ordering::Greater => low = middle + 1,
        }
    }
    Err(low)
}

// Puts a value at a path among rows in path order, in the place of the one that stands there. It
// takes no memory, since room for one row more was made before, and costs a search and a shift.
pub(crate) fn put_row<V: Drop>(rows: &mut Vec<(Path, V)>, path: Path, value: V)
    requires sorted { IsTrue (is_sorted path_cmp rows.old.items) }
    requires room { vec_len rows.old < vec_capacity rows.old }
    ensures put { rows.new.items ≡ put path_cmp path value rows.old.items }
    ensures sorted { IsTrue (is_sorted path_cmp rows.new.items) }
    ensures len { vec_len rows.new ≤ vec_len rows.old + 1 }
    ensures capacity { vec_capacity rows.old ≤ vec_capacity rows.new }
{
    match search(rows.as_slice(), path.steps.as_slice()) {
        Ok(at) => rows[at] = (path, value),
        Err(at) => match rows.insert(at, (path, value)) {
            Ok(()) => {}
            Err(_) => unreachable!(),
        },
    }
}

// Puts an entry at each path, for which room was made.
pub(crate) fn enter_rows(rows: &mut Vec<(Path, Item)>, ways: Vec<Path>)
    requires sorted { IsTrue (is_sorted path_cmp rows.old.items) }
    requires room { vec_len rows.old + vec_len ways ≤ vec_capacity rows.old }
    ensures entered { rows.new.items ≡ put_entries ways.items rows.old.items }
    ensures sorted { IsTrue (is_sorted path_cmp rows.new.items) }
    ensures len { vec_len rows.new ≤ vec_len rows.old + vec_len ways }
    ensures capacity { vec_capacity rows.old ≤ vec_capacity rows.new }
{
    for way in ways {
        put_row(rows, way, Item::Entry);
    }
}
