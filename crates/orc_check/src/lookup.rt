//! The search for a path that is lent in parts among a tree's rows.
ghost use Rattle.std.specs.Prelude.{◌≡◌, ◌++◌, IsTrue, IfOk, IfErr, is_none, option_map};
ghost use Rattle.std.specs.Option.{option_copied};
ghost use Rattle.std.specs.FinMap.{find, get, is_sorted};
ghost use Rattle.orc_path.specs.Order.{path_cmp};
ghost use Rattle.orc_tree.specs.Rows.{IsRowOf, IsPlaceOf};
ghost use Rattle.orc_check.specs.Validity.{plain_steps};
ghost use Rattle.orc_check.specs.inside.Lent.{spot_path};

use crate::runs::runs_from;
use crate::spot::{Spot, order_row};
use orc_path::{Item, Path, Step};
use orc_text::Text;
use orc_tree::Tree;
use std::cmp::Ordering;

// Where the row of the path stands among rows, or else where it would.
fn search(rows: &[(Path, Item)], spot: &Spot<'_>) -> Result<usize, usize>
    requires { IsTrue (is_sorted path_cmp rows.now) }
    ensures found { IfOk result (IsRowOf (spot_path spot.now) rows.now) }
    ensures absent { IfErr result (IsPlaceOf (spot_path spot.now) rows.now) }
{
    let mut low = 0;
    let mut high = rows.len();
    while low < high {
        let middle = low + (high - low) / 2;
        match order_row(spot, &rows[middle]) {
            Ordering::Less => high = middle,
            Ordering::Equal => return Ok(middle),
            Ordering::Greater => low = middle + 1,
        }
    }
    Err(low)
}

// The row of the path among rows, if there is one.
fn row_in<'a>(rows: &'a [(Path, Item)], spot: &Spot<'_>) -> Option<&'a (Path, Item)>
    requires { IsTrue (is_sorted path_cmp rows.now) }
    ensures { option_copied result
        ≡ option_map (λ item. (spot_path spot.now, item)) (find path_cmp (spot_path spot.now) rows.now) }
{
    match search(rows, spot) {
        Ok(at) => Some(&rows[at]),
        Err(_) => None,
    }
}

/// The row of the path in a tree, if there is one. It takes no memory.
pub(crate) fn row_at<'a>(tree: &'a Tree, spot: &Spot<'_>) -> Option<&'a (Path, Item)>
    ensures { option_copied result
        ≡ option_map (λ item. (spot_path spot.now, item)) (get tree.now (spot_path spot.now)) }
{
    match runs_from(tree, spot).next() {
        Some(rows) => row_in(rows, spot),
        None => None,
    }
}

/// Whether nothing stands at the path of steps with names after them. It takes no memory.
pub(crate) fn is_absent<'a>(tree: &Tree, steps: &'a [Step], names: &'a [Text]) -> bool
    ensures { result ≡ is_none (get tree.now (steps.now ++ plain_steps names.now)) }
{
    let spot = Spot {
        steps,
        names,
        entry: None,
    };
    match row_at(tree, &spot) {
        Some(_row) => false,
        None => true,
    }
}
