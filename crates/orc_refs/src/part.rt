//! Parts that have rows: the shelves of a rack, the racks of a store.
ghost use Rattle.std.specs.Prelude.{◌≡◌, ◌<◌, ◌≤◌, IfOk, IsTrue, length, map};
ghost use Rattle.std.specs.Arc.{arc_value};
ghost use Rattle.std.specs.FinMap.{is_sorted};
ghost use Rattle.std.specs.List.{All, flat_map};
ghost use Rattle.orc_path.specs.Order.{path_cmp};
ghost use Rattle.orc_refs.specs.inside.Shelves.{IsPartFor, starts_behind};

use orc_path::Path;
use orc_text::Memory;
use std::alloc::Global;
use std::sync::Arc;

// A part, which has rows in path order.
pub(crate) trait Part {
    ghost use Rattle.std.specs.Prelude.{◌≡◌, List, ℕ};
    ghost use Rattle.orc_path.specs.Steps.{PathStep};
    ghost use Rattle.orc_refs.specs.inside.Shelves.{starts_behind};

    ghost rows: { Self → List (List PathStep × List (List ℕ)) };

    // it has what its kind of part has: a row, a shelf
    ghost IsPart: { Self → Type 0 };

    // Whether its first row comes after a path.
    fn starts_behind(&self, path: &Path) -> bool
        requires { IsPart self.now }
        ensures { result ≡ starts_behind path.now (rows self.now) };
}

// Another list of the same parts, which are held by owners, with room for one more.
pub(crate) fn share<T: Drop>(alloc: Global, parts: &[Arc<T>]) -> Result<Vec<Arc<T>>, Memory>
    ensures { IfOk result (λ shared. map arc_value shared.items ≡ map arc_value parts.now) }
{
    let mut shared = Vec::new(alloc);
    shared.reserve(parts.len().saturating_add(1))?;
    for part in parts {
        shared.push(Arc::try_clone(part)?)?;
    }
    Ok(shared)
}

// The part in which the row of a path stands, or else would. It halves the parts with each
// comparison.
pub(crate) fn part_for<P: Part>(parts: &[Arc<P>], path: &Path) -> usize
    requires sorted { IsTrue (is_sorted path_cmp (flat_map (λ part. P.rows (arc_value part)) parts.now)) }
    requires parts { All (λ part. P.IsPart (arc_value part)) parts.now }
    requires full { All (λ part. 1 ≤ length (P.rows (arc_value part))) parts.now }
    requires some { 0 < length parts.now }
    ensures { IsPartFor (λ part. P.rows (arc_value part)) path.now parts.now result }
{
    let mut low = 0;
    let mut high = parts.len();
    while low + 1 < high {
        let middle = low + (high - low) / 2;
        if parts[middle].starts_behind(path) {
            high = middle;
        } else {
            low = middle;
        }
    }
    low
}
