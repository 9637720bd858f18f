//! Nodes in the order of their names, to be found by names.
ghost use Rattle.std.specs.Prelude.{◌≡◌, IfOk, option_map};
ghost use Rattle.std.specs.List.Sorted.{IsPermutation};
ghost use Rattle.orc_schema_nodes.specs.Names.{names_cmp};
ghost use Rattle.orc_schema.specs.Links.{node_in};
ghost use Rattle.orc_schema.specs.inside.Indexes.{lent, names_of, IsIndex, climbs_behind, climbs};

use crate::draft::Draft;
use orc_text::{Memory, Row, Text};
use std::alloc::Global;
use std::cmp::Ordering;

// The order of names.
fn compare(names: &Row<Text>, others: &Row<Text>) -> Ordering
    ensures { result ≡ names_cmp names.now others.now }
{
    Ord::cmp(names, others)
}

// Whether each node's names are less than those of the next one, after a first one.
fn ascends_behind(first: &Draft, rest: &[&Draft]) -> bool
    ensures { result ≡ climbs_behind first.now.names (names_of (lent rest.now)) }
{
    let mut last = first;
    for draft in rest {
        if compare(&last.names, &draft.names) != Ordering::Less {
            return false;
        }
        last = *draft;
    }
    true
}

// Whether each node's names are less than those of the next one.
fn ascends(drafts: &[&Draft]) -> bool
    ensures { result ≡ climbs (names_of (lent drafts.now)) }
{
    match drafts {
        [] => true,
        [first, rest @ ..] => ascends_behind(*first, rest),
    }
}

// References to the nodes.
fn references<'a>(alloc: Global, drafts: &'a [Draft]) -> Result<Vec<&'a Draft>, Memory>
    ensures { IfOk result (λ all. lent all.items ≡ drafts.now) }
{
    let mut all = Vec::new(alloc);
    for draft in drafts {
        all.push(draft)?;
    }
    Ok(all)
}

// Puts nodes in the order of their names.
fn sorted<'a>(drafts: Vec<&'a Draft>) -> Result<Vec<&'a Draft>, Memory>
    ensures { IfOk result (λ all. IsPermutation (lent drafts.entry.items) (lent all.items)) }
{
    let mut all = drafts;
    all.sort_by(|a, b| compare(&a.names, &b.names))?;
    Ok(all)
}

// The nodes in the order of their names. Where two have the same names, it runs out of memory.
pub(crate) fn index_of<'a>(alloc: Global, drafts: &'a [Draft]) -> Result<Vec<&'a Draft>, Memory>
    ensures { IfOk result (λ index. IsIndex index.items × IsPermutation drafts.now (lent index.items)) }
{
    let all = sorted(references(alloc, drafts)?)?;
    match ascends(all.as_slice()) {
        true => Ok(all),
        false => Err(Memory),
    }
}

// The node of these names.
pub(crate) fn find_in<'a>(index: &[&'a Draft], names: &Row<Text>) -> Option<&'a Draft>
    requires { IsIndex index.now }
    ensures { option_map (λ d. d.now) result ≡ node_in (lent index.now) names.now }
{
    match index.binary_search_by(|draft| compare(&draft.names, names)) {
        Ok(place) => Some(index[place]),
        Err(_) => None,
    }
}
