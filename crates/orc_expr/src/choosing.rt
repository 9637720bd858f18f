//! What the predicates of a step choose.
ghost use Rattle.std.specs.Prelude.{◌≡◌, ◌++◌, IfOk, OnOk};
ghost use Rattle.orc_expr.specs.Looks.{chosen, selected, selected_by, asks_each_key};
ghost use Rattle.orc_expr.specs.inside.Lists.{only_of};

use crate::Read;
use crate::looked::Looked;
use crate::nodes::{ReadKind, nodes_under, present_in, push_reads};
use crate::step::{Asked, Choice, Chosen};
use orc_path::{DataView, Name, Path};
use orc_text::{Memory, Row, Text};
use std::alloc::Global;
use std::collections::LinkedList;

/// A term's one text, or that it gives none, or more than one.
#[derive(Drop)]
pub(crate) enum Only {
    One(Text),
    Nothing,
    Many,
}

// The one text that was found.
fn only_text(alloc: Global, found: &Option<Row<Text>>) -> Result<Only, Memory>
    ensures { IfOk result (λ only. only ≡ only_of found.now) }
{
    match found {
        None => Ok(Only::Many),
        Some(texts) => match texts.as_slice() {
            [] => Ok(Only::Nothing),
            [text] => Ok(Only::One(text.copy(alloc)?)),
            [_, _, ..] => Ok(Only::Many),
        },
    }
}

// What the term of a predicate gives. What it read is put after what others read.
fn only_given(
    alloc: Global,
    given: Looked<Text>,
    reads: &mut LinkedList<Read>,
) -> Result<Only, Memory>
    ensures only { IfOk result (λ only. only ≡ only_of given.found) }
    ensures reads { OnOk result (reads.new ≡ reads.old ++ given.reads) }
{
    let Looked {
        found,
        reads: mut more,
    } = given;
    reads.append(&mut more)?;
    only_text(alloc, &found)
}

// What the terms of predicates give, in their order. What they read is moved on, not copied.
fn chosen(alloc: Global, asked: Row<Asked>) -> Result<Chosen, Memory>
    ensures { IfOk result (λ made. made ≡ chosen asked) }
{
    let mut keys = Row::new(alloc);
    let mut reads = LinkedList::new(alloc);
    for next in asked.into_vec() {
        match only_given(alloc, next.given, &mut reads)? {
            Only::One(text) => keys.push(text)?,
            Only::Nothing => {
                return Ok(Chosen {
                    choice: Choice::Nothing,
                    reads,
                });
            }
            Only::Many => {
                return Ok(Chosen {
                    choice: Choice::Many,
                    reads,
                });
            }
        }
    }
    Ok(Chosen {
        choice: Choice::Keys(keys),
        reads,
    })
}

// The entries with the chosen keys that are present.
fn selected_by<V: DataView>(
    alloc: Global,
    view: &V,
    name: &Name,
    places: &[Path],
    mut reads: LinkedList<Read>,
    choice: Choice,
) -> Result<Looked<Path>, Memory>
    ensures { IfOk result
        (λ look. look ≡ selected_by (V.viewed view.now).items name.now places.now reads choice) }
{
    match choice {
        Choice::Keys(keys) => {
            let nodes = nodes_under(alloc, name, keys.as_slice(), places)?;
            push_reads(alloc, &mut reads, ReadKind::Item, nodes.as_slice())?;
            Ok(Looked {
                found: Some(present_in(alloc, view, nodes.as_slice())?),
                reads,
            })
        }
        Choice::Nothing => Ok(Looked {
            found: Some(Row::new(alloc)),
            reads,
        }),
        Choice::Many => Ok(Looked { found: None, reads }),
    }
}

/// The entries that the predicates of a step choose. Terms are looked at where there is a place.
pub(crate) fn selected<V: DataView>(
    alloc: Global,
    view: &V,
    before: Looked<Path>,
    name: &Name,
    asked: Row<Asked>,
) -> Result<Looked<Path>, Memory>
    ensures { IfOk result
        (λ look. look ≡ selected (V.viewed view.now).items before name.now asked before.found) }
{
    let Looked { found, mut reads } = before;
    match found {
        None => Ok(Looked { found: None, reads }),
        Some(places) => {
            if places.is_empty() {
                return Ok(Looked {
                    found: Some(places),
                    reads,
                });
            }
            let Chosen {
                choice,
                reads: mut more,
            } = chosen(alloc, asked)?;
            reads.append(&mut more)?;
            selected_by(alloc, view, name, places.as_slice(), reads, choice)
        }
    }
}

/// Whether the predicates name each key once, in the order of the keys.
pub(crate) fn asks_each_key(keys: &[Text], asked: &[Asked]) -> bool
    ensures { result ≡ asks_each_key keys.now asked.now }
{
    let mut rest = asked;
    for key in keys {
        match rest.split_first() {
            Some((next, more)) => {
                if next.key.as_str() != key.as_str() {
                    return false;
                }
                rest = more;
            }
            None => return false,
        }
    }
    rest.is_empty()
}
