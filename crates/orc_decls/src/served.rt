//! Which paths and bodies are those of services of lists.
ghost use Rattle.std.specs.Prelude.{◌≡◌, IfOk};
ghost use Rattle.std.specs.FinMap.{entries};
ghost use Rattle.std.specs.List.{list_all};
ghost use Rattle.orc_decls.specs.Calls.{are_below, has_body, is_body, is_body_item, is_served, is_service, is_service_path, meets};

use crate::Decls;
use crate::base::tree_of;
use crate::lawful::{MOST_WRITES, is_data_path, is_put};
use orc_call::Put;
use orc_path::{Path, Step};
use orc_schema_nodes::Schema;
use orc_services::{ServiceList, is_listed, path_of_id};
use orc_text::{Memory, Text};
use orc_tree::Tree;
use std::alloc::Global;

/// Whether a path is at, under or above a list, whatever the keys.
pub fn meets(list: &[Step], path: &[Step]) -> bool
    ensures { result ≡ meets list.now path.now }
{
    match list {
        [] => true,
        [step, later @ ..] => match path {
            [] => true,
            [own, below @ ..] => own.node == step.node && meets(later, below),
        },
    }
}

/// Whether the path is at, under or above a list whose entries are services.
pub fn is_served(lists: &[ServiceList], path: &Path) -> bool
    ensures { result ≡ is_served lists.now path.now }
{
    lists.iter().any(|it| meets(it.list.steps.as_slice(), path.steps.as_slice()))
}

// Whether the path is that of an entry of a list whose entries are services, and a line may name it.
fn is_service_path(alloc: Global, decls: &Decls, path: &Path) -> bool
    ensures { result ≡ is_service_path decls.now path.now }
{
    is_data_path(alloc, decls.data_schema(), path) && is_listed(decls.services(), path)
}

/// Whether an id is that of a service of a list.
pub(crate) fn is_service(alloc: Global, decls: &Decls, id: &Text) -> Result<bool, Memory>
    ensures { IfOk result (λ is. is ≡ is_service decls.now id.now) }
{
    match path_of_id(alloc, id)? {
        Some(path) => Ok(is_service_path(alloc, decls, &path)),
        None => Ok(false),
    }
}

// Whether the item stands below the entry, where the schema has it.
fn is_body_item(schema: &Schema, entry: &Path, put: &Put) -> bool
    ensures { result ≡ is_body_item schema.now entry.now put.now }
{
    is_put(schema, put)
        && (entry.is_prefix_of(&put.path) && entry.steps.len() < put.path.steps.len())
}

// Whether each of the items stands below the entry, where the schema has it.
fn are_body_items(schema: &Schema, entry: &Path, puts: &[Put]) -> bool
    ensures { result ≡ list_all (is_body_item schema.now entry.now) puts.now }
{
    puts.iter().all(|put| is_body_item(schema, entry, put))
}

// Whether the items are, in path order, those that the tree has below the entry.
fn are_below(entry: &Path, tree: &Tree, puts: &[Put]) -> bool
    ensures { result ≡ are_below entry.now (entries tree.now) puts.now }
{
    let mut rest = puts;
    for row in tree.rows() {
        if !row.0.is_prefix_of(entry) {
            match rest {
                [put, later @ ..] => {
                    if row.0.cmp(&put.path).is_ne() {
                        return false;
                    }
                    rest = later;
                }
                [] => return false,
            }
        }
    }
    rest.is_empty()
}

/// Whether items are a body of a service: each stands below its entry where the schema has it, and they
/// are, in path order, all that a configuration of them has there.
pub fn is_body(alloc: Global, schema: &Schema, entry: &Path, body: &[Put]) -> Result<bool, Memory>
    ensures { IfOk result (λ is. is ≡ is_body schema.now entry.now body.now) }
{
    if body.len() > MOST_WRITES {
        return Ok(false);
    }
    if !are_body_items(schema, entry, body) {
        return Ok(false);
    }
    let tree = tree_of(alloc, body)?;
    Ok(are_below(entry, &tree, body))
}

/// Whether items are a body of the service of an id.
pub(crate) fn has_body(
    alloc: Global,
    decls: &Decls,
    id: &Text,
    body: &[Put],
) -> Result<bool, Memory>
    ensures { IfOk result (λ has. has ≡ has_body decls.now id.now body.now) }
{
    match path_of_id(alloc, id)? {
        Some(entry) => is_body(alloc, decls.data_schema(), &entry, body),
        None => Ok(false),
    }
}
