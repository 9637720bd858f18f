//! Configurations, and bodies of services, from JSON.
ghost use Rattle.std.specs.Prelude.{◌≡◌, [], ◌&&◌, IfOk, MatchOption, length, nat_lt};
ghost use Rattle.serde_json.specs.View.{view};
ghost use Rattle.orc_path.specs.Order.{is_prefix};
ghost use Rattle.orc_json.specs.Readings.{reading, outcome, rows_below, IsJson, IsNoJson, IsOutcome, JsonGives};

use crate::fault::JsonFault;
use crate::members::read_object;
use crate::reading::Reading;
use orc_path::{Item, Path};
use orc_schema_nodes::Schema;
use orc_text::{Memory, Row};
use orc_tree::Tree;
use serde_json::Value;
use std::alloc::Global;

/// The configuration that a JSON text gives under a schema (RFC 7951). Numbers, strings and the
/// like are those of the nodes' types; a list is an array of objects, each with all its keys, and a
/// leaf-list an array of values. `Syntax` comes exactly where the bytes are no JSON text, and `Bad`
/// with the least fault exactly where there is one.
pub fn read(alloc: Global, schema: &Schema, bytes: &[u8]) -> Result<Tree, JsonFault>
    ensures { JsonGives (λ config tree. tree ≡ config) schema.now [] bytes.now result }
{
    let root = Path {
        steps: Row::new(alloc),
    };
    read_at(alloc, schema, &root, bytes)
}

/// What a JSON text gives below an entry, in path order: the body of a service, which is the object
/// of the entry without the members of its keys. A member that is a key of the entry is a fault.
pub fn read_entry(
    alloc: Global,
    schema: &Schema,
    entry: &Path,
    bytes: &[u8],
) -> Result<Vec<(Path, Item)>, JsonFault>
    ensures { JsonGives (λ config rows. rows.items ≡ rows_below entry.now config)
        schema.now entry.now bytes.now result }
{
    match read_at(alloc, schema, entry, bytes) {
        Ok(tree) => Ok(rows_below(alloc, entry, &tree)?),
        Err(fault) => Err(fault),
    }
}

/// The JSON value that bytes are the text of (RFC 8259), where they are the text of one that is no more
/// than 127 deep and has no number past the range of a double. The one error is that memory runs out.
pub fn parse(alloc: Global, bytes: &[u8]) -> Result<Option<Value>, Memory>
    ensures { IfOk result (λ found. MatchOption found (IsNoJson bytes.now)
        (λ value. IsJson bytes.now (view value))) }
{
    match Value::from_slice(alloc, bytes) {
        Ok(value) => Ok(Some(value)),
        Err(error) => if error.is_memory() {
            Err(Memory)
        } else {
            Ok(None)
        },
    }
}

/// What a JSON value gives at a path.
pub(crate) fn gather(
    alloc: Global,
    schema: &Schema,
    at: &Path,
    value: &Value,
) -> Result<Reading, Memory>
    ensures { IfOk result (λ found. found ≡ reading schema.now at.now (view value.now)) }
{
    let mut found = Reading::new(alloc);
    read_object(alloc, schema, &[], at, value, &mut found)?;
    Ok(found)
}

// The configuration of what was read, or the least fault.
fn settle(found: Reading) -> Result<Tree, JsonFault>
    ensures { IsOutcome (outcome found) result }
{
    let Reading { tree, breach } = found;
    match breach {
        None => Ok(tree),
        Some(breach) => Err(JsonFault::Bad {
            path: breach.path,
            rule: breach.rule,
        }),
    }
}

// The configuration that a JSON text gives at a path.
fn read_at(alloc: Global, schema: &Schema, at: &Path, bytes: &[u8]) -> Result<Tree, JsonFault>
    ensures { JsonGives (λ config tree. tree ≡ config) schema.now at.now bytes.now result }
{
    match parse(alloc, bytes)? {
        Some(value) => settle(gather(alloc, schema, at, &value)?),
        None => Err(JsonFault::Syntax),
    }
}

// Whether a path goes on below another one.
fn is_below(at: &Path, path: &Path) -> bool
    ensures { result ≡ (is_prefix at.now path.now && nat_lt (length at.now) (length path.now)) }
{
    at.is_prefix_of(path) && at.steps.len() < path.steps.len()
}

// Copies of what stands below a path, in path order.
fn rows_below(alloc: Global, at: &Path, tree: &Tree) -> Result<Vec<(Path, Item)>, Memory>
    ensures { IfOk result (λ rows. rows.items ≡ rows_below at.now tree.now) }
{
    let mut kept = Vec::new(alloc);
    for row in tree.rows() {
        if is_below(at, &row.0) {
            kept.push((row.0.copy(alloc)?, row.1.copy(alloc)?))?;
        }
    }
    Ok(kept)
}
