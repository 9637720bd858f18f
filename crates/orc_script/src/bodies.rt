//! The bodies of services, as JSON texts.
ghost use Rattle.std.specs.Prelude.{◌≡◌, IfOk, IsTrue, false};
ghost use Rattle.std.specs.List.{list_any};
ghost use Rattle.std.specs.Option.{option_map_or};
ghost use Rattle.orc_lines.specs.Answers.{ReadsLine};
ghost use Rattle.orc_script.specs.Bodies.{body_of, is_long_body, is_long_put, kept_body, puts_of};
ghost use Rattle.orc_decls.specs.Calls.{is_body};
ghost use Rattle.orc_script.specs.Scripts.{begins_as_path};

use orc_call::Put;
use orc_decls::{MOST_WRITES, Rule, is_body};
use orc_json::{JsonFault, read_entry};
use orc_lines::{Detail, Excess, LineFault, WrongBody, breaks_by, is_long_item};
use orc_path::{Item, Path};
use orc_schema_nodes::Schema;
use orc_text::{Memory, Row, Text};
use std::alloc::Global;

/// Whether a text begins as that of a path does.
pub(crate) fn begins_as_path(text: &[u8]) -> bool
    ensures { result ≡ begins_as_path text.now }
{
    match text {
        [] => false,
        [first, ..] => *first == b'/',
    }
}

// Whether an item passes a limit.
fn is_long_put(put: &Put) -> bool
    ensures { result ≡ is_long_put put.now }
{
    put.path.is_long() || is_long_item(&put.item)
}

// Whether one of these items does.
fn has_long_put(puts: &[Put]) -> bool
    ensures { result ≡ list_any is_long_put puts.now }
{
    puts.iter().any(|put| is_long_put(put))
}

// Whether one of a body does, or they are too many.
fn is_too_long(body: &[Put]) -> bool
    ensures { result ≡ is_long_body body.now }
{
    body.len() > MOST_WRITES || has_long_put(body)
}

/// Whether an item of a body passes a limit, or they are too many.
pub(crate) fn is_long_body(body: &Option<Row<Put>>) -> bool
    ensures { result ≡ option_map_or is_long_body body.now false }
{
    match body {
        Some(body) => is_too_long(body.as_slice()),
        None => false,
    }
}

// Of a body that is too long: too many items, or else the first one that passes a limit.
fn items_excess(alloc: Global, body: &[Put]) -> Result<Detail, Memory> {
    if body.len() > MOST_WRITES {
        return Ok(Detail::Size(Excess::BodyItems(body.len() as u64)));
    }
    for put in body {
        if is_long_put(put) {
            return Ok(Detail::Size(Excess::BodyItem(Put {
                path: put.path.copy(alloc)?,
                item: put.item.copy(alloc)?,
            })));
        }
    }
    Ok(Detail::Plain)
}

/// Of a body that is too long.
pub(crate) fn body_excess(alloc: Global, body: &Option<Row<Put>>) -> Result<Detail, Memory> {
    match body {
        Some(body) => items_excess(alloc, body.as_slice()),
        None => Ok(Detail::Plain),
    }
}

// The items of rows.
fn puts_of(alloc: Global, rows: Vec<(Path, Item)>) -> Result<Row<Put>, Memory>
    ensures { IfOk result (λ puts. puts ≡ puts_of rows.items) }
{
    let mut puts = Row::new(alloc);
    for (path, item) in rows {
        puts.push(Put { path, item })?;
    }
    Ok(puts)
}

/// What was found in a JSON text: the body, where it is one, and else what is at fault.
#[derive(Drop)]
pub(crate) struct FoundBody {
    pub(crate) body: Option<Row<Put>>,
    pub(crate) fault: Option<JsonFault>,
}

/// The body that a JSON text says below the entry of a service, where it is one.
pub(crate) fn read_body(
    alloc: Global,
    schema: &Schema,
    entry: &Path,
    text: &[u8],
) -> Result<FoundBody, Memory>
    ensures { IfOk result (λ found. found.body ≡ body_of schema.now entry.now text.now) }
{
    match read_entry(alloc, schema, entry, text) {
        Ok(rows) => Ok(FoundBody {
            body: Some(puts_of(alloc, rows)?),
            fault: None,
        }),
        Err(JsonFault::Syntax) => Ok(FoundBody {
            body: None,
            fault: Some(JsonFault::Syntax),
        }),
        Err(JsonFault::Bad { path, rule }) => Ok(FoundBody {
            body: None,
            fault: Some(JsonFault::Bad { path, rule }),
        }),
        Err(JsonFault::Memory) => Err(Memory),
    }
}

// Of a JSON text that is no body of the service at this entry.
fn wrong_body(
    alloc: Global,
    schema: &Schema,
    entry: &Path,
    text: &str,
    fault: Option<JsonFault>,
) -> Result<Detail, Memory> {
    Ok(Detail::Json(WrongBody {
        entry: entry.copy(alloc)?,
        text: Text::from_str(alloc, text)?,
        schema: schema.copy(alloc)?,
        fault,
    }))
}

/// What is kept of a body that was read in this JSON text: it is looked at once more.
pub(crate) fn keep_body(
    alloc: Global,
    schema: &Schema,
    entry: &Path,
    text: &str,
    found: FoundBody,
) -> Result<Row<Put>, LineFault>
    ensures reads { ReadsLine (kept_body schema.now entry.now found.body) result }
    ensures lawful { IfOk result (λ body. IsTrue (is_body schema.now entry.now body)) }
{
    let FoundBody { body, fault } = found;
    let Some(body) = body else {
        return breaks_by(Rule::Json, wrong_body(alloc, schema, entry, text, fault)?);
    };
    if !is_body(alloc, schema, entry, body.as_slice())? {
        return breaks_by(Rule::Json, wrong_body(alloc, schema, entry, text, None)?);
    }
    Ok(body)
}
