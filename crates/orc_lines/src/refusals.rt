//! What is handed on where a line is refused. These are called on the way out alone.
ghost use Rattle.std.specs.Prelude.{◌≡◌, is_some};
ghost use Rattle.orc_path.specs.Limits.{is_long_name};

use crate::detail::{Bar, Detail, Excess, Passed, PathForm, WrongItem, WrongPath};
use crate::items::{is_past_path, is_past_value};
use crate::lines::{LONGEST_LINE, line_text};
use orc_decls::{is_kept, is_served};
use orc_path::{Item, Path, is_long_name};
use orc_schema_nodes::Schema;
use orc_services::{ServiceList, is_listed};
use orc_text::{Memory, Row, Text};
use std::alloc::Global;

/// The name, where it is too long.
pub fn long_name(name: &str) -> Option<Passed<'_>>
    ensures { is_some result ≡ is_long_name name.now }
{
    match is_long_name(name) {
        true => Some(Passed::Name(name)),
        false => None,
    }
}

/// Of a line that is too long, or else of the first byte too many of a bundle.
pub fn large_excess(line: &[u8]) -> Detail {
    match line_text(line).len() > LONGEST_LINE {
        true => Detail::Size(Excess::Line),
        false => Detail::Size(Excess::Bundle),
    }
}

/// Of a name that is too long.
pub fn name_excess(alloc: Global, name: &str) -> Result<Detail, Memory> {
    Ok(Detail::Size(Excess::Name(Text::from_str(alloc, name)?)))
}

// Of what passes a limit before a path.
fn passed_excess(alloc: Global, passed: Passed<'_>) -> Result<Detail, Memory> {
    match passed {
        Passed::Name(name) => name_excess(alloc, name),
        Passed::Steps(count) => Ok(Detail::Size(Excess::Steps(count))),
    }
}

// Of a path that is past a limit, as it is written.
fn written_excess(alloc: Global, path: &Option<Path>) -> Result<Detail, Memory> {
    match path {
        Some(path) => Ok(Detail::Size(Excess::Path(path.copy(alloc)?))),
        None => Ok(Detail::Plain),
    }
}

// Of a value that is past a limit, as it is written.
fn value_excess(alloc: Global, value: &Option<Text>) -> Result<Detail, Memory> {
    match value {
        Some(value) => Ok(Detail::Size(Excess::Value(value.copy(alloc)?))),
        None => Ok(Detail::Plain),
    }
}

/// Of a path, or of what stands before it, one of which passes a limit.
pub fn path_excess(
    alloc: Global,
    passed: Option<Passed<'_>>,
    path: &Option<Path>,
) -> Result<Detail, Memory> {
    match passed {
        Some(passed) => passed_excess(alloc, passed),
        None => written_excess(alloc, path),
    }
}

/// Of a path, a value after it, or what stands before them, one of which passes a limit.
pub(crate) fn leaf_excess(
    alloc: Global,
    passed: Option<Passed<'_>>,
    path: &Option<Path>,
    value: &Option<Text>,
) -> Result<Detail, Memory> {
    match passed.is_none() && !is_past_path(path) && is_past_value(value) {
        true => value_excess(alloc, value),
        false => path_excess(alloc, passed, path),
    }
}

/// Of a path in canonical form that passes a limit.
pub fn stored_path_excess(path: Path) -> Detail {
    Detail::Size(Excess::StoredPath(path))
}

/// Of a path and an item in canonical form, one of which passes a limit.
pub(crate) fn stored_excess(path: Path, item: Item) -> Detail {
    if path.is_long() {
        return stored_path_excess(path);
    }
    match item {
        Item::Leaf(text) => Detail::Size(Excess::StoredValue(text)),
        Item::Entry => Detail::Plain,
    }
}

/// Of a text that is no path.
pub fn no_path(alloc: Global, text: &str) -> Result<Detail, Memory> {
    Ok(Detail::NoPath(Text::from_str(alloc, text)?))
}

/// Of a text that isn't one of a value.
pub(crate) fn no_value(alloc: Global, text: &str) -> Result<Detail, Memory> {
    Ok(Detail::NoValue(Text::from_str(alloc, text)?))
}

// The paths of the lists that have a template.
fn list_paths(alloc: Global, lists: &[ServiceList]) -> Result<Row<Path>, Memory> {
    let mut paths = Row::new(alloc);
    for it in lists {
        paths.push(it.list.copy(alloc)?)?;
    }
    Ok(paths)
}

// Why no line of this form may name a path of the data, which has these lists of services.
fn data_bar(
    alloc: Global,
    lists: &[ServiceList],
    path: &Path,
    form: PathForm,
) -> Result<Bar, Memory> {
    if is_kept(path) {
        return Ok(Bar::Kept);
    }
    match form == PathForm::Service {
        true => match is_listed(lists, path) {
            true => Ok(Bar::Free),
            false => Ok(Bar::Unlisted(list_paths(alloc, lists)?)),
        },
        false => match is_served(lists, path) {
            true => Ok(Bar::Served(list_paths(alloc, lists)?)),
            false => Ok(Bar::Free),
        },
    }
}

// Why no line of this form may name a path, of the data, which has these lists of services, or of a device.
fn bar_of(
    alloc: Global,
    lists: Option<&[ServiceList]>,
    path: &Path,
    form: PathForm,
) -> Result<Bar, Memory> {
    match lists {
        Some(lists) => data_bar(alloc, lists, path, form),
        None => Ok(Bar::Free),
    }
}

/// Of a path that a line of this form may not have, of the data, which has these lists of services, or of a device.
pub fn wrong_path(
    alloc: Global,
    lists: Option<&[ServiceList]>,
    schema: &Schema,
    form: PathForm,
    path: &Path,
) -> Result<Detail, Memory> {
    Ok(Detail::Path(WrongPath {
        path: path.copy(alloc)?,
        form,
        schema: schema.copy(alloc)?,
        bar: bar_of(alloc, lists, path, form)?,
    }))
}

// An equal item, where there is one.
fn copied(alloc: Global, item: Option<&Item>) -> Result<Option<Item>, Memory> {
    match item {
        Some(item) => Ok(Some(item.copy(alloc)?)),
        None => Ok(None),
    }
}

/// Of a path and an item of which a key or the value is none of its type.
pub fn wrong_item(
    alloc: Global,
    schema: &Schema,
    path: &Path,
    item: Option<&Item>,
) -> Result<Detail, Memory> {
    Ok(Detail::Value(WrongItem {
        path: path.copy(alloc)?,
        item: copied(alloc, item)?,
        schema: schema.copy(alloc)?,
    }))
}
