//! Items and where they stand.
ghost use Rattle.std.specs.Prelude.{IsTrue, ◌≡◌, [], IfOk, IfSome, MatchOption, None, Some, false, is_some, option_map};
ghost use Rattle.orc_path.specs.Alphabet.{is_value};
ghost use Rattle.orc_path.specs.Reading.{path_of};
ghost use Rattle.orc_path.specs.Values.{value_of};
ghost use Rattle.orc_decls.specs.Calls.{is_data_path, is_forbid_rule, is_item_under, is_list_path, is_put, is_served};
ghost use Rattle.orc_lines.specs.Answers.{ReadsLine};
ghost use Rattle.orc_lines.specs.Items.{is_past_path, is_past_value, is_long_item, is_barred, can_carry, canonical_put, after_mark, data_path_of, entry_of, forbidden_of, kept_path_of, leaf_in, leaf_of, list_path_of, put_of, stored_data_path, stored_list_path, names_service, is_service_at, service_path_of, stored_service_path};
ghost use Rattle.orc_schema_nodes.specs.Schemas.{SchemaTable, path_names};
ghost use Rattle.orc_typed.specs.Typed.{canonical_path};
ghost use Rattle.orc_typed.specs.Laws.{has_plain_text};

use crate::detail::{Passed, PathForm};
use crate::fault::{LineFault, breaks, breaks_by};
use crate::lists::{is_data_path, is_list_path, names_list};
use crate::refusals::{
    leaf_excess, no_path, no_value, path_excess, stored_excess, stored_path_excess, wrong_item,
    wrong_path,
};
use crate::words::cut;
use orc_call::Put;
use orc_decls::{Rule, blank_item, is_kept, is_served};
use orc_path::{Item, Path, PathFault, is_long_value, read_value, values_are_read};
use orc_schema_nodes::Schema;
use orc_services::{ServiceList, is_listed};
use orc_text::{Memory, Text};
use orc_typed::{
    canonical_is_typed, canonical_item, canonical_keeps, canonical_path, is_in_schema,
};
use std::alloc::Global;

/// The path of a text, where it is one.
pub fn read_path(alloc: Global, word: &str) -> Result<Option<Path>, Memory>
    ensures { IfOk result (λ found. found ≡ path_of word.now) }
{
    match Path::parse(alloc, word) {
        Ok(path) => Ok(Some(path)),
        Err(PathFault::BadPath { .. }) => Ok(None),
        Err(PathFault::Memory) => Err(Memory),
    }
}

// The value of a text, where it is one.
fn value_in(alloc: Global, text: &str) -> Result<Option<Text>, Memory>
    ensures value { IfOk result (λ found. found ≡ value_of text.now) }
    ensures lawful { IfOk result (λ found. IfSome found (λ value. IsTrue (is_value value))) }
{
    values_are_read();
    read_value(alloc, text)
}

/// Whether a path passes a limit.
pub fn is_past_path(path: &Option<Path>) -> bool
    ensures { result ≡ is_past_path path.now }
{
    match path {
        Some(path) => path.is_long(),
        None => false,
    }
}

/// The path that a word is, which keeps the limits. What stands before it may pass one. A limit
/// that is passed is rule `size`, and a word that is no path rule `path`.
pub fn read_kept_path(
    alloc: Global,
    passed: Option<Passed<'_>>,
    word: &str,
) -> Result<Path, LineFault>
    ensures { ReadsLine (kept_path_of (is_some passed.entry) word.now) result }
{
    let path = read_path(alloc, word)?;
    if passed.is_some() || is_past_path(&path) {
        return breaks_by(Rule::Size, path_excess(alloc, passed, &path)?);
    }
    match path {
        Some(path) => Ok(path),
        None => breaks_by(Rule::Path, no_path(alloc, word)?),
    }
}

/// Whether a value does.
pub(crate) fn is_past_value(value: &Option<Text>) -> bool
    ensures { result ≡ is_past_value value.now }
{
    match value {
        Some(value) => is_long_value(value.as_str()),
        None => false,
    }
}

// What stands after `=` and a space.
fn after_mark(rest: &str) -> Option<&str>
    ensures { MatchOption result (after_mark rest.now ≡ None) (λ value. after_mark rest.now ≡ Some value.now) }
{
    match cut(rest) {
        Some(("=", value)) => Some(value),
        _ => None,
    }
}

/// Whether the text of an item passes a limit.
pub fn is_long_item(item: &Item) -> bool
    ensures { result ≡ is_long_item item.now }
{
    match item {
        Item::Entry => false,
        Item::Leaf(text) => is_long_value(text.as_str()),
    }
}

/// Whether the path can carry such an item under the schema, whatever their texts.
pub fn can_carry(schema: &Schema, path: &Path, item: &Item) -> bool
    ensures { result ≡ can_carry schema.now path.now item.now }
{
    item.fits(path) && is_in_schema(schema, path, item)
}

// An item and where it stands, in canonical form.
fn canonical_put(alloc: Global, schema: &Schema, path: &Path, item: &Item) -> Result<Put, LineFault>
    ensures reads { ReadsLine (canonical_put schema.now path.now item.now) result }
    ensures lawful { IsTrue (can_carry schema.now path.now item.now) → IsTrue (has_plain_text item.now)
        → IfOk result (λ put. IsTrue (is_put schema.now put)) }
    ensures names { IfOk result (λ put. path_names put.path ≡ path_names path.now) }
{
    canonical_is_typed();
    canonical_keeps();
    let Some(own) = canonical_path(alloc, schema, path)? else {
        return breaks_by(Rule::Value, wrong_item(alloc, schema, path, Some(item))?);
    };
    let Some(own_item) = canonical_item(alloc, schema, path, item)? else {
        return breaks_by(Rule::Value, wrong_item(alloc, schema, path, Some(item))?);
    };
    if own.is_long() || is_long_item(&own_item) {
        return breaks_by(Rule::Size, stored_excess(own, own_item));
    }
    Ok(Put {
        path: own,
        item: own_item,
    })
}

// Whether no line may name the path, where it is one of the data with these lists of services.
fn is_barred(lists: Option<&[ServiceList]>, path: &Path) -> bool
    ensures { result ≡ is_barred (option_map (λ lists. lists.now) lists.entry) path.now }
{
    match lists {
        Some(lists) => is_kept(path) || is_served(lists, path),
        None => false,
    }
}

// An entry, of the data or of a device.
fn read_entry(
    alloc: Global,
    lists: Option<&[ServiceList]>,
    schema: &Schema,
    passed: Option<Passed<'_>>,
    word: &str,
) -> Result<Put, LineFault>
    ensures reads { ReadsLine
        (entry_of (option_map (λ lists. lists.now) lists.entry) schema.now (is_some passed.entry) word.now) result }
    ensures lawful { IfOk result (λ put. IsTrue (is_put schema.now put)) }
    ensures free { IfOk result (λ put. is_barred (option_map (λ lists. lists.now) lists.entry) put.path ≡ false) }
{
    if word.is_empty() {
        return breaks(Rule::Line);
    }
    let path = read_kept_path(alloc, passed, word)?;
    if is_barred(lists, &path) || !can_carry(schema, &path, &Item::Entry) {
        return breaks_by(
            Rule::Path,
            wrong_path(alloc, lists, schema, PathForm::Entry, &path)?,
        );
    }
    canonical_put(alloc, schema, &path, &Item::Entry)
}

// A leaf and the text of its value.
fn read_leaf(
    alloc: Global,
    lists: Option<&[ServiceList]>,
    schema: &Schema,
    passed: Option<Passed<'_>>,
    word: &str,
    text: &str,
) -> Result<Put, LineFault>
    ensures reads { ReadsLine
        (leaf_of (option_map (λ lists. lists.now) lists.entry) schema.now (is_some passed.entry) word.now text.now)
        result }
    ensures lawful { IfOk result (λ put. IsTrue (is_put schema.now put)) }
    ensures free { IfOk result (λ put. is_barred (option_map (λ lists. lists.now) lists.entry) put.path ≡ false) }
{
    if word.is_empty() {
        return breaks(Rule::Line);
    }
    let path = read_path(alloc, word)?;
    let value = value_in(alloc, text)?;
    if passed.is_some() || is_past_path(&path) || is_past_value(&value) {
        return breaks_by(Rule::Size, leaf_excess(alloc, passed, &path, &value)?);
    }
    let Some(path) = path else {
        return breaks_by(Rule::Path, no_path(alloc, word)?);
    };
    if is_barred(lists, &path) || !can_carry(schema, &path, &Item::Leaf(Text::new(alloc))) {
        return breaks_by(
            Rule::Path,
            wrong_path(alloc, lists, schema, PathForm::Leaf, &path)?,
        );
    }
    let Some(value) = value else {
        return breaks_by(Rule::Value, no_value(alloc, text)?);
    };
    canonical_put(alloc, schema, &path, &Item::Leaf(value))
}

/// An item line: a path, and after it ` = ` and a value or nothing. It is stored in canonical form,
/// as the schema has it. A name before it may be too long. Of the data, which has these lists of
/// services, a line may name neither what the orchestrator keeps itself nor a service.
pub fn read_put(
    alloc: Global,
    lists: Option<&[ServiceList]>,
    schema: &Schema,
    passed: Option<Passed<'_>>,
    text: &str,
) -> Result<Put, LineFault>
    ensures reads { ReadsLine
        (put_of (option_map (λ lists. lists.now) lists.entry) schema.now (is_some passed.entry) text.now) result }
    ensures lawful { IfOk result (λ put. IsTrue (is_put schema.now put)) }
    ensures free { IfOk result (λ put. is_barred (option_map (λ lists. lists.now) lists.entry) put.path ≡ false) }
{
    let Some((word, rest)) = cut(text) else {
        return read_entry(alloc, lists, schema, passed, text);
    };
    match after_mark(rest) {
        Some(value) => read_leaf(alloc, lists, schema, passed, word, value),
        None => breaks(Rule::Line),
    }
}

// A path of the data, in canonical form.
fn stored_data_path(alloc: Global, schema: &Schema, path: &Path) -> Result<Path, LineFault>
    ensures reads { ReadsLine (stored_data_path schema.now (canonical_path schema.now path.now)) result }
    ensures lawful { IfOk result (λ own. IsTrue (is_data_path schema.now own)) }
    ensures names { IfOk result (λ own. path_names own ≡ path_names path.now) }
{
    let Some(own) = canonical_path(alloc, schema, path)? else {
        return breaks_by(Rule::Value, wrong_item(alloc, schema, path, None)?);
    };
    if !is_data_path(alloc, schema, &own) {
        return breaks_by(Rule::Size, stored_path_excess(own));
    }
    Ok(own)
}

/// The path of a line `unset`: one of the data that can carry an item. It is stored in canonical form.
pub fn read_data_path(
    alloc: Global,
    lists: &[ServiceList],
    schema: &Schema,
    word: &str,
) -> Result<Path, LineFault>
    ensures reads { ReadsLine (data_path_of lists.now schema.now word.now) result }
    ensures lawful { IfOk result (λ path. IsTrue (is_data_path schema.now path)) }
    ensures free { IfOk result (λ path. is_served lists.now path ≡ false) }
{
    if word.is_empty() {
        return breaks(Rule::Line);
    }
    let path = read_kept_path(alloc, None, word)?;
    if is_barred(Some(lists), &path) || !can_carry(schema, &path, &blank_item(alloc, &path)) {
        return breaks_by(
            Rule::Path,
            wrong_path(alloc, Some(lists), schema, PathForm::Item, &path)?,
        );
    }
    stored_data_path(alloc, schema, &path)
}

// Whether the path is that of an entry of one of the lists, whatever its texts.
fn names_service(alloc: Global, lists: &[ServiceList], schema: &Schema, path: &Path) -> bool
    ensures { result ≡ names_service lists.now schema.now path.now }
{
    is_listed(lists, path) && (!is_kept(path) && can_carry(schema, path, &blank_item(alloc, path)))
}

// Whether it is one that can be stored: it keeps the limits, and its keys are in canonical form.
fn is_service_at(alloc: Global, lists: &[ServiceList], schema: &Schema, path: &Path) -> bool
    ensures { result ≡ is_service_at lists.now schema.now path.now }
{
    is_data_path(alloc, schema, path) && is_listed(lists, path)
}

// The path of a service, in canonical form.
fn stored_service_path(
    alloc: Global,
    lists: &[ServiceList],
    schema: &Schema,
    path: &Path,
) -> Result<Path, LineFault>
    ensures reads { ReadsLine
        (stored_service_path lists.now schema.now (canonical_path schema.now path.now)) result }
    ensures lawful { IfOk result (λ own. IsTrue (is_service_at lists.now schema.now own)) }
{
    let Some(own) = canonical_path(alloc, schema, path)? else {
        return breaks_by(Rule::Value, wrong_item(alloc, schema, path, None)?);
    };
    if !is_service_at(alloc, lists, schema, &own) {
        return breaks_by(Rule::Size, stored_path_excess(own));
    }
    Ok(own)
}

/// The path of a service: that of an entry of one of these lists, which the schema has. It is stored in
/// canonical form.
pub fn read_service_path(
    alloc: Global,
    lists: &[ServiceList],
    schema: &Schema,
    word: &str,
) -> Result<Path, LineFault>
    ensures reads { ReadsLine (service_path_of lists.now schema.now word.now) result }
    ensures lawful { IfOk result (λ path. IsTrue (is_service_at lists.now schema.now path)) }
{
    if word.is_empty() {
        return breaks(Rule::Line);
    }
    let path = read_kept_path(alloc, None, word)?;
    if !names_service(alloc, lists, schema, &path) {
        return breaks_by(
            Rule::Path,
            wrong_path(alloc, Some(lists), schema, PathForm::Service, &path)?,
        );
    }
    stored_service_path(alloc, lists, schema, &path)
}

// The path of a list, in canonical form.
fn stored_list_path(alloc: Global, schema: &Schema, path: &Path) -> Result<Path, LineFault>
    ensures reads { ReadsLine (stored_list_path schema.now (canonical_path schema.now path.now)) result }
    ensures lawful { IfOk result (λ own. IsTrue (is_list_path schema.now own)) }
{
    let Some(own) = canonical_path(alloc, schema, path)? else {
        return breaks_by(Rule::Value, wrong_item(alloc, schema, path, None)?);
    };
    if !is_list_path(schema, &own) {
        return breaks_by(Rule::Size, stored_path_excess(own));
    }
    Ok(own)
}

/// The path of a list or a leaf-list, in a line `rule D max`. It is stored in canonical form. A name
/// before it may be too long.
pub fn read_list_path(
    alloc: Global,
    schema: &Schema,
    passed: Option<Passed<'_>>,
    word: &str,
) -> Result<Path, LineFault>
    ensures reads { ReadsLine (list_path_of schema.now (is_some passed.entry) word.now) result }
    ensures lawful { IfOk result (λ path. IsTrue (is_list_path schema.now path)) }
{
    if word.is_empty() {
        return breaks(Rule::Line);
    }
    let path = read_kept_path(alloc, passed, word)?;
    if !names_list(schema, &path) {
        return breaks_by(
            Rule::Path,
            wrong_path(alloc, None, schema, PathForm::List, &path)?,
        );
    }
    stored_list_path(alloc, schema, &path)
}

// The path of a leaf, and its text.
fn leaf_in(path: Path, item: Item) -> Result<(Path, Text), LineFault>
    ensures reads { ReadsLine (leaf_in path item) result }
    ensures lawful { (schema : SchemaTable) → IsTrue (is_item_under schema path item)
        → IfOk result (λ leaf. IsTrue (is_forbid_rule schema leaf)) }
{
    match item {
        Item::Entry => breaks(Rule::Line),
        Item::Leaf(text) => Ok((path, text)),
    }
}

/// The leaf of a line `rule D forbid`, and the text that it may not have. A name before it may
/// be too long.
#[tactic(auto, unfolding(crate::specs::Items::forbidden_of))]
pub fn read_forbidden(
    alloc: Global,
    schema: &Schema,
    passed: Option<Passed<'_>>,
    text: &str,
) -> Result<(Path, Text), LineFault>
    ensures reads { ReadsLine (forbidden_of schema.now (is_some passed.entry) text.now) result }
    ensures lawful { IfOk result (λ leaf. IsTrue (is_forbid_rule schema.now leaf)) }
{
    let Some((word, rest)) = cut(text) else {
        return breaks(Rule::Line);
    };
    let Some(value) = after_mark(rest) else {
        return breaks(Rule::Line);
    };
    let put = read_leaf(alloc, None, schema, passed, word, value)?;
    leaf_in(put.path, put.item)
}
