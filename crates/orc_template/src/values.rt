//! The values of leaves and keys.
ghost use Rattle.std.specs.Prelude.{◌≡◌, ◌<◌, length, IfOk, IsTrue};
ghost use Rattle.std.specs.List.{list_all};
ghost use Rattle.serde_json.specs.View.{view as json_view};
ghost use Rattle.serde_json.specs.Find.{get};
ghost use Rattle.orc_path.specs.Alphabet.{is_key};
ghost use Rattle.orc_value.specs.Json.{canon_of_json};
ghost use Rattle.orc_schema_nodes.specs.Schemas.{path_names};
ghost use Rattle.orc_json.specs.Findings.{key_kind};
ghost use Rattle.orc_template.specs.Values.{fitted, lexical, value_done, key_done, keys_done, Does, GivesValue};
ghost use Rattle.orc_template.specs.inside.Machine.{scene};
ghost use Rattle.orc_template.specs.inside.Fitted.{FitsAnswer};

use crate::fault::{BAD_LEAF, Halt};
use crate::filling::fill;
use orc_expr::ReadSet;
use orc_path::{DataView, Path, Step, is_key, is_long_value};
use orc_schema_nodes::Schema;
use orc_text::{Row, Text};
use orc_value::{Kind, ValueFault, canon, from_json};
use serde_json::Value;
use std::alloc::Global;

// A canonical text, within the limit of a value.
fn fitted(found: Result<Text, ValueFault>) -> Result<Text, Halt>
    ensures value { FitsAnswer found result }
    ensures key { IfOk result (λ text. IsTrue (is_key text)) }
{
    match found {
        Ok(text) => if is_key(text.as_str()) && !is_long_value(text.as_str()) {
            Ok(text)
        } else {
            Err(Halt::Rule(BAD_LEAF))
        },
        Err(ValueFault::BadValue { rule: _ }) => Err(Halt::Rule(BAD_LEAF)),
        Err(ValueFault::Memory) => Err(Halt::Memory),
    }
}

// The canonical text of a string's text.
fn lexical(alloc: Global, kind: &Kind, text: &str) -> Result<Text, Halt>
    ensures value { GivesValue (lexical kind.now text.now) result }
    ensures key { IfOk result (λ text. IsTrue (is_key text)) }
{
    if is_long_value(text) {
        return Err(Halt::Rule(BAD_LEAF));
    }
    fitted(canon(alloc, kind, text))
}

// The canonical text of another JSON value.
fn plain_value(alloc: Global, kind: &Kind, value: &Value) -> Result<Text, Halt>
    ensures value { GivesValue (fitted (canon_of_json kind.now (json_view value.now))) result }
    ensures key { IfOk result (λ text. IsTrue (is_key text)) }
{
    fitted(from_json(alloc, kind, value))
}

/// The canonical text of a value of this kind.
pub(crate) fn value_text<V: DataView>(
    alloc: Global,
    view: &V,
    here: &Path,
    kind: &Kind,
    value: &Value,
    reads: &mut ReadSet,
) -> Result<Text, Halt>
    ensures does { Does (value_done (scene (V.viewed view.now) here.now) kind.now (json_view value.now)
        reads.old.reads) reads.new.reads result }
    ensures key { IfOk result (λ text. IsTrue (is_key text)) }
{
    match value.as_str() {
        Some(text) => {
            let text = fill(alloc, view, here, text, reads)?;
            lexical(alloc, kind, text.as_str())
        }
        None => plain_value(alloc, kind, value),
    }
}

// The text of a key of an entry.
fn key_text<V: DataView>(
    alloc: Global,
    view: &V,
    here: &Path,
    schema: &Schema,
    list: &[Step],
    entry: &Value,
    key: &Text,
    reads: &mut ReadSet,
) -> Result<Text, Halt>
    ensures does { Does (key_done (scene (V.viewed view.now) here.now) schema.now (path_names list.now)
        (json_view entry.now) key.now reads.old.reads) reads.new.reads result }
    ensures key { IfOk result (λ text. IsTrue (is_key text)) }
{
    let Some(kind) = schema.kind_below(list, key.as_str()) else {
        return Err(Halt::Rule(BAD_LEAF));
    };
    let Some(value) = entry.get(key.as_str()) else {
        return Err(Halt::Rule(BAD_LEAF));
    };
    value_text(alloc, view, here, kind, value, reads)
}

/// The texts of the keys of an entry, in the order of the list's key names.
pub(crate) fn key_texts<V: DataView>(
    alloc: Global,
    view: &V,
    here: &Path,
    schema: &Schema,
    list: &[Step],
    entry: &Value,
    names: &[Text],
    reads: &mut ReadSet,
) -> Result<Row<Text>, Halt>
    ensures does { Does (keys_done (scene (V.viewed view.now) here.now) schema.now (path_names list.now)
        (json_view entry.now) names.now reads.old.reads) reads.new.reads result }
    ensures keys { IfOk result (λ keys. IsTrue (list_all is_key keys)) }
    ensures some { IfOk result (λ keys. 0 < length keys) }
{
    if names.is_empty() {
        return Err(Halt::Rule(BAD_LEAF));
    }
    let mut keys = Row::new(alloc);
    for name in names {
        let text = key_text(alloc, view, here, schema, list, entry, name, reads)?;
        keys.push(text)?;
    }
    Ok(keys)
}
