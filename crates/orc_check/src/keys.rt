//! Leafrefs to a node whose one instance with a text can be named: the one key of a list, and what stands
//! once below the entries that the leafref shares.
ghost use Rattle.std.specs.Prelude.{◌≡◌, ◌∷◌, [], List, ℕ, IfSome, option_map};
ghost use Rattle.std.specs.Cmp.Lexicographic.{pointwise};
ghost use Rattle.orc_value.specs.Canon.{same_text};
ghost use Rattle.std.specs.List.{list_any};
ghost use Rattle.orc_check.specs.inside.Named.{is_key_leaf, is_list_of, IsOwnKey, is_leaf_list, has_key_named, IsSingle};

use crate::reach::goes_down;
use orc_schema_nodes::{Node, Schema, Target};
use orc_text::Text;

/// The names of a list, a leaf-list or a leaf, cut before its own.
#[derive(Drop)]
pub(crate) struct OwnKey<'a> {
    pub(crate) before: &'a [Text],
    pub(crate) list: &'a Text,
}

fn is_key_leaf(node: Option<&Node>) -> bool
    ensures { result ≡ is_key_leaf (option_map (λ found. found.now) node.entry) }
{
    match node {
        Some(Node::Leaf(leaf)) => leaf.key.is_some(),
        _ => false,
    }
}

fn is_one(keys: &[Text], key: &Text) -> bool
    ensures { result ≡ pointwise same_text keys.now (key.now ∷ []) }
{
    match keys {
        [] => false,
        [own, more @ ..] => own.as_str() == key.as_str() && more.is_empty(),
    }
}

// Whether the node is a list with this key alone.
fn is_list_of(node: Option<&Node>, key: &Text) -> bool
    ensures { result ≡ is_list_of key.now (option_map (λ found. found.now) node.entry) }
{
    match node {
        Some(Node::List(list)) => is_one(list.keys.as_slice(), key),
        _ => false,
    }
}

/// The list of which the target is the one key, where it stands below the entries that the target
/// shares, with containers alone between.
pub(crate) fn own_key<'a>(schema: &Schema, target: &'a Target) -> Option<OwnKey<'a>>
    ensures { IfSome result (λ own. (key : List ℕ) × IsOwnKey schema.now target.now own.before.now own.list.now key) }
{
    if schema.is_plain() {
        return None;
    }
    let names = target.names.as_slice();
    let Some((key, front)) = names.split_last() else {
        return None;
    };
    let Some((list, before)) = front.split_last() else {
        return None;
    };
    if target.shared > before.len() as u64 {
        return None;
    }
    if !is_key_leaf(schema.node_of_names(names)) {
        return None;
    }
    if !is_list_of(schema.node_of_names(front), key) {
        return None;
    }
    if !goes_down(schema, front, target.shared as usize) {
        return None;
    }
    Some(OwnKey { before, list })
}

/// Whether the node is a leaf-list.
pub(crate) fn is_leaf_list(node: Option<&Node>) -> bool
    ensures { result ≡ is_leaf_list (option_map (λ found. found.now) node.entry) }
{
    match node {
        Some(Node::LeafList(_)) => true,
        _ => false,
    }
}

fn is_among(keys: &[Text], name: &Text) -> bool
    ensures { result ≡ list_any (λ key. same_text key name.now) keys.now }
{
    keys.iter().any(|key| key.as_str() == name.as_str())
}

// Whether the node is a list, and one of its keys has this name.
fn has_key_named(node: Option<&Node>, name: &Text) -> bool
    ensures { result ≡ has_key_named name.now (option_map (λ found. found.now) node.entry) }
{
    match node {
        Some(Node::List(list)) => is_among(list.keys.as_slice(), name),
        _ => false,
    }
}

/// The names of a target that is no key, where it stands below the entries that it shares with
/// containers alone between.
pub(crate) fn single<'a>(schema: &Schema, target: &'a Target) -> Option<OwnKey<'a>>
    ensures { IfSome result (λ own. IsSingle schema.now target.now own.before.now own.list.now) }
{
    if schema.is_plain() {
        return None;
    }
    let names = target.names.as_slice();
    let Some((list, before)) = names.split_last() else {
        return None;
    };
    if target.shared > before.len() as u64 {
        return None;
    }
    if has_key_named(schema.node_of_names(before), list) {
        return None;
    }
    if !goes_down(schema, names, target.shared as usize) {
        return None;
    }
    Some(OwnKey { before, list })
}
