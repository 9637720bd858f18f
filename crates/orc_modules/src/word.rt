//! The keywords of the profile.
ghost use Rattle.std.specs.Prelude.{◌≡◌};
ghost use Rattle.orc_modules.specs.Words.{word_of, node_word, part_word, other_word};

use orc_types::is_idle;

/// What a keyword is to this profile of YANG. `orc_types` says what may stand below `type`.
#[derive(Clone, Copy, Debug, PartialEq, Eq)]
pub enum Word {
    Module,
    YangVersion,
    Namespace,
    Prefix,
    Import,
    Typedef,
    Grouping,
    Container,
    List,
    Leaf,
    LeafList,
    Uses,
    TypeName,
    Default,
    Mandatory,
    Config,
    Key,
    MinElements,
    MaxElements,
    OrderedBy,
    /// `rpc`, `action` and `notification`, which define no configuration.
    Dropped,
    /// A keyword without effect, or one with a prefix.
    Idle,
    /// Any other keyword.
    Other,
}

/// What a keyword is.
pub fn word_of(keyword: &str) -> Word
    ensures { result ≡ word_of keyword.now }
{
    if keyword == "module" {
        Word::Module
    } else if keyword == "yang-version" {
        Word::YangVersion
    } else if keyword == "namespace" {
        Word::Namespace
    } else if keyword == "prefix" {
        Word::Prefix
    } else if keyword == "import" {
        Word::Import
    } else if keyword == "typedef" {
        Word::Typedef
    } else if keyword == "grouping" {
        Word::Grouping
    } else {
        node_word(keyword)
    }
}

// What a keyword is: data definitions.
fn node_word(keyword: &str) -> Word
    ensures { result ≡ node_word keyword.now }
{
    if keyword == "container" {
        Word::Container
    } else if keyword == "list" {
        Word::List
    } else if keyword == "leaf" {
        Word::Leaf
    } else if keyword == "leaf-list" {
        Word::LeafList
    } else if keyword == "uses" {
        Word::Uses
    } else {
        part_word(keyword)
    }
}

// What a keyword is: what nodes and types have.
fn part_word(keyword: &str) -> Word
    ensures { result ≡ part_word keyword.now }
{
    if keyword == "type" {
        Word::TypeName
    } else if keyword == "default" {
        Word::Default
    } else if keyword == "mandatory" {
        Word::Mandatory
    } else if keyword == "config" {
        Word::Config
    } else if keyword == "key" {
        Word::Key
    } else if keyword == "min-elements" {
        Word::MinElements
    } else if keyword == "max-elements" {
        Word::MaxElements
    } else if keyword == "ordered-by" {
        Word::OrderedBy
    } else {
        other_word(keyword)
    }
}

// What a keyword is: what defines no configuration, and what has no effect.
fn other_word(keyword: &str) -> Word
    ensures { result ≡ other_word keyword.now }
{
    if keyword == "rpc" {
        Word::Dropped
    } else if keyword == "action" {
        Word::Dropped
    } else if keyword == "notification" {
        Word::Dropped
    } else if is_idle(keyword) {
        Word::Idle
    } else {
        Word::Other
    }
}
