//! How far an expression was followed.
ghost use Rattle.std.specs.Prelude.{◌≡◌};

use crate::Read;
use crate::looked::Looked;
use orc_path::{Name, Path};
use orc_text::{Row, Text};
use std::collections::LinkedList;

/// A predicate: a key's name, and what its term gives.
#[derive(Drop)]
pub(crate) struct Asked {
    pub(crate) key: Name,
    pub(crate) given: Looked<Text>,
}

/// The last step so far: where the steps before it lead, in the schema and in the data, its name,
/// and its predicates.
pub(crate) struct LastStep {
    pub(crate) parent: Path,
    pub(crate) before: Looked<Path>,
    pub(crate) name: Name,
    pub(crate) asked: Row<Asked>,
}

// Written out, so that each exit that lets a step go does so by one call.
impl Drop for LastStep {
    fn drop(self) {
        let LastStep {
            parent: _,
            before: _,
            name: _,
            asked: _,
        } = self;
    }
}

impl LastStep {
    /// Where the steps before it lead.
    pub(crate) fn into_before(self) -> Looked<Path>
        ensures { result ≡ self.before }
    {
        let LastStep {
            parent: _,
            before,
            name: _,
            asked: _,
        } = self;
        before
    }

    /// Where the steps before it lead, its name, and its predicates.
    pub(crate) fn into_parts(self) -> (Looked<Path>, Name, Row<Asked>)
        ensures before { result.0 ≡ self.before }
        ensures name { result.1 ≡ self.name }
        ensures asked { result.2 ≡ self.asked }
    {
        let LastStep {
            parent: _,
            before,
            name,
            asked,
        } = self;
        (before, name, asked)
    }
}

/// How far an expression was followed: it is the context, a text in quotes, or has a last step.
#[derive(Drop)]
pub(crate) enum Reached {
    Context,
    Given(Text),
    Last(LastStep),
}

/// The keys that predicates choose, or nothing where a term gives no text, or that one gives more
/// than one.
#[derive(Drop)]
pub(crate) enum Choice {
    Keys(Row<Text>),
    Nothing,
    Many,
}

/// What the predicates of a step choose, and what their terms read.
#[derive(Drop)]
pub(crate) struct Chosen {
    pub(crate) choice: Choice,
    pub(crate) reads: LinkedList<Read>,
}
