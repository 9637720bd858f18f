//! Steps and paths.
ghost use Rattle.std.specs.Prelude.{◌≡◌, ◌≢◌, ◌≤◌, List, IfOk, IfErr, IsErrOf, IsTrue, length, take, ◌++◌, ◌∷◌, []};
ghost use Rattle.std.specs.Cmp.{IsTotalOrder};
ghost use Rattle.std.specs.declared.cmp.Ordering.TheVariants.{Less};
ghost use Rattle.orc_path.specs.Order.{path_cmp, is_prefix};
ghost use Rattle.orc_path.specs.Steps.{PathStep, ends_in_keys, is_path, is_name_behind};
ghost use Rattle.orc_path.specs.Texts.{path_text, IsPathText};
ghost use Rattle.orc_path.specs.Faults.{IsPathFault, Reads};
ghost use Rattle.orc_path.specs.Reading.{path_of};

use crate::Name;
use crate::reading::{bad_place, read_path};
use orc_text::{Copied, Memory, Row, Text};
use std::alloc::Global;
use std::cmp::Ordering;
use std::marker::Model;

/// Why a text is no path or no name.
#[derive(Clone, Copy, Debug, PartialEq, Eq)]
pub enum PathFault {
    /// The text is none; `at` is the length in bytes of its longest prefix that is a prefix of one.
    BadPath { at: u64 },
    /// Memory could not be had.
    Memory,
}

impl From<Memory> for PathFault {
    ghost use Rattle.orc_path.specs.declared.path.PathFault.TheVariants as fault;
    ghost use Rattle.std.specs.Prelude.{◌≡◌};

    ghost from_gives = { λ _ e. e ≡ fault.Memory };

    fn from(_: Memory) -> PathFault {
        PathFault::Memory
    }
}

/// A node's name, with the keys of one entry of a list (or the value of a leaf-list), or none.
#[derive(Debug, PartialEq, Eq, PartialOrd, Ord, Drop)]
pub struct Step {
    pub node: Name,
    pub keys: Row<Text>,
}

impl Model for Step {
    ghost use Rattle.std.specs.Prelude.{IsTrue};
    ghost use Rattle.std.specs.List.{list_all};
    ghost use Rattle.orc_path.specs.Alphabet.{is_key};
    ghost use Rattle.orc_path.specs.Steps.{PathStep};

    ghost Value = { PathStep };

    ghost view = { λ step. record { node = step.node; keys = step.keys } };

    ghost invariant = { λ step. IsTrue (list_all is_key step.keys) };

    ghost inverse = { λ value. record { node = value.node; keys = value.keys } };
}

impl Step {
    /// An equal step.
    pub fn copy(&self, alloc: Global) -> Result<Step, Memory>
        ensures { IfOk result (λ step. step ≡ self.now) }
    {
        Ok(Step {
            node: self.node.copy(alloc)?,
            keys: self.keys.copy(alloc)?,
        })
    }
}

impl Copied for Step {
    fn copied(&self, alloc: Global) -> Result<Step, Memory> {
        self.copy(alloc)
    }
}

/// A list of steps from the root. The first name has its module, and the later ones have none.
#[derive(Debug, PartialEq, Eq, PartialOrd, Ord, Drop)]
pub struct Path {
    pub steps: Row<Step>,
}

impl Model for Path {
    ghost use Rattle.std.specs.Prelude.{IsTrue, List};
    ghost use Rattle.orc_path.specs.Steps.{PathStep, is_path};

    ghost Value = { List PathStep };

    ghost view = { λ path. path.steps };

    ghost invariant = { λ path. IsTrue (is_path path.steps) };

    ghost inverse = { λ steps. record { steps = steps } };
}

impl Path {
    /// The path of this text. `BadPath { at }` comes exactly where the text is no path text; `at`
    /// is then the length in bytes of its longest prefix that is a prefix of some path text. Memory
    /// is wanted for a path's text alone.
    pub fn parse(alloc: Global, text: &str) -> Result<Path, PathFault>
        ensures ok { IfOk result (λ path. path_text path ≡ text.now) }
        // A path's text is read as that path.
        ensures again { (written : List PathStep) → IsTrue (is_path written) → path_text written ≡ text.now
            → IfOk result (λ path. path ≡ written) }
        ensures fault { IfErr result (IsPathFault IsPathText text.now) }
        ensures memory { IsErrOf result PathFault.Memory → IsPathText text.now }
        ensures value { Reads (path_of text.now) result }
    {
        match bad_place(text) {
            Some(at) => Err(PathFault::BadPath { at }),
            None => Ok(read_path(alloc, text)?),
        }
    }

    /// An equal path.
    pub fn copy(&self, alloc: Global) -> Result<Path, Memory>
        ensures { IfOk result (λ path. path ≡ self.now) }
    {
        Ok(Path {
            steps: self.steps.copy(alloc)?,
        })
    }

    /// The order of paths: step by step, by the bytes of the name and then of each key.
    pub fn cmp(&self, other: &Path) -> Ordering
        ensures value { result ≡ path_cmp self.now other.now }
        ensures total { IsTotalOrder path_cmp }
    {
        Ord::cmp(self, other)
    }

    /// Whether the other path begins with this one's steps.
    pub fn is_prefix_of(&self, other: &Path) -> bool
        ensures value { result ≡ is_prefix self.now other.now }
        // A path comes before its extensions.
        ensures before { IsTrue result → self.now ≢ other.now → path_cmp self.now other.now ≡ Less }
    {
        other.steps.as_slice().starts_with(self.steps.as_slice())
    }

    /// Its first steps.
    pub fn first_steps(&self, alloc: Global, len: usize) -> Result<Path, Memory>
        requires { len ≤ length self.now }
        ensures { IfOk result (λ path. path ≡ take len self.now) }
    {
        Ok(Path {
            steps: Row::of_copies(alloc, &self.steps.as_slice()[..len])?,
        })
    }

    /// The path with one step more. The name of a first step has its module, and that of a later
    /// one has none.
    pub fn child(&self, alloc: Global, step: Step) -> Result<Path, Memory>
        requires { IsTrue (is_name_behind self.now step.node) }
        ensures { IfOk result (λ path. path ≡ self.now ++ step ∷ []) }
    {
        let mut steps = self.steps.copy(alloc)?;
        steps.push(step)?;
        Ok(Path { steps })
    }

    /// Whether its last step has keys, so that it carries an entry and no leaf.
    pub fn ends_in_keys(&self) -> bool
        ensures { result ≡ ends_in_keys self.now }
    {
        match self.steps.as_slice().last() {
            Some(step) => step.keys.len() > 0,
            None => false,
        }
    }
}

impl Copied for Path {
    fn copied(&self, alloc: Global) -> Result<Path, Memory> {
        self.copy(alloc)
    }
}
