//! How long names, paths and values may be.
ghost use Rattle.std.specs.Prelude.{◌≡◌, length, nat_lt};
ghost use Rattle.std.specs.List.{list_any};
ghost use Rattle.orc_path.specs.Texts.{path_text};
ghost use Rattle.orc_path.specs.declared.limits.TheConstants.{PATH_LEN};
ghost use Rattle.orc_path.specs.Limits.{is_long_name, is_long_value, is_long_node, is_long_step, is_long_path};

use crate::{Path, Step};
use orc_text::Text;

/// The bytes of an identifier.
pub const NAME_LEN: usize = 64;

/// The steps of a path.
pub const PATH_STEPS: usize = 32;

/// The keys of a step.
pub const STEP_KEYS: usize = 8;

/// The bytes of a path's text.
pub const PATH_LEN: usize = 4096;

/// The bytes of a value or a key.
pub const VALUE_LEN: usize = 4096;

/// Whether an identifier is longer than it may be.
pub fn is_long_name(name: &str) -> bool
    ensures { result ≡ is_long_name name.now }
{
    name.len() > NAME_LEN
}

/// Whether a value or a key is longer than it may be.
pub fn is_long_value(value: &str) -> bool
    ensures { result ≡ is_long_value value.now }
{
    value.len() > VALUE_LEN
}

// Whether an identifier of a node's name is longer than it may be.
fn is_long_node(node: &str) -> bool
    ensures { result ≡ is_long_node node.now }
{
    match node.split_once(':') {
        Some((module, name)) => is_long_name(module) || is_long_name(name),
        None => is_long_name(node),
    }
}

// Whether one of the keys is longer than it may be.
fn has_long_key(keys: &[Text]) -> bool
    ensures { result ≡ list_any is_long_value keys.now }
{
    keys.iter().any(|key| is_long_value(key.as_str()))
}

// Whether the step has more keys, or longer parts, than it may have.
fn is_long_step(step: &Step) -> bool
    ensures { result ≡ is_long_step step.now }
{
    step.keys.len() > STEP_KEYS
        || has_long_key(step.keys.as_slice())
        || is_long_node(step.node.as_str())
}

// Whether one of the steps has.
fn has_long_step(steps: &[Step]) -> bool
    ensures { result ≡ list_any is_long_step steps.now }
{
    steps.iter().any(|step| is_long_step(step))
}

impl Path {
    // Whether its text is longer than it may be.
    fn has_long_text(&self) -> bool
        ensures { result ≡ nat_lt PATH_LEN (length (path_text self.now)) }
    {
        self.text_len() > PATH_LEN as u64
    }

    /// Whether the path has more steps, a longer text, or longer steps than it may have.
    pub fn is_long(&self) -> bool
        ensures { result ≡ is_long_path self.now }
    {
        self.steps.len() > PATH_STEPS
            || self.has_long_text()
            || has_long_step(self.steps.as_slice())
    }
}
