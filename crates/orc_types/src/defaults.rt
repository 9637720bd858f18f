//! The text of a `default`.
ghost use Rattle.std.specs.Prelude.{◌≡◌, IfOk};
ghost use Rattle.orc_types.specs.Defaults.{has_form, default_of};

use crate::numbers::is_signed_count;
use orc_text::{Memory, Text};
use orc_value::{Kind, ValueFault, canon};
use std::alloc::Global;

// Whether the text has the form of a default of this type.
fn has_form(kind: &Kind, text: &str) -> bool
    ensures { result ≡ has_form kind.now text.now }
{
    match kind {
        Kind::Int(_) => is_signed_count(text.as_bytes()),
        Kind::Decimal(_) | Kind::Str(_) | Kind::Bool | Kind::Enum(_) => true,
        Kind::Empty => false,
    }
}

/// The canonical text of the value that a `default` gives, or none where its text is no default of
/// the type. An integer is decimal, with a sign or none, and has no leading zero.
pub fn default_of(alloc: Global, kind: &Kind, text: &str) -> Result<Option<Text>, Memory>
    ensures { IfOk result (λ found. found ≡ default_of kind.now text.now) }
{
    if !has_form(kind, text) {
        return Ok(None);
    }
    match canon(alloc, kind, text) {
        Ok(canonical) => Ok(Some(canonical)),
        Err(ValueFault::BadValue { rule: _ }) => Ok(None),
        Err(ValueFault::Memory) => Err(Memory),
    }
}
