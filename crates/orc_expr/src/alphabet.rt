//! What names and keys can stand where.
ghost use Rattle.std.specs.Prelude.{◌≡◌};
ghost use Rattle.std.specs.List.{list_all};
ghost use Rattle.orc_path.specs.Alphabet.{is_key, is_qualified};
ghost use Rattle.orc_path.specs.Steps.{is_name_behind};

use orc_path::{Name, Path, is_identifier, is_key};
use orc_text::Text;

/// Whether each text can be a key.
pub(crate) fn are_keys(keys: &[Text]) -> bool
    ensures { result ≡ list_all is_key keys.now }
{
    keys.iter().all(|key| is_key(key.as_str()))
}

// Whether the name has its module.
fn is_top_name(name: &Name) -> bool
    ensures { result ≡ is_qualified name.now }
{
    !is_identifier(name.as_str())
}

/// Whether the name can stand after a place: with its module at the top, and without it below.
pub(crate) fn is_name_behind(place: &Path, name: &Name) -> bool
    ensures { result ≡ is_name_behind place.now name.now }
{
    match place.steps.as_slice() {
        [] => is_top_name(name),
        [..] => is_identifier(name.as_str()),
    }
}
