//! The form of a leafref's path.
ghost use Rattle.std.specs.Prelude.{◌≡◌};
ghost use Rattle.std.specs.List.{list_all, slice_split};
ghost use Rattle.orc_types.specs.Paths.{is_step_mark, is_reference, are_names, leads_down, is_leafref_path};

use crate::cuts::split_at;
use orc_path::is_identifier;

/// Whether the text is an identifier, alone or after a prefix and a colon, as names of types are.
pub fn is_reference(text: &str) -> bool
    ensures { result ≡ is_reference text.now }
{
    match split_at(text, ':') {
        Some((prefix, name)) => is_identifier(prefix) && is_identifier(name),
        None => is_identifier(text),
    }
}

// Whether nothing but names stands between the slashes.
fn all_references(text: &str) -> bool
    ensures { result ≡ list_all is_reference (slice_split is_step_mark text.now) }
{
    let mut rest = text;
    while let Some((part, more)) = split_at(rest, '/') {
        if !is_reference(part) {
            return false;
        }
        rest = more;
    }
    is_reference(rest)
}

// Whether names stand between the slashes.
fn are_names(text: &str) -> bool
    ensures { result ≡ are_names (slice_split is_step_mark text.now) }
{
    all_references(text)
}

// Whether `..` stands between the slashes any number of times, and then names.
fn leads_down(text: &str) -> bool
    ensures { result ≡ leads_down (slice_split is_step_mark text.now) }
{
    let mut rest = text;
    while let Some((part, more)) = split_at(rest, '/') {
        if part != ".." {
            return are_names(rest);
        }
        rest = more;
    }
    rest != ".." && is_reference(rest)
}

/// Whether the text has the form of a leafref's path: `/` and names, or `../` once or more and names, each an
/// identifier, alone or after a prefix. Predicates are none of it.
pub fn is_leafref_path(text: &str) -> bool
    ensures { result ≡ is_leafref_path text.now }
{
    match split_at(text, '/') {
        Some((first, rest)) => {
            if first.is_empty() {
                are_names(rest)
            } else {
                first == ".." && leads_down(rest)
            }
        },
        None => false,
    }
}
