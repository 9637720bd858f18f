//! How a text of a bundle is shown.
ghost use Rattle.std.specs.Prelude.{◌≡◌, ◌++◌, [], OnOk, IsUtf8};
ghost use Rattle.std.specs.String.{string_bytes};
ghost use Rattle.orc_diagnose.specs.Quoted.{is_visible, quoted, shown_character};

use orc_text::Memory;
use std::alloc::Global;

// The most characters of a text that are shown.
const SHOWN: u64 = 100;

/// The text that these bytes are in UTF-8 (RFC 3629), and the empty one where they are none.
pub fn text_of(bytes: &[u8]) -> &str
    ensures text { IsUtf8 bytes.now → result.now ≡ bytes.now }
    ensures none { (IsUtf8 bytes.now → ⊥) → result.now ≡ [] }
{
    match std::str::from_utf8(bytes) {
        Ok(text) => text,
        Err(_) => "",
    }
}

/// Adds a text as it is shown: its first 100 characters, each that isn't seen by its number.
pub fn push_quoted(out: &mut String, alloc: Global, text: &str) -> Result<(), Memory>
    ensures { OnOk result (string_bytes out.new ≡ string_bytes out.old ++ quoted text.now) }
{
    let mut left = SHOWN;
    for c in text.chars() {
        if left == 0 {
            out.push_str("..")?;
            return Ok(());
        }
        push_shown(out, alloc, c)?;
        left -= 1;
    }
    Ok(())
}

// A character as it is shown.
fn push_shown(out: &mut String, alloc: Global, c: char) -> Result<(), Memory>
    ensures { OnOk result (string_bytes out.new ≡ string_bytes out.old ++ shown_character c) }
{
    if is_visible(c) {
        out.push(c)?;
    } else {
        out.push_str(format!(in alloc; "<U+{:X}>", u32::from(c))?.as_str())?;
    }
    Ok(())
}

// Whether a character is shown as it stands.
fn is_visible(c: char) -> bool
    ensures { result ≡ is_visible c }
{
    let c = u32::from(c);
    32 <= c && c <= 126
        || 174 <= c && c <= 8191
        || 8304 <= c && c <= 12287
        || 12289 <= c && c <= 55295
}
