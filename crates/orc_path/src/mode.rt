//! Where a reader of a path or a name stands.
ghost use Rattle.std.specs.Prelude.{◌≡◌};
ghost use Rattle.orc_path.specs.declared.mode.Mode.TheVariants.{Escape};
ghost use Rattle.orc_path.specs.inside.Reading.{unescape, is_raw, name_mode, is_name_end, end_mode, key_mode, mark_mode, next_mode, is_path_end, begun_in, Moves};

use crate::alphabet::{is_name_byte, is_name_start};
use orc_text::is_plain_character;

/// Where a reader stands.
#[derive(Clone, Copy)]
pub(crate) enum Mode {
    /// Before the text.
    Start,
    /// After the first slash.
    Slash,
    /// In the first name, which may be its module's.
    Module,
    /// After the colon.
    Colon,
    /// In a name that may end here.
    Inside,
    /// After a later slash.
    Next,
    /// In a key.
    Key,
    /// After a backslash in a key.
    Escape,
    /// After a key.
    Closed,
}

/// The mode after a byte of a name, where that byte may come here.
pub(crate) fn name_mode(mode: Mode, byte: u8) -> Option<Mode>
    ensures { result ≡ name_mode mode byte }
{
    match mode {
        Mode::Slash if is_name_start(byte) => Some(Mode::Module),
        Mode::Module if byte == b':' => Some(Mode::Colon),
        Mode::Module if is_name_byte(byte) => Some(Mode::Module),
        Mode::Colon | Mode::Next if is_name_start(byte) => Some(Mode::Inside),
        Mode::Inside if is_name_byte(byte) => Some(Mode::Inside),
        _ => None,
    }
}

/// Whether a name may end here.
pub(crate) fn is_name_end(mode: Mode) -> bool
    ensures { result ≡ is_name_end mode }
{
    matches!(mode, Mode::Module | Mode::Inside)
}

/// The byte that this one means after a backslash in a key.
pub(crate) fn unescaped(byte: u8) -> Option<u8>
    ensures { result ≡ unescape byte }
{
    match byte {
        b'\\' | b']' => Some(byte),
        b's' => Some(b' '),
        b't' => Some(b'\t'),
        b'n' => Some(b'\n'),
        b'r' => Some(b'\r'),
        _ => None,
    }
}

/// Whether this byte of a key stands for itself.
pub(crate) fn is_raw(byte: u8) -> bool
    ensures { result ≡ is_raw byte }
{
    byte > b' ' && byte != b'\\' && byte != b']'
}

// After a name or a key.
fn end_mode(byte: u8) -> Option<Mode>
    ensures { result ≡ end_mode byte }
{
    match byte {
        b'[' => Some(Mode::Key),
        b'/' => Some(Mode::Next),
        _ => None,
    }
}

// In a key.
fn key_mode(byte: u8) -> Option<Mode>
    ensures { result ≡ key_mode byte }
{
    match byte {
        b']' => Some(Mode::Closed),
        b'\\' => Some(Mode::Escape),
        _ if is_raw(byte) => Some(Mode::Key),
        _ => None,
    }
}

// After a backslash.
fn escape_mode(byte: u8) -> Option<Mode>
    ensures { result ≡ mark_mode Escape byte }
{
    match unescaped(byte) {
        Some(_meant) => Some(Mode::Key),
        None => None,
    }
}

// The mode after a byte that is not part of a name.
fn mark_mode(mode: Mode, byte: u8) -> Option<Mode>
    ensures { result ≡ mark_mode mode byte }
{
    match mode {
        Mode::Start if byte == b'/' => Some(Mode::Slash),
        Mode::Inside | Mode::Closed => end_mode(byte),
        Mode::Key => key_mode(byte),
        Mode::Escape => escape_mode(byte),
        _ => None,
    }
}

// The mode after a byte that is a character, where it may come here.
fn next_mode(mode: Mode, byte: u8) -> Option<Mode>
    ensures { result ≡ next_mode mode byte }
{
    match name_mode(mode, byte) {
        Some(next) => Some(next),
        None => mark_mode(mode, byte),
    }
}

/// The mode after a character, where it may come here.
pub(crate) fn mode_behind(mode: Mode, character: char) -> Option<Mode>
    ensures { Moves mode character result }
{
    if !is_plain_character(character) {
        return None;
    }
    if character.is_ascii() {
        return next_mode(mode, u32::from(character) as u8);
    }
    match mode {
        Mode::Key => Some(Mode::Key),
        _ => None,
    }
}

/// Whether a path may end here.
pub(crate) fn is_path_end(mode: Mode) -> bool
    ensures { result ≡ is_path_end mode }
{
    matches!(mode, Mode::Slash | Mode::Inside | Mode::Closed)
}

/// How many bytes of a character that is refused here begin some path: a key may hold another
/// character that differs in its last byte.
pub(crate) fn begun_in(mode: Mode, character: char) -> usize
    ensures { result ≡ begun_in mode character }
{
    match mode {
        Mode::Key => character.len_utf8() - 1,
        _ => 0,
    }
}
