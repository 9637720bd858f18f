//! The path of a text: a look without memory at where the text stops being one, and then the reading
//! of a text that is one.
ghost use Rattle.std.specs.Prelude.{◌≡◌, IfOk, MatchOption, Some};
ghost use Rattle.orc_path.specs.Texts.{IsPathText, IsBadAt};
ghost use Rattle.orc_path.specs.Reading.{path_of};

use crate::Path;
use crate::mode::{Mode, begun_in, is_path_end, mode_behind};
use crate::reader::Reader;
use orc_text::Memory;
use std::alloc::Global;

/// Where a text stops being the beginning of a path's text, where it is none.
pub(crate) fn bad_place(text: &str) -> Option<u64>
    ensures { MatchOption result (IsPathText text.now) (IsBadAt IsPathText text.now) }
{
    let mut mode = Mode::Start;
    let mut at = 0;
    for character in text.chars() {
        match mode_behind(mode, character) {
            Some(next) => mode = next,
            None => return Some((at + begun_in(mode, character)) as u64),
        }
        at += character.len_utf8();
    }
    if is_path_end(mode) {
        None
    } else {
        Some(at as u64)
    }
}

/// The path of a text that is one.
pub(crate) fn read_path(alloc: Global, text: &str) -> Result<Path, Memory>
    requires { IsPathText text.now }
    ensures { IfOk result (λ path. path_of text.now ≡ Some path) }
{
    let mut reader = Reader::new(alloc);
    for character in text.chars() {
        if !reader.take(alloc, character)? {
            unreachable!();
        }
    }
    match reader.finish(alloc)? {
        Some(path) => Ok(path),
        None => unreachable!(),
    }
}
