//! Texts that are cut at single characters.
ghost use Rattle.std.specs.Prelude.{◌≡◌, ◌<◌, ◌&&◌, ◌∷◌, [], IfOk, IfSome, MatchOption, is_some};
ghost use Rattle.std.specs.List.{position, before_first, after_first};
ghost use Rattle.orc_value.specs.Canon.{same_text};
ghost use Rattle.orc_statements.specs.Cuts.{is_mark, parts, is_word, words};
ghost use Rattle.orc_statements.specs.Names.{contains_text};
ghost use Rattle.orc_statements.specs.Cutting.{CutsAt};

use orc_text::{Memory, Row, Text};
use std::alloc::Global;

/// Where a text is cut: at YANG's white space, at `/` or at `:`.
#[derive(Clone, Copy)]
pub enum Mark {
    White,
    Slash,
    Colon,
}

// Whether the byte is such a mark.
pub(crate) fn is_mark(mark: Mark, byte: u8) -> bool
    ensures { result ≡ is_mark mark byte }
{
    match mark {
        Mark::White => byte == b' ' || byte == b'\t' || byte == b'\n' || byte == b'\r',
        Mark::Slash => byte == b'/',
        Mark::Colon => byte == b':',
    }
}

// The place of the first mark.
fn first_mark(mark: Mark, bytes: &[u8]) -> Option<usize>
    ensures { result ≡ position (is_mark mark) bytes.now }
{
    bytes.iter().position(|byte| is_mark(mark, *byte))
}

/// The texts before the first mark and after it.
pub fn cut(mark: Mark, text: &str) -> Option<(&str, &str)>
    ensures parts { MatchOption result (parts mark text.now ≡ text.now ∷ [])
        (λ cut. CutsAt mark text.now cut.0.now cut.1.now) }
    ensures some { is_some result ≡ is_some (position (is_mark mark) text.now) }
    ensures first { IfSome result (λ cut. (cut.0.now ≡ before_first (is_mark mark) text.now)
        × (cut.1.now ≡ after_first (is_mark mark) text.now)) }
{
    match first_mark(mark, text.as_bytes()) {
        Some(place) => Some((&text[..place], &text[place + 1..])),
        None => None,
    }
}

// What stands between the marks.
pub(crate) fn parts(alloc: Global, mark: Mark, text: &str) -> Result<Row<Text>, Memory>
    ensures { IfOk result (λ all. all ≡ parts mark text.now) }
{
    let mut all = Row::new(alloc);
    let mut rest = text;
    while let Some((part, more)) = cut(mark, rest) {
        all.push(Text::from_str(alloc, part)?)?;
        rest = more;
    }
    all.push(Text::from_str(alloc, rest)?)?;
    Ok(all)
}

// The texts of which none is empty.
pub(crate) fn words(alloc: Global, text: &str) -> Result<Row<Text>, Memory>
    ensures { IfOk result (λ all. all ≡ words text.now) }
{
    let mut all = Row::new(alloc);
    let pieces = parts(alloc, Mark::White, text)?;
    for piece in pieces.as_slice() {
        if !piece.as_str().is_empty() {
            all.push(piece.copy(alloc)?)?;
        }
    }
    Ok(all)
}

// Whether what stands between two marks is this word.
fn is_this_word(piece: &str, word: &str) -> bool
    ensures { result ≡ (is_word piece.now && same_text piece.now word.now) }
{
    !piece.is_empty() && piece == word
}

// Whether this is one of the words of a text, of which no copies are made.
#[tactic(auto, using(crate::proofs::Words::has_next, crate::proofs::Words::has_last))]
pub(crate) fn has_word(text: &str, word: &str) -> bool
    ensures { result ≡ contains_text (words text.now) word.now }
{
    let mut rest = text;
    while let Some((piece, more)) = cut(Mark::White, rest) {
        if is_this_word(piece, word) {
            return true;
        }
        rest = more;
    }
    is_this_word(rest, word)
}
