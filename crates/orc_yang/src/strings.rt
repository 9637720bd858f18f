//! What each character does in an unquoted or quoted string (RFC 7950 section 6.1.3).
ghost use Rattle.std.specs.Prelude.{◌≡◌, [], ◌++◌, ◌∷◌, None, encode_utf8};
ghost use Rattle.orc_yang.specs.Quoted.{string_value};
ghost use Rattle.orc_yang.specs.Machine.{go, unspoilt, lone, word_slash, word_star, feed_word, feed_single, feed_double, feed_backslash, Gap, InDouble, InSingle, Strung};
ghost use Rattle.orc_yang.specs.inside.View.{view, head_of, work_of, Mirrors};

use crate::character::{Character, Sort};
use crate::parser::{Mode, Parser, Spot};
use crate::steps::{bad, forbidden};
use crate::{YangFault, quoted};
use orc_text::{Row, Text};
use std::alloc::Global;
use std::mem;

impl Parser {
    // The first character of an unquoted string.
    pub(crate) fn begin_word(
        &mut self,
        alloc: Global,
        x: Character,
        mode: Mode,
    ) -> Result<(), YangFault>
        ensures { Mirrors
            (go (view self.old) (work_of mode (record self.old { argument = encode_utf8 x.code })))
            (view self.new) result }
    {
        let mut argument = Text::new(alloc);
        argument.push(x.code)?;
        self.argument = argument;
        self.mode = mode;
        Ok(())
    }

    // After a slash that begins an argument or a comment.
    pub(crate) fn lone(&mut self, alloc: Global, sort: Sort, x: Character) -> Result<(), YangFault>
        ensures { Mirrors
            (lone sort (head_of self.old) self.old.argument self.old.opened (view self.old) x)
            (view self.new) result }
    {
        match sort {
            Sort::Slash | Sort::Star => {
                self.spot = Spot::Keyed;
                self.slashed(sort, x)
            }
            _ => self.word(alloc, sort, x),
        }
    }

    // In an unquoted string, after a slash.
    pub(crate) fn word_slash(
        &mut self,
        alloc: Global,
        sort: Sort,
        x: Character,
    ) -> Result<(), YangFault>
        ensures { Mirrors
            (word_slash sort (head_of self.old) self.old.argument (view self.old) x)
            (view self.new) result }
    {
        match sort {
            Sort::Slash | Sort::Star => bad(x),
            _ => self.word(alloc, sort, x),
        }
    }

    // In an unquoted string, after a `*`.
    pub(crate) fn word_star(
        &mut self,
        alloc: Global,
        sort: Sort,
        x: Character,
    ) -> Result<(), YangFault>
        ensures { Mirrors
            (word_star sort (head_of self.old) self.old.argument (view self.old) x)
            (view self.new) result }
    {
        match sort {
            Sort::Slash => bad(x),
            _ => self.word(alloc, sort, x),
        }
    }

    // In an unquoted string.
    pub(crate) fn word(&mut self, alloc: Global, sort: Sort, x: Character) -> Result<(), YangFault>
        ensures { Mirrors
            (feed_word sort (head_of self.old) self.old.argument (view self.old) x)
            (view self.new) result }
    {
        match sort {
            Sort::LineFeed | Sort::Blank => {
                self.mode = Mode::Gap;
                self.spot = Spot::Worded;
                Ok(())
            }
            Sort::Semicolon => self.leaf_with_argument(alloc),
            Sort::OpenBrace => self.enter_with_argument(alloc, x),
            Sort::CloseBrace | Sort::DoubleQuote | Sort::SingleQuote => bad(x),
            Sort::Forbidden => Err(forbidden(x)),
            Sort::Slash => self.more_argument(x, Mode::WordSlash),
            Sort::Star => self.more_argument(x, Mode::WordStar),
            _ => self.more_argument(x, Mode::Word),
        }
    }

    // One more character of an unquoted or single-quoted string.
    pub(crate) fn more_argument(&mut self, x: Character, mode: Mode) -> Result<(), YangFault>
        ensures { Mirrors
            (go (view self.old)
            (work_of mode (record self.old { argument = self.old.argument ++ encode_utf8 x.code })))
            (view self.new) result }
    {
        self.argument.push(x.code)?;
        self.mode = mode;
        Ok(())
    }

    // An opening double quote.
    pub(crate) fn open_double(&mut self, alloc: Global, x: Character) -> Result<(), YangFault>
        ensures { Mirrors
            (go (view self.old) (InDouble (head_of self.old) self.old.argument x.at x.column [] None))
            (view self.new) result }
    {
        self.mode = Mode::Double;
        self.opened = x.at;
        self.column = x.column;
        self.raw = emptied(alloc, &mut self.raw);
        self.pending = None;
        Ok(())
    }

    // An opening single quote.
    pub(crate) fn open_single(&mut self, x: Character) -> Result<(), YangFault>
        ensures { Mirrors
            (go (view self.old) (InSingle (head_of self.old) self.old.argument x.at None))
            (view self.new) result }
    {
        self.mode = Mode::Single;
        self.opened = x.at;
        self.pending = None;
        Ok(())
    }

    // In a single-quoted string.
    pub(crate) fn single(&mut self, sort: Sort, x: Character) -> Result<(), YangFault>
        ensures { Mirrors
            (feed_single sort (head_of self.old) self.old.argument self.old.opened self.old.pending (view self.old) x)
            (view self.new) result }
    {
        match sort {
            Sort::SingleQuote => self.end_string(),
            Sort::Forbidden => {
                self.mode = Mode::Single;
                self.spoil(forbidden(x));
                Ok(())
            }
            _ => self.more_argument(x, Mode::Single),
        }
    }

    // The end of a string: a fault in it counts now.
    pub(crate) fn end_string(&mut self) -> Result<(), YangFault>
        ensures { Mirrors
            (unspoilt self.old.pending (go (view self.old) (Gap (Strung (head_of self.old) self.old.argument))))
            (view self.new) result }
    {
        match self.pending {
            Some(fault) => Err(fault),
            None => {
                self.mode = Mode::Gap;
                self.spot = Spot::Strung;
                Ok(())
            }
        }
    }

    // In a double-quoted string.
    pub(crate) fn double(
        &mut self,
        alloc: Global,
        sort: Sort,
        x: Character,
    ) -> Result<(), YangFault>
        ensures { Mirrors
            (feed_double sort (head_of self.old) self.old.argument
            self.old.opened self.old.column self.old.raw self.old.pending
            (view self.old) x)
            (view self.new) result }
    {
        match sort {
            Sort::DoubleQuote => self.end_double(alloc),
            Sort::Backslash => self.more_raw(x, Mode::Escape),
            Sort::Forbidden => {
                self.mode = Mode::Double;
                self.spoil(forbidden(x));
                Ok(())
            }
            _ => self.more_raw(x, Mode::Double),
        }
    }

    // The end of a double-quoted string.
    pub(crate) fn end_double(&mut self, alloc: Global) -> Result<(), YangFault>
        ensures { Mirrors
            (unspoilt self.old.pending (go (view self.old)
            (Gap (Strung (head_of self.old)
            (self.old.argument ++ string_value self.old.column self.old.raw)))))
            (view self.new) result }
    {
        match self.pending {
            Some(fault) => Err(fault),
            None => {
                let argument = self.take_argument(alloc);
                let raw = self.raw.as_slice();
                self.argument = quoted::with_value(alloc, argument, self.column, raw)?;
                self.mode = Mode::Gap;
                self.spot = Spot::Strung;
                Ok(())
            }
        }
    }

    // One more character of a double-quoted string.
    pub(crate) fn more_raw(&mut self, x: Character, mode: Mode) -> Result<(), YangFault>
        ensures { Mirrors
            (go (view self.old) (work_of mode (record self.old { raw = self.old.raw ++ x.code ∷ [] })))
            (view self.new) result }
    {
        self.raw.push(x.code)?;
        self.mode = mode;
        Ok(())
    }

    // In a double-quoted string, after a backslash.
    pub(crate) fn escape(&mut self, x: Character) -> Result<(), YangFault>
        ensures { Mirrors
            (feed_backslash (head_of self.old) self.old.argument
            self.old.opened self.old.column self.old.raw self.old.pending
            (view self.old) x)
            (view self.new) result }
    {
        match x.code {
            'n' | 't' | '"' | '\\' => {}
            _ => self.spoil(YangFault::BadEscape {
                at: x.at.saturating_sub(1),
            }),
        }
        self.more_raw(x, Mode::Double)
    }
}

// The row without its characters, whose memory it keeps.
fn emptied(alloc: Global, row: &mut Row<char>) -> Row<char>
    ensures { result ≡ [] }
{
    let mut items = mem::replace(row, Row::new(alloc)).into_vec();
    items.clear();
    Row::from_vec(items)
}
