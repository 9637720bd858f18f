//! What each character does in a keyword (RFC 7950 sections 6.1.2 and 6.2).
ghost use Rattle.std.specs.Prelude.{◌++◌, encode_utf8};
ghost use Rattle.orc_yang.specs.Machine.{go, feed_keyword, feed_colon, feed_second, end_keyword, InKeyword};
ghost use Rattle.orc_yang.specs.inside.View.{view, head_of, work_of, Mirrors};

use crate::YangFault;
use crate::character::{Character, Sort};
use crate::parser::{Mode, Parser, Spot};
use crate::steps::bad;
use orc_text::Text;
use std::alloc::Global;

impl Parser {
    // The first character of a keyword.
    pub(crate) fn begin_keyword(&mut self, alloc: Global, x: Character) -> Result<(), YangFault>
        ensures { Mirrors
            (go (view self.old) (InKeyword (record { keyword = encode_utf8 x.code; at = x.at })))
            (view self.new) result }
    {
        let mut keyword = Text::new(alloc);
        keyword.push(x.code)?;
        self.keyword = keyword;
        self.at = x.at;
        self.mode = Mode::First;
        Ok(())
    }

    // In a keyword, up to its colon.
    pub(crate) fn first(&mut self, alloc: Global, sort: Sort, x: Character) -> Result<(), YangFault>
        ensures { Mirrors (feed_keyword sort (head_of self.old) (view self.old) x) (view self.new) result }
    {
        match sort {
            Sort::Start | Sort::Inner => self.more_keyword(x, Mode::First),
            Sort::Colon => self.more_keyword(x, Mode::Colon),
            _ => self.end_keyword(alloc, sort, x),
        }
    }

    // One more character of a keyword.
    pub(crate) fn more_keyword(&mut self, x: Character, mode: Mode) -> Result<(), YangFault>
        ensures { Mirrors
            (go (view self.old) (work_of mode (record self.old { keyword = self.old.keyword ++ encode_utf8 x.code })))
            (view self.new) result }
    {
        self.keyword.push(x.code)?;
        self.mode = mode;
        Ok(())
    }

    // In a keyword, after its colon.
    pub(crate) fn colon(&mut self, sort: Sort, x: Character) -> Result<(), YangFault>
        ensures { Mirrors (feed_colon sort (head_of self.old) (view self.old) x) (view self.new) result }
    {
        match sort {
            Sort::Start => self.more_keyword(x, Mode::Second),
            _ => bad(x),
        }
    }

    // In a keyword, after its prefix.
    pub(crate) fn second(
        &mut self,
        alloc: Global,
        sort: Sort,
        x: Character,
    ) -> Result<(), YangFault>
        ensures { Mirrors (feed_second sort (head_of self.old) (view self.old) x) (view self.new) result }
    {
        match sort {
            Sort::Start | Sort::Inner => self.more_keyword(x, Mode::Second),
            _ => self.end_keyword(alloc, sort, x),
        }
    }

    // The first character after a keyword.
    pub(crate) fn end_keyword(
        &mut self,
        alloc: Global,
        sort: Sort,
        x: Character,
    ) -> Result<(), YangFault>
        ensures { Mirrors (end_keyword sort (head_of self.old) (view self.old) x) (view self.new) result }
    {
        self.spot = Spot::Keyed;
        match sort {
            Sort::LineFeed | Sort::Blank => {
                self.mode = Mode::Gap;
                Ok(())
            }
            Sort::Slash => self.slash(x),
            Sort::Semicolon => self.leaf(alloc, None),
            Sort::OpenBrace => self.enter(alloc, None, x),
            _ => bad(x),
        }
    }
}
