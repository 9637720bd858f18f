//! One character at a time: what each does between the parts of a statement.
ghost use Rattle.std.specs.Prelude.{◌≡◌, ◌<◌, ◌⊎◌, Some, Err, [], length, reverse, IfOk, IsErrOf};
ghost use Rattle.orc_yang.specs.Sorts.{sort_of};
ghost use Rattle.orc_yang.specs.inside.Wanting.{MayTake};
ghost use Rattle.orc_yang.specs.Machine.{feed, leaf, enter, between, keyed, worded, strung, joining, feed_gap, Gap};
ghost use Rattle.orc_yang.specs.inside.View.{view, head_of, spot, Mirrors};

use crate::YangFault;
use crate::character::{Character, Sort, sort_of};
use crate::parser::{Mode, Parser, Spot};
use orc_text::{Memory, Text};
use std::alloc::Global;

// A character that can't stand where it stands.
pub(crate) fn bad(x: Character) -> Result<(), YangFault>
    ensures { result ≡ Err (YangFault.BadToken x.at) }
{
    Err(YangFault::BadToken { at: x.at })
}

// A forbidden character where others stand: its last byte can't follow the bytes before it.
pub(crate) fn forbidden(x: Character) -> YangFault
    ensures { result ≡ YangFault.BadToken x.last }
{
    YangFault::BadToken { at: x.last }
}

impl Parser {
    // Takes the next character.
    pub(crate) fn step(&mut self, alloc: Global, x: Character) -> Result<(), YangFault>
        ensures step { Mirrors (feed (view self.old) x) (view self.new) result }
        ensures memory { IsErrOf result YangFault.Memory
            → MayTake (view self.old).work (view self.old).frames (sort_of x.code) }
    {
        let sort = sort_of(x.code);
        match self.mode {
            Mode::Gap => self.gap(alloc, sort, x),
            Mode::Slashed => self.slashed(sort, x),
            Mode::Line => self.line(sort, x),
            Mode::Block => self.block(sort, x),
            Mode::BlockStar => self.block_star(sort, x),
            Mode::First => self.first(alloc, sort, x),
            Mode::Colon => self.colon(sort, x),
            Mode::Second => self.second(alloc, sort, x),
            Mode::Lone => self.lone(alloc, sort, x),
            Mode::WordSlash => self.word_slash(alloc, sort, x),
            Mode::WordStar => self.word_star(alloc, sort, x),
            Mode::Word => self.word(alloc, sort, x),
            Mode::Single => self.single(sort, x),
            Mode::Double => self.double(alloc, sort, x),
            Mode::Escape => self.escape(x),
        }
    }

    // White space, or what comes next.
    pub(crate) fn gap(&mut self, alloc: Global, sort: Sort, x: Character) -> Result<(), YangFault>
        ensures step { Mirrors (feed_gap (spot self.old) sort (view self.old) x) (view self.new) result }
        ensures memory { IsErrOf result YangFault.Memory
            → MayTake (Gap (spot self.old)) (reverse self.old.frames) sort }
    {
        match self.spot {
            Spot::Between => self.between(alloc, sort, x),
            Spot::Keyed => self.keyed(alloc, sort, x),
            Spot::Worded => self.worded(alloc, sort, x),
            Spot::Strung => self.strung(alloc, sort, x),
            Spot::Joining => self.joining(alloc, sort, x),
        }
    }

    // Between two statements.
    pub(crate) fn between(
        &mut self,
        alloc: Global,
        sort: Sort,
        x: Character,
    ) -> Result<(), YangFault>
        requires { self.old.spot ≡ Spot.Between }
        ensures step { Mirrors (between sort (view self.old) x) (view self.new) result }
        ensures memory { IsErrOf result YangFault.Memory → (sort ≡ Sort.Start) ⊎ (0 < length self.old.frames) }
    {
        match sort {
            Sort::LineFeed | Sort::Blank => Ok(()),
            Sort::Slash => self.slash(x),
            Sort::CloseBrace => self.close(alloc, x),
            Sort::Start => self.begin_keyword(alloc, x),
            _ => bad(x),
        }
    }

    // After a keyword.
    pub(crate) fn keyed(&mut self, alloc: Global, sort: Sort, x: Character) -> Result<(), YangFault>
        ensures { Mirrors (keyed sort (head_of self.old) (view self.old) x) (view self.new) result }
    {
        match sort {
            Sort::LineFeed | Sort::Blank => Ok(()),
            Sort::Semicolon => self.leaf(alloc, None),
            Sort::OpenBrace => self.enter(alloc, None, x),
            Sort::CloseBrace => bad(x),
            Sort::Forbidden => Err(forbidden(x)),
            Sort::DoubleQuote => {
                self.argument = Text::new(alloc);
                self.open_double(alloc, x)
            }
            Sort::SingleQuote => {
                self.argument = Text::new(alloc);
                self.open_single(x)
            }
            Sort::Slash => {
                self.opened = x.at;
                self.begin_word(alloc, x, Mode::Lone)
            }
            Sort::Star => self.begin_word(alloc, x, Mode::WordStar),
            _ => self.begin_word(alloc, x, Mode::Word),
        }
    }

    // After an unquoted argument.
    pub(crate) fn worded(
        &mut self,
        alloc: Global,
        sort: Sort,
        x: Character,
    ) -> Result<(), YangFault>
        requires { self.old.spot ≡ Spot.Worded }
        ensures { Mirrors (worded sort (head_of self.old) self.old.argument (view self.old) x) (view self.new) result }
    {
        match sort {
            Sort::LineFeed | Sort::Blank => Ok(()),
            Sort::Slash => self.slash(x),
            Sort::Semicolon => self.leaf_with_argument(alloc),
            Sort::OpenBrace => self.enter_with_argument(alloc, x),
            _ => bad(x),
        }
    }

    // After a quoted string.
    pub(crate) fn strung(
        &mut self,
        alloc: Global,
        sort: Sort,
        x: Character,
    ) -> Result<(), YangFault>
        requires { self.old.spot ≡ Spot.Strung }
        ensures { Mirrors (strung sort (head_of self.old) self.old.argument (view self.old) x) (view self.new) result }
    {
        match sort {
            Sort::LineFeed | Sort::Blank => Ok(()),
            Sort::Slash => self.slash(x),
            Sort::Semicolon => self.leaf_with_argument(alloc),
            Sort::OpenBrace => self.enter_with_argument(alloc, x),
            Sort::Plus => {
                self.mode = Mode::Gap;
                self.spot = Spot::Joining;
                Ok(())
            }
            _ => bad(x),
        }
    }

    // After a plus.
    pub(crate) fn joining(
        &mut self,
        alloc: Global,
        sort: Sort,
        x: Character,
    ) -> Result<(), YangFault>
        requires { self.old.spot ≡ Spot.Joining }
        ensures { Mirrors (joining sort (head_of self.old) self.old.argument (view self.old) x) (view self.new) result }
    {
        match sort {
            Sort::LineFeed | Sort::Blank => Ok(()),
            Sort::Slash => self.slash(x),
            Sort::DoubleQuote => self.open_double(alloc, x),
            Sort::SingleQuote => self.open_single(x),
            _ => bad(x),
        }
    }

    // Ends a statement that has an argument and no block.
    pub(crate) fn leaf_with_argument(&mut self, alloc: Global) -> Result<(), YangFault>
        ensures { Mirrors (leaf (view self.old) (head_of self.old) (Some self.old.argument)) (view self.new) result }
    {
        let argument = self.take_argument(alloc);
        self.leaf(alloc, Some(argument))
    }

    // Opens the block of a statement that has an argument.
    pub(crate) fn enter_with_argument(
        &mut self,
        alloc: Global,
        x: Character,
    ) -> Result<(), YangFault>
        ensures { Mirrors (enter (view self.old) (head_of self.old) (Some self.old.argument) x) (view self.new) result }
    {
        let argument = self.take_argument(alloc);
        self.enter(alloc, Some(argument), x)
    }
}
