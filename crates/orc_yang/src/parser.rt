//! The reader of statements: what it keeps between two characters, and the moves that it makes.
ghost use Rattle.std.specs.Prelude.{◌≡◌, MatchResult, IsErrOf, [], length, reverse, ◌<◌};
ghost use Rattle.orc_yang.specs.Machine.{leaf, enter, close, finish, Gap, Between, ended, spoilt};
ghost use Rattle.orc_yang.specs.inside.View.{view, head_of, Mirrors};
ghost use Rattle.orc_yang.specs.Parsing.{FailsWith};

use crate::character::Character;
use crate::statement::MAX_DEPTH;
use crate::{Stmt, YangFault};
use orc_text::{Memory, Row, Text};
use std::alloc::Global;
use std::mem;

// Between which parts of a statement white space and comments stand.
#[derive(Clone, Copy)]
pub(crate) enum Spot {
    // Between two statements.
    Between,
    // After a keyword.
    Keyed,
    // After an unquoted argument.
    Worded,
    // After a quoted string.
    Strung,
    // After a plus.
    Joining,
}

// What the next character goes on with.
#[derive(Clone, Copy)]
pub(crate) enum Mode {
    // White space or what comes next.
    Gap,
    // The second character of a comment's opening mark.
    Slashed,
    // A comment to the end of the line.
    Line,
    // A comment in `/*` and `*/`.
    Block,
    // A comment in `/*` and `*/`, after a `*` in it.
    BlockStar,
    // A keyword up to a colon.
    First,
    // A keyword, after its colon.
    Colon,
    // A keyword, after its prefix.
    Second,
    // An unquoted string or a comment, after the slash that begins either.
    Lone,
    // An unquoted string, after a slash in it.
    WordSlash,
    // An unquoted string, after a `*` in it.
    WordStar,
    // An unquoted string.
    Word,
    // A single-quoted string.
    Single,
    // A double-quoted string.
    Double,
    // A double-quoted string, after a backslash in it.
    Escape,
}

// A statement whose block is open, and the statements that stand before it in its own block.
#[derive(Drop)]
pub(crate) struct Frame {
    pub keyword: Text,
    pub argument: Option<Text>,
    pub at: u64,
    pub before: Row<Stmt>,
}

// The reader between two characters.
#[derive(Drop)]
pub(crate) struct Parser {
    pub mode: Mode,
    pub spot: Spot,
    // The keyword and its place, of the statement that is being read.
    pub keyword: Text,
    pub at: u64,
    // The argument so far.
    pub argument: Text,
    // The place of the opening mark, of the string or comment that is being read.
    pub opened: u64,
    // The column of the opening quote.
    pub column: u128,
    // The characters so far of a double-quoted string.
    pub raw: Row<char>,
    // The first fault in the string or comment, which counts once its end is found.
    pub pending: Option<YangFault>,
    // The statements so far of the innermost open block.
    pub done: Row<Stmt>,
    // The open blocks, the innermost last.
    pub frames: Row<Frame>,
    // How many statements more may be read.
    pub left: u64,
}

impl Parser {
    // The reader before the first character of a text of so many bytes. It reads a statement for each
    // 8 bytes at most, and 32 more: one takes 104 bytes, and 16 more where it is alone in its block, so
    // a text of many tiny statements would take 60 times its length.
    pub(crate) fn new(alloc: Global, bytes: usize) -> Parser
        ensures { view result ≡ record { work = Gap Between; done = []; frames = [] } }
    {
        Parser {
            mode: Mode::Gap,
            spot: Spot::Between,
            keyword: Text::new(alloc),
            at: 0,
            argument: Text::new(alloc),
            opened: 0,
            column: 0,
            raw: Row::new(alloc),
            pending: None,
            done: Row::new(alloc),
            frames: Row::new(alloc),
            left: most_statements(bytes),
        }
    }

    // One more statement is read. Where no more may be, memory is wanted.
    fn spend(&mut self) -> Result<(), Memory>
        ensures { self.new ≡ record self.old { left = self.new.left } }
    {
        if self.left == 0 {
            return Err(Memory);
        }
        self.left -= 1;
        Ok(())
    }

    // Ends a statement without a block.
    pub(crate) fn leaf(&mut self, alloc: Global, argument: Option<Text>) -> Result<(), YangFault>
        ensures { Mirrors (leaf (view self.old) (head_of self.old) argument) (view self.new) result }
    {
        self.spend()?;
        let keyword = mem::replace(&mut self.keyword, Text::new(alloc));
        self.done.push(Stmt {
            keyword,
            argument,
            subs: Row::new(alloc),
            at: self.at,
        })?;
        self.mode = Mode::Gap;
        self.spot = Spot::Between;
        Ok(())
    }

    // Opens the block of a statement.
    pub(crate) fn enter(
        &mut self,
        alloc: Global,
        argument: Option<Text>,
        x: Character,
    ) -> Result<(), YangFault>
        ensures { Mirrors (enter (view self.old) (head_of self.old) argument x) (view self.new) result }
    {
        if self.frames.len() >= MAX_DEPTH {
            return Err(YangFault::Depth { at: x.at });
        }
        let keyword = mem::replace(&mut self.keyword, Text::new(alloc));
        let before = mem::replace(&mut self.done, Row::new(alloc));
        self.frames.push(Frame {
            keyword,
            argument,
            at: self.at,
            before,
        })?;
        self.mode = Mode::Gap;
        self.spot = Spot::Between;
        Ok(())
    }

    // Closes the innermost open block.
    pub(crate) fn close(&mut self, alloc: Global, x: Character) -> Result<(), YangFault>
        ensures step { Mirrors (close (reverse self.old.frames) (view self.old) x) (view self.new) result }
        ensures memory { IsErrOf result YangFault.Memory → 0 < length self.old.frames }
    {
        let mut frames = mem::replace(&mut self.frames, Row::new(alloc)).into_vec();
        let innermost = frames.pop();
        self.frames = Row::from_vec(frames);
        match innermost {
            None => Err(YangFault::BadToken { at: x.at }),
            Some(frame) => self.end_block(frame),
        }
    }

    // Adds the statement whose block was closed.
    fn end_block(&mut self, frame: Frame) -> Result<(), YangFault>
        ensures { MatchResult result
            (λ _. view self.new ≡ record {
              work = Gap Between;
              done = ended frame self.old.done;
              frames = reverse self.old.frames;
            })
            (λ e. e ≡ YangFault.Memory) }
    {
        let Frame {
            keyword,
            argument,
            at,
            before,
        } = frame;
        self.spend()?;
        let subs = fitted(mem::replace(&mut self.done, before));
        self.done.push(Stmt {
            keyword,
            argument,
            subs,
            at,
        })?;
        self.mode = Mode::Gap;
        self.spot = Spot::Between;
        Ok(())
    }

    // The statements, where the text ends here.
    pub(crate) fn finish(self, end: u64) -> Result<Vec<Stmt>, YangFault>
        ensures answer { MatchResult result
            (λ list. finish (view self) end ≡ Ok list.items)
            (FailsWith (finish (view self) end)) }
        ensures memory { ¬ IsErrOf result YangFault.Memory }
    {
        let Parser {
            mode,
            spot,
            opened,
            done,
            frames,
            keyword: _,
            at: _,
            argument: _,
            column: _,
            raw: _,
            pending: _,
            left: _,
        } = self;
        match mode {
            Mode::Gap | Mode::Line => match spot {
                Spot::Between if frames.is_empty() => Ok(done.into_vec()),
                _ => Err(YangFault::OpenBlock { at: end }),
            },
            Mode::Block | Mode::BlockStar | Mode::Single | Mode::Double | Mode::Escape => {
                Err(YangFault::OpenString { at: opened })
            }
            _ => Err(YangFault::OpenBlock { at: end }),
        }
    }

    // The argument that has been read.
    pub(crate) fn take_argument(&mut self, alloc: Global) -> Text
        ensures taken { result ≡ self.old.argument }
        ensures left { self.new ≡ record self.old { argument = [] } }
    {
        mem::replace(&mut self.argument, Text::new(alloc))
    }

    // Keeps the first fault of a string or comment until its end is found.
    pub(crate) fn spoil(&mut self, fault: YangFault)
        ensures { self.new ≡ record self.old { pending = spoilt self.old.pending fault } }
    {
        if self.pending.is_none() {
            self.pending = Some(fault);
        }
    }
}

// How many statements a text of so many bytes may have.
fn most_statements(bytes: usize) -> u64 {
    (bytes as u64 / 8).saturating_add(32)
}

// The row with no room to spare.
fn fitted(row: Row<Stmt>) -> Row<Stmt>
    ensures { result ≡ row }
{
    let mut items = row.into_vec();
    items.shrink_to_fit();
    Row::from_vec(items)
}

impl From<Memory> for YangFault {
    ghost use Rattle.orc_yang.specs.declared.fault.YangFault.TheVariants as fault;

    ghost from_gives = { λ _ e. e ≡ fault.Memory };

    fn from(_: Memory) -> Self {
        YangFault::Memory
    }
}
