//! How far the statements in the text of a module go: where the first one ends, and which one is open at the end.
use orc_text::Memory;
use std::alloc::Global;

/// What stands open after a prefix of a text is read.
#[derive(Drop)]
pub(crate) struct Extent {
    /// The byte that ends the first statement, where that has ended.
    pub(crate) ended: Option<u64>,
    // where each statement begins whose block is open
    open: Vec<u64>,
    // where the statement begins that has neither its block nor its end yet
    begun: Option<u64>,
    mode: Mode,
    // the byte before, where the next one may belong to it
    last: u8,
}

// What a byte stands in.
#[derive(Clone, Copy)]
enum Mode {
    Plain,
    LineComment,
    BlockComment,
    Double,
    Single,
}

impl Extent {
    // Before a text.
    fn new(alloc: Global) -> Extent {
        Extent {
            ended: None,
            open: Vec::new(alloc),
            begun: None,
            mode: Mode::Plain,
            last: 0,
        }
    }

    /// Where the innermost statement begins that is open.
    pub(crate) fn innermost(&self) -> Option<u64> {
        match self.begun {
            Some(at) => Some(at),
            None => last_of(self.open.as_slice()),
        }
    }

    // Goes on with the byte of a place.
    fn step(&mut self, at: u64, byte: u8) -> Result<(), Memory> {
        let last = self.last;
        self.last = byte;
        match self.mode {
            Mode::Plain => self.plain(at, byte, last)?,
            Mode::LineComment => self.end_at(byte == b'\n'),
            Mode::BlockComment => self.end_at(last == b'*' && byte == b'/'),
            Mode::Single => self.end_at(byte == b'\''),
            Mode::Double => self.double(byte, last),
        }
        Ok(())
    }

    // Ends a comment or a string.
    fn end_at(&mut self, ends: bool) {
        if ends {
            self.mode = Mode::Plain;
            self.last = 0;
        }
    }

    // Goes on with a byte in double quotes.
    fn double(&mut self, byte: u8, last: u8) {
        if last == b'\\' {
            self.last = 0;
        } else {
            self.end_at(byte == b'"');
        }
    }

    // Goes on with a byte outside of comments and strings.
    fn plain(&mut self, at: u64, byte: u8, last: u8) -> Result<(), Memory> {
        match byte {
            b'{' => return self.open_block(at),
            b'}' => self.close_block(at),
            b';' => self.end_statement(at),
            b'"' => self.enter(Mode::Double),
            b'\'' => self.enter(Mode::Single),
            b' ' | b'\t' | b'\n' | b'\r' => {}
            _ => self.other(at, byte, last),
        }
        Ok(())
    }

    // Enters a comment or a string.
    fn enter(&mut self, mode: Mode) {
        self.mode = mode;
        self.last = 0;
    }

    // A block is opened.
    fn open_block(&mut self, at: u64) -> Result<(), Memory> {
        let start = self.begun.unwrap_or(at);
        self.begun = None;
        self.open.push(start)?;
        Ok(())
    }

    // A block is closed.
    fn close_block(&mut self, at: u64) {
        let _ = self.open.pop();
        self.end_statement(at);
    }

    // A statement ends.
    fn end_statement(&mut self, at: u64) {
        self.begun = None;
        if self.open.is_empty() && self.ended.is_none() {
            self.ended = Some(at);
        }
    }

    // Another byte: a comment begins with it, or it is one of a keyword or an argument.
    fn other(&mut self, at: u64, byte: u8, last: u8) {
        if last == b'/' && byte == b'/' {
            self.enter_comment(at, Mode::LineComment);
        } else if last == b'/' && byte == b'*' {
            self.enter_comment(at, Mode::BlockComment);
        } else if self.begun.is_none() {
            self.begun = Some(at);
        }
    }

    // A comment whose first byte stands before this place.
    fn enter_comment(&mut self, at: u64, mode: Mode) {
        if self.begun == Some(at.saturating_sub(1)) {
            self.begun = None;
        }
        self.enter(mode);
    }
}

/// What stands open after the bytes of a text before a place, up to which it is read without fault.
pub(crate) fn extent_of(alloc: Global, text: &[u8], end: u64) -> Result<Extent, Memory> {
    let mut extent = Extent::new(alloc);
    let mut at: u64 = 0;
    for byte in text {
        if at >= end {
            return Ok(extent);
        }
        extent.step(at, *byte)?;
        at = at.saturating_add(1);
    }
    Ok(extent)
}

// The last of these places.
fn last_of(places: &[u64]) -> Option<u64> {
    match places {
        [] => None,
        [.., last] => Some(*last),
    }
}
