//! Reads an expression or a condition character by character.
ghost use Rattle.std.specs.Prelude.{◌≡◌, ◌<◌, ◌≤◌, ◌+◌, ◌++◌, ◌∷◌, [], ◌==◌, true, false, encode_utf8, option_map, Some, None, IfOk, IsTrue, OnOk, MatchBool, if◌then◌else◌};
ghost use Rattle.orc_path.specs.Alphabet.{is_node_name, is_identifier, is_name_start, is_name_byte};
ghost use Rattle.orc_expr.specs.Expressions.{Here};
ghost use Rattle.orc_expr.specs.Parts.{built_with, built_of, condition_of};
ghost use Rattle.orc_expr.specs.inside.Reading.{feed, feed_all, feed_begin, feed_key, closing, ended, goes_on, in_quotes, starts, start, whole, place_of, test_of, reading_of, at, Fed, Went, Fits};
ghost use Rattle.orc_expr.specs.declared.expr.Test.TheVariants.{Any};
ghost use Rattle.orc_expr.specs.declared.mode.Mode.TheVariants as stage;

use crate::expr::{Cond, Expr, Part, Test};
use crate::mode::Mode;
use orc_path::{Name, PathFault};
use orc_text::{Memory, Row, Text};
use std::alloc::Global;
use std::mem;

/// What was read: the parts that are whole, how many brackets are open, and the pieces of the part
/// that is being read.
pub(crate) struct Reader {
    conditional: bool,
    mode: Mode,
    depth: u64,
    parts: Row<Part>,
    ups: u64,
    name: Text,
    text: Text,
    differs: bool,
}

// Written out, so that each exit that lets a reader go does so by one call.
impl Drop for Reader {
    fn drop(self) {
        let Reader {
            conditional: _,
            mode: _,
            depth: _,
            parts: _,
            ups: _,
            name: _,
            text: _,
            differs: _,
        } = self;
    }
}

// A letter or `_`.
fn is_name_start(byte: u8) -> bool
    ensures { result ≡ is_name_start byte }
{
    byte.is_ascii_alphabetic() || byte == b'_'
}

// A letter, a digit, `-`, `.` or `_`.
fn is_name_byte(byte: u8) -> bool
    ensures { result ≡ is_name_byte byte }
{
    is_name_start(byte) || byte.is_ascii_digit() || byte == b'-' || byte == b'.'
}

// One more.
fn one_more(count: u64) -> Result<u64, Memory>
    ensures { IfOk result (λ next. next ≡ count + 1) }
{
    match count.checked_add(1) {
        Some(next) => Ok(next),
        None => Err(Memory),
    }
}

impl Reader {
    /// Nothing is read.
    pub(crate) fn new(alloc: Global, conditional: bool) -> Reader
        ensures { reading_of result ≡ start conditional }
    {
        Reader {
            conditional,
            mode: Mode::Begin,
            depth: 0,
            parts: Row::new(alloc),
            ups: 0,
            name: Text::new(alloc),
            text: Text::new(alloc),
            differs: false,
        }
    }

    // The name that was read.
    fn whole_name(&self, alloc: Global) -> Result<Name, Memory>
        requires { IsTrue (is_node_name self.now.name) }
        ensures { IfOk result (λ name. name ≡ self.now.name) }
    {
        match Name::new(alloc, self.name.as_str()) {
            Ok(name) => Ok(name),
            Err(PathFault::Memory) => Err(Memory),
            Err(PathFault::BadPath { at: _ }) => unreachable!(),
        }
    }

    // Adds a part.
    #[tactic(auto, using(crate::proofs::Followed::built_of_push))]
    fn push(&mut self, part: Part) -> Result<(), Memory>
        ensures built { OnOk result (built_of self.new.parts ≡ built_with (built_of self.old.parts) part) }
        ensures rest { OnOk result (self.new ≡ record self.old { parts = self.new.parts }) }
    {
        self.parts.push(part)?;
        Ok(())
    }

    // Begins a name, where one may begin with this byte.
    fn begin_name(&mut self, alloc: Global, mode: Mode, byte: u8) -> Result<bool, Memory>
        ensures { Fed (starts (reading_of self.old)
            (place_of mode (built_of self.old.parts).now self.old.ups (byte ∷ []) self.old.differs self.old.text) byte)
            self.new result }
    {
        if !is_name_start(byte) {
            return Ok(false);
        }
        self.name = Text::new(alloc);
        self.name.push(char::from(byte))?;
        self.mode = mode;
        Ok(true)
    }

    // Before an expression or a term.
    fn take_begin(&mut self, alloc: Global, byte: u8) -> Result<bool, Memory>
        ensures { Fed (feed_begin (reading_of self.old) byte) self.new result }
    {
        match byte {
            b'.' => {
                self.mode = Mode::Dot;
                Ok(true)
            }
            b'/' => {
                self.mode = Mode::Slash;
                Ok(true)
            }
            b'\'' => {
                if self.depth == 0 {
                    return Ok(false);
                }
                self.text = Text::new(alloc);
                self.mode = Mode::InQuotes;
                Ok(true)
            }
            _ => {
                self.ups = 0;
                self.begin_name(alloc, Mode::FirstName, byte)
            }
        }
    }

    // After the parts of a term, a closing bracket.
    fn close(&mut self) -> Result<bool, Memory>
        ensures { Fed (closing (reading_of self.old) (built_of self.old.parts).now) self.new result }
    {
        if self.depth == 0 {
            return Ok(false);
        }
        self.push(Part::Close)?;
        self.depth -= 1;
        self.mode = Mode::ClosedAt;
        Ok(true)
    }

    // After the parts of an expression that ends.
    fn take_ended(&mut self, byte: u8) -> Result<bool, Memory>
        ensures { Fed (ended (reading_of self.old) (built_of self.old.parts).now byte) self.new result }
    {
        if byte == b']' {
            return self.close();
        }
        if byte != b' ' {
            return Ok(false);
        }
        if !self.conditional || self.depth != 0 {
            return Ok(false);
        }
        self.mode = Mode::Spaced;
        Ok(true)
    }

    // After the parts of an expression that a step or a predicate may follow.
    fn take_end(&mut self, byte: u8) -> Result<bool, Memory>
        ensures { Fed (goes_on (reading_of self.old) (built_of self.old.parts).now byte) self.new result }
    {
        match byte {
            b'[' => {
                self.mode = Mode::OpenAt;
                Ok(true)
            }
            b'/' => {
                self.mode = Mode::Next;
                Ok(true)
            }
            _ => self.take_ended(byte),
        }
    }

    // After a first dot.
    fn take_dot(&mut self, byte: u8) -> Result<bool, Memory>
        requires { self.old.mode ≡ stage.Dot }
        ensures { Fed (feed (reading_of self.old) byte) self.new result }
    {
        if byte == b'.' {
            self.ups = 0;
            self.mode = Mode::UpDots;
            return Ok(true);
        }
        self.push(Part::Here)?;
        self.take_ended(byte)
    }

    // After `../`.
    fn take_ups(&mut self, alloc: Global, byte: u8) -> Result<bool, Memory>
        requires { self.old.mode ≡ stage.Ups }
        ensures { Fed (feed (reading_of self.old) byte) self.new result }
    {
        if byte == b'.' {
            self.mode = Mode::UpDot;
            return Ok(true);
        }
        self.begin_name(alloc, Mode::FirstName, byte)
    }

    // After `..`.
    fn take_up_dots(&mut self, byte: u8) -> Result<bool, Memory>
        requires { self.old.mode ≡ stage.UpDots }
        ensures { Fed (feed (reading_of self.old) byte) self.new result }
    {
        if byte != b'/' {
            return Ok(false);
        }
        self.ups = one_more(self.ups)?;
        self.mode = Mode::Ups;
        Ok(true)
    }

    // In the name of a module.
    fn take_module(&mut self, byte: u8) -> Result<bool, Memory>
        requires mode { self.old.mode ≡ stage.Module }
        requires ascii { byte < 128 }
        ensures { Fed (feed (reading_of self.old) byte) self.new result }
    {
        if byte == b':' {
            self.name.push(char::from(byte))?;
            self.mode = Mode::Colon;
            return Ok(true);
        }
        self.take_name_byte(byte)
    }

    // A byte more of the name.
    fn take_name_byte(&mut self, byte: u8) -> Result<bool, Memory>
        requires { byte < 128 }
        ensures { IfOk result (λ taken. MatchBool taken
            ((is_name_byte byte ≡ true) × (self.new ≡ record self.old { name = self.old.name ++ byte ∷ [] }))
            ((is_name_byte byte ≡ false) × (self.new ≡ self.old))) }
    {
        if !is_name_byte(byte) {
            return Ok(false);
        }
        self.name.push(char::from(byte))?;
        Ok(true)
    }

    // After the colon.
    fn take_colon(&mut self, byte: u8) -> Result<bool, Memory>
        requires mode { self.old.mode ≡ stage.Colon }
        requires ascii { byte < 128 }
        ensures { Fed (feed (reading_of self.old) byte) self.new result }
    {
        if !is_name_start(byte) {
            return Ok(false);
        }
        self.name.push(char::from(byte))?;
        self.mode = Mode::RootName;
        Ok(true)
    }

    // In a top node's name.
    fn take_root_name(&mut self, alloc: Global, byte: u8) -> Result<bool, Memory>
        requires mode { self.old.mode ≡ stage.RootName }
        requires name { IsTrue (is_node_name self.old.name) }
        requires ascii { byte < 128 }
        ensures { Fed (feed (reading_of self.old) byte) self.new result }
    {
        if self.take_name_byte(byte)? {
            return Ok(true);
        }
        let name = self.whole_name(alloc)?;
        self.push(Part::FromRoot(name))?;
        self.take_end(byte)
    }

    // In the first name of a relative path.
    fn take_first_name(&mut self, alloc: Global, byte: u8) -> Result<bool, Memory>
        requires mode { self.old.mode ≡ stage.FirstName }
        requires name { IsTrue (is_node_name self.old.name) }
        requires ascii { byte < 128 }
        ensures { Fed (feed (reading_of self.old) byte) self.new result }
    {
        if self.take_name_byte(byte)? {
            return Ok(true);
        }
        let name = self.whole_name(alloc)?;
        self.push(Part::FromContext(self.ups, name))?;
        self.take_end(byte)
    }

    // In a later name.
    fn take_later_name(&mut self, alloc: Global, byte: u8) -> Result<bool, Memory>
        requires mode { self.old.mode ≡ stage.LaterName }
        requires name { IsTrue (is_node_name self.old.name) }
        requires ascii { byte < 128 }
        ensures { Fed (feed (reading_of self.old) byte) self.new result }
    {
        if self.take_name_byte(byte)? {
            return Ok(true);
        }
        let name = self.whole_name(alloc)?;
        self.push(Part::Below(name))?;
        self.take_end(byte)
    }

    // In a key's name.
    fn take_key(&mut self, alloc: Global, byte: u8) -> Result<bool, Memory>
        requires mode { self.old.mode ≡ stage.KeyName }
        requires name { IsTrue (is_node_name self.old.name) }
        requires ascii { byte < 128 }
        ensures { Fed (feed (reading_of self.old) byte) self.new result }
    {
        if self.take_name_byte(byte)? {
            return Ok(true);
        }
        if byte != b'=' {
            return Ok(false);
        }
        let name = self.whole_name(alloc)?;
        self.push(Part::Open(name))?;
        self.depth = one_more(self.depth)?;
        self.mode = Mode::Begin;
        Ok(true)
    }

    // In a text in quotes, whose closing quote leads to this mode.
    fn take_quoted(&mut self, end: Mode, byte: u8) -> Result<bool, Memory>
        requires { byte < 128 }
        ensures { Fed (in_quotes (reading_of self.old)
            (place_of self.old.mode (built_of self.old.parts).now self.old.ups self.old.name self.old.differs
            (self.old.text ++ byte ∷ []))
            (place_of end (built_of self.old.parts).now self.old.ups self.old.name self.old.differs self.old.text) byte)
            self.new result }
    {
        match byte {
            b'\'' => {
                self.mode = end;
                Ok(true)
            }
            b'}' => Ok(false),
            _ => {
                self.text.push(char::from(byte))?;
                Ok(true)
            }
        }
    }

    // After the closing quote of a term.
    fn take_end_quotes(&mut self, alloc: Global, byte: u8) -> Result<bool, Memory>
        requires { self.old.mode ≡ stage.EndQuotes }
        ensures { Fed (feed (reading_of self.old) byte) self.new result }
    {
        if byte != b']' {
            return Ok(false);
        }
        let text = mem::replace(&mut self.text, Text::new(alloc));
        self.push(Part::Quoted(text))?;
        self.close()
    }

    // After the space before a test.
    fn take_spaced(&mut self, byte: u8) -> bool
        requires { self.old.mode ≡ stage.Spaced }
        ensures { Went (feed (reading_of self.old) byte) self.new result }
    {
        match byte {
            b'=' => {
                self.differs = false;
                self.mode = Mode::Sign;
                true
            }
            b'!' => {
                self.mode = Mode::Bang;
                true
            }
            _ => false,
        }
    }

    // After `!`.
    fn take_bang(&mut self, byte: u8) -> bool
        requires { self.old.mode ≡ stage.Bang }
        ensures { Went (feed (reading_of self.old) byte) self.new result }
    {
        if byte == b'=' {
            self.differs = true;
            self.mode = Mode::Sign;
            true
        } else {
            false
        }
    }

    // A byte that leads to a mode.
    fn goes(&mut self, byte: u8, due: u8, mode: Mode) -> bool
        ensures { Went (if byte == due then at (reading_of self.old)
            (place_of mode (built_of self.old.parts).now self.old.ups self.old.name self.old.differs self.old.text)
            else None)
            self.new result }
    {
        if byte == due {
            self.mode = mode;
            true
        } else {
            false
        }
    }

    // After the space that follows `=` or `!=`.
    fn take_sign_space(&mut self, alloc: Global, byte: u8) -> bool
        requires { self.old.mode ≡ stage.SignSpace }
        ensures { Went (feed (reading_of self.old) byte) self.new result }
    {
        if byte == b'\'' {
            self.text = Text::new(alloc);
            self.mode = Mode::InTest;
            true
        } else {
            false
        }
    }

    // Takes a byte that is a character.
    fn take_byte(&mut self, alloc: Global, byte: u8) -> Result<bool, Memory>
        requires fits { Fits (reading_of self.old) }
        requires ascii { byte < 128 }
        ensures { Fed (feed (reading_of self.old) byte) self.new result }
    {
        match self.mode {
            Mode::Begin => self.take_begin(alloc, byte),
            Mode::Dot => self.take_dot(byte),
            Mode::Ups => self.take_ups(alloc, byte),
            Mode::UpDot => Ok(self.goes(byte, b'.', Mode::UpDots)),
            Mode::UpDots => self.take_up_dots(byte),
            Mode::Slash => self.begin_name(alloc, Mode::Module, byte),
            Mode::Module => self.take_module(byte),
            Mode::Colon => self.take_colon(byte),
            Mode::RootName => self.take_root_name(alloc, byte),
            Mode::FirstName => self.take_first_name(alloc, byte),
            Mode::Next => self.begin_name(alloc, Mode::LaterName, byte),
            Mode::LaterName => self.take_later_name(alloc, byte),
            Mode::OpenAt => self.begin_name(alloc, Mode::KeyName, byte),
            Mode::KeyName => self.take_key(alloc, byte),
            Mode::InQuotes => self.take_quoted(Mode::EndQuotes, byte),
            Mode::EndQuotes => self.take_end_quotes(alloc, byte),
            Mode::ClosedAt => self.take_end(byte),
            Mode::Spaced => Ok(self.take_spaced(byte)),
            Mode::Bang => Ok(self.take_bang(byte)),
            Mode::Sign => Ok(self.goes(byte, b' ', Mode::SignSpace)),
            Mode::SignSpace => Ok(self.take_sign_space(alloc, byte)),
            Mode::InTest => self.take_quoted(Mode::Tested, byte),
            Mode::Tested => Ok(false),
        }
    }

    // Takes a character of several bytes, which may stand in quotes alone.
    fn take_wide(&mut self, character: char) -> Result<bool, Memory>
        requires { 128 ≤ character }
        ensures { Fed (feed_all (reading_of self.old) (encode_utf8 character)) self.new result }
    {
        match self.mode {
            Mode::InQuotes => {
                self.text.push(character)?;
                Ok(true)
            }
            Mode::InTest => {
                self.text.push(character)?;
                Ok(true)
            }
            _ => Ok(false),
        }
    }

    /// Takes a character, where one may stand here.
    pub(crate) fn take(&mut self, alloc: Global, character: char) -> Result<bool, Memory>
        requires { Fits (reading_of self.old) }
        ensures { Fed (feed_all (reading_of self.old) (encode_utf8 character)) self.new result }
    {
        if character.is_ascii() {
            return self.take_byte(alloc, u32::from(character) as u8);
        }
        self.take_wide(character)
    }

    // The condition of the parts and a test.
    fn made(self, test: Test) -> Option<Cond>
        ensures { option_map condition_of result ≡ Some (record { look = (built_of self.parts).now; test = test }) }
    {
        let Reader {
            conditional: _,
            mode: _,
            depth: _,
            parts,
            ups: _,
            name: _,
            text: _,
            differs: _,
        } = self;
        Some(Cond {
            expr: Expr { parts },
            test,
        })
    }

    // The condition with a part more, and no test.
    fn ended_by(mut self, part: Part) -> Result<Option<Cond>, Memory>
        ensures { IfOk result (λ cond. option_map condition_of cond
            ≡ Some (record { look = (built_with (built_of self.parts) part).now; test = Any })) }
    {
        self.push(part)?;
        Ok(self.made(Test::Any))
    }

    // The condition with its test.
    fn tested(mut self, alloc: Global) -> Option<Cond>
        ensures { option_map condition_of result
            ≡ Some (record { look = (built_of self.parts).now; test = test_of self.differs self.text }) }
    {
        let text = mem::replace(&mut self.text, Text::new(alloc));
        if self.differs {
            self.made(Test::Differs(text))
        } else {
            self.made(Test::Equals(text))
        }
    }

    /// The condition that was read, where its text may end here.
    pub(crate) fn finish(self, alloc: Global) -> Result<Option<Cond>, Memory>
        requires { Fits (reading_of self) }
        ensures { IfOk result (λ cond. option_map condition_of cond ≡ whole (reading_of self)) }
    {
        if self.depth != 0 {
            return Ok(None);
        }
        match self.mode {
            Mode::Dot => self.ended_by(Part::Here),
            Mode::RootName => {
                let name = self.whole_name(alloc)?;
                self.ended_by(Part::FromRoot(name))
            }
            Mode::FirstName => {
                let name = self.whole_name(alloc)?;
                let ups = self.ups;
                self.ended_by(Part::FromContext(ups, name))
            }
            Mode::LaterName => {
                let name = self.whole_name(alloc)?;
                self.ended_by(Part::Below(name))
            }
            Mode::ClosedAt => Ok(self.made(Test::Any)),
            Mode::Tested => Ok(self.tested(alloc)),
            _ => Ok(None),
        }
    }
}
