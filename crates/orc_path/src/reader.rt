//! Reads a path character by character.
ghost use Rattle.std.specs.Prelude.{◌≡◌, ◌<◌, ◌≤◌, ◌++◌, ◌∷◌, [], encode_utf8, IfOk};
ghost use Rattle.orc_path.specs.inside.Reading.{feed_all, feed_character, feed_end, feed_key, feed_escape, feed_mark, feed, at_start, whole, present_step, Fits, IsStepRead, Fed};

use crate::mode::{Mode, is_raw, name_mode, unescaped};
use crate::{Name, Path, Step};
use orc_text::{Memory, Row, Text, is_plain_character};
use std::alloc::Global;
use std::mem;

/// The steps that are whole, and the parts of the one that is being read.
#[derive(Drop)]
pub(crate) struct Reader {
    mode: Mode,
    done: Row<Step>,
    node: Text,
    keys: Row<Text>,
    key: Text,
}

impl Reader {
    /// Nothing is read.
    pub(crate) fn new(alloc: Global) -> Reader
        ensures { result ≡ at_start }
    {
        Reader {
            mode: Mode::Start,
            done: Row::new(alloc),
            node: Text::new(alloc),
            keys: Row::new(alloc),
            key: Text::new(alloc),
        }
    }

    // Takes a byte of a key.
    fn take_key(&mut self, alloc: Global, byte: u8) -> Result<bool, Memory>
        requires { byte < 128 }
        ensures { Fed (feed_key self.old byte) self.new result }
    {
        if byte == b']' {
            let key = mem::replace(&mut self.key, Text::new(alloc));
            self.keys.push(key)?;
            self.mode = Mode::Closed;
            return Ok(true);
        }
        if byte == b'\\' {
            self.mode = Mode::Escape;
            return Ok(true);
        }
        if !is_raw(byte) {
            return Ok(false);
        }
        self.key.push(char::from(byte))?;
        Ok(true)
    }

    // Takes a byte after a backslash.
    fn take_escaped(&mut self, byte: u8) -> Result<bool, Memory>
        ensures { Fed (feed_escape self.old byte) self.new result }
    {
        match unescaped(byte) {
            Some(meant) => {
                self.key.push(char::from(meant))?;
                self.mode = Mode::Key;
                Ok(true)
            }
            None => Ok(false),
        }
    }

    // The step that was read. Its parts are empty from then on.
    fn take_step(&mut self, alloc: Global) -> Step
        requires { IsStepRead self.old }
        ensures step { result ≡ present_step self.old }
        ensures left { self.new ≡ record self.old { node = []; keys = [] } }
    {
        Step {
            node: Name::of_text(mem::replace(&mut self.node, Text::new(alloc))),
            keys: mem::replace(&mut self.keys, Row::new(alloc)),
        }
    }

    // Takes a byte after a name or a key.
    fn take_end(&mut self, alloc: Global, byte: u8) -> Result<bool, Memory>
        requires { IsStepRead self.old }
        ensures { Fed (feed_end self.old byte) self.new result }
    {
        match byte {
            b'[' => {
                self.key = Text::new(alloc);
                self.mode = Mode::Key;
                Ok(true)
            }
            b'/' => {
                let step = self.take_step(alloc);
                self.done.push(step)?;
                self.mode = Mode::Next;
                Ok(true)
            }
            _ => Ok(false),
        }
    }

    // Takes a byte that is none of a name.
    fn take_mark(&mut self, alloc: Global, byte: u8) -> Result<bool, Memory>
        requires fits { Fits self.old }
        requires ascii { byte < 128 }
        ensures { Fed (feed_mark self.old.mode self.old byte) self.new result }
    {
        match self.mode {
            Mode::Start if byte == b'/' => {
                self.mode = Mode::Slash;
                Ok(true)
            }
            Mode::Inside | Mode::Closed => self.take_end(alloc, byte),
            Mode::Key => self.take_key(alloc, byte),
            Mode::Escape => self.take_escaped(byte),
            _ => Ok(false),
        }
    }

    // Takes a byte that is a character.
    fn take_byte(&mut self, alloc: Global, byte: u8) -> Result<bool, Memory>
        requires fits { Fits self.old }
        requires ascii { byte < 128 }
        ensures { Fed (feed self.old byte) self.new result }
    {
        match name_mode(self.mode, byte) {
            Some(next) => {
                self.node.push(char::from(byte))?;
                self.mode = next;
                Ok(true)
            }
            None => self.take_mark(alloc, byte),
        }
    }

    // Takes a character of several bytes, which may stand in a key alone.
    fn take_wide(&mut self, character: char) -> Result<bool, Memory>
        requires { 128 ≤ character }
        ensures { Fed (feed_all self.old (encode_utf8 character)) self.new result }
    {
        match self.mode {
            Mode::Key => {
                self.key.push(character)?;
                Ok(true)
            }
            _ => Ok(false),
        }
    }

    /// Takes a character, where one may stand here.
    pub(crate) fn take(&mut self, alloc: Global, character: char) -> Result<bool, Memory>
        requires { Fits self.old }
        ensures { Fed (feed_character self.old character) self.new result }
    {
        if !is_plain_character(character) {
            return Ok(false);
        }
        if character.is_ascii() {
            return self.take_byte(alloc, u32::from(character) as u8);
        }
        self.take_wide(character)
    }

    // The path with the step that was read.
    fn with_step(mut self, alloc: Global) -> Result<Path, Memory>
        requires { IsStepRead self }
        ensures { IfOk result (λ path. path ≡ self.done ++ present_step self ∷ []) }
    {
        let step = self.take_step(alloc);
        self.done.push(step)?;
        Ok(Path { steps: self.done })
    }

    /// The path that was read, where its text may end here.
    pub(crate) fn finish(self, alloc: Global) -> Result<Option<Path>, Memory>
        requires { Fits self }
        ensures { IfOk result (λ path. path ≡ whole self) }
    {
        match self.mode {
            Mode::Slash => Ok(Some(Path { steps: self.done })),
            Mode::Inside | Mode::Closed => Ok(Some(self.with_step(alloc)?)),
            _ => Ok(None),
        }
    }
}
