//! Strings with expressions in braces.
ghost use Rattle.std.specs.Prelude.{◌≡◌, ◌++◌, Some, IfOk, OnOk, encode_utf8};
ghost use Rattle.orc_template.specs.Strings.{cut_on, cut_text, cut_opened, cut_braces, cut_closed, cut_start, cut_end, cut_parts, begun, Cuts};

use orc_text::{Memory, Row, Text};
use std::alloc::Global;
use std::mem;

/// A part of a string: what is written, or what stands in braces.
#[derive(Drop)]
pub(crate) enum Part {
    Written(Text),
    Braced(Text),
}

/// Where a cutter stands: in what is written, after an opening brace there, in braces, or after a
/// closing brace of what is written.
#[derive(Clone, Copy)]
pub(crate) enum Stage {
    Written,
    Opened,
    Braces,
    Closed,
}

/// A string that is cut into its parts: those that are finished, what came of the next one, and where the
/// cutter stands.
#[derive(Drop)]
pub(crate) struct Cutter {
    parts: Row<Part>,
    text: Text,
    stage: Stage,
}

impl Cutter {
    // Nothing was cut.
    fn new(alloc: Global) -> Cutter
        ensures { result ≡ cut_start }
    {
        Cutter {
            parts: Row::new(alloc),
            text: Text::new(alloc),
            stage: Stage::Written,
        }
    }

    // Goes on with a character of the part.
    fn keep(&mut self, character: char, stage: Stage) -> Result<(), Memory>
        ensures { OnOk result (self.new
            ≡ record { parts = self.old.parts; text = self.old.text ++ encode_utf8 character; stage = stage }) }
    {
        self.text.push(character)?;
        self.stage = stage;
        Ok(())
    }

    // Ends what is written, and begins what stands in braces.
    fn begin(&mut self, alloc: Global) -> Result<(), Memory>
        ensures { OnOk result (self.new ≡ begun self.old) }
    {
        let text = mem::replace(&mut self.text, Text::new(alloc));
        self.parts.push(Part::Written(text))?;
        self.stage = Stage::Braces;
        Ok(())
    }

    // Ends what stands in braces.
    fn end(&mut self, alloc: Global) -> Result<(), Memory>
        ensures { OnOk result (Some self.new ≡ cut_braces self.old 125) }
    {
        let text = mem::replace(&mut self.text, Text::new(alloc));
        self.parts.push(Part::Braced(text))?;
        self.stage = Stage::Written;
        Ok(())
    }

    // Takes a character of what is written.
    fn take_written(&mut self, character: char) -> Result<bool, Memory>
        ensures { Cuts (cut_text self.old character) self.new result }
    {
        if character == '{' {
            self.stage = Stage::Opened;
            return Ok(true);
        }
        if character == '}' {
            self.stage = Stage::Closed;
            return Ok(true);
        }
        self.keep(character, Stage::Written)?;
        Ok(true)
    }

    // Takes a character in braces.
    fn take_braced(&mut self, alloc: Global, character: char) -> Result<bool, Memory>
        ensures { Cuts (cut_braces self.old character) self.new result }
    {
        if character == '}' {
            self.end(alloc)?;
            return Ok(true);
        }
        self.keep(character, Stage::Braces)?;
        Ok(true)
    }

    // Takes the character after an opening brace.
    fn take_opened(&mut self, alloc: Global, character: char) -> Result<bool, Memory>
        ensures { Cuts (cut_opened self.old character) self.new result }
    {
        if character == '{' {
            self.keep(character, Stage::Written)?;
            return Ok(true);
        }
        self.begin(alloc)?;
        self.take_braced(alloc, character)
    }

    // Takes the character after a closing brace.
    fn take_closed(&mut self, character: char) -> Result<bool, Memory>
        ensures { Cuts (cut_closed self.old character) self.new result }
    {
        if character == '}' {
            self.keep(character, Stage::Written)?;
            return Ok(true);
        }
        Ok(false)
    }

    // Takes a character, where one may stand.
    fn take(&mut self, alloc: Global, character: char) -> Result<bool, Memory>
        ensures { Cuts (cut_on self.old character) self.new result }
    {
        match self.stage {
            Stage::Written => self.take_written(character),
            Stage::Opened => self.take_opened(alloc, character),
            Stage::Braces => self.take_braced(alloc, character),
            Stage::Closed => self.take_closed(character),
        }
    }

    // The parts, where the string may end.
    fn finish(self) -> Result<Option<Row<Part>>, Memory>
        ensures { IfOk result (λ parts. parts ≡ cut_end self) }
    {
        let Cutter {
            mut parts,
            text,
            stage,
        } = self;
        match stage {
            Stage::Written => {
                parts.push(Part::Written(text))?;
                Ok(Some(parts))
            }
            _ => Ok(None),
        }
    }
}

/// The parts of a string, where its braces are in pairs.
pub(crate) fn parts_of(alloc: Global, text: &str) -> Result<Option<Row<Part>>, Memory>
    ensures { IfOk result (λ parts. parts ≡ cut_parts text.now) }
{
    let mut cutter = Cutter::new(alloc);
    for character in text.chars() {
        if !cutter.take(alloc, character)? {
            return Ok(None);
        }
    }
    cutter.finish()
}
