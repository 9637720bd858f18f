//! What is said of what came, and room for what is to come.
ghost use Rattle.std.specs.Prelude.{◌≡◌, ◌+◌, ◌++◌, ◌∷◌, [], ℕ, IfErr, IfOk, IsTrue, MatchOption, OnOk, length};
ghost use Rattle.orc_print.specs.Printed.{answer_line, is_answer_among};
ghost use Rattle.orc_scene.specs.Effects.{PrintsText};
ghost use Rattle.orc_scene.specs.inside.Effects.{AnswersCaller};
ghost use Rattle.orc_scene.specs.Courses.{HasEvents, HasRoom};
ghost use Rattle.orc_scene.specs.Stands.{decls_in};
ghost use Rattle.orc_scene.specs.declared.stop.WorldStop.TheVariants as stop;

use crate::scene::Scene;
use crate::stop::WorldStop;
use orc_call::Answer;
use orc_disk::Disk;
use orc_print::{Transcript, answer};
use orc_rules::Event;
use orc_text::{Memory, Text};

impl<D: Disk> Scene<D> {
    // The line of an answer.
    pub(crate) fn answer_line(
        &self,
        caller: &Text,
        number: u64,
        said: &Answer,
    ) -> Result<Vec<u8>, Memory>
        requires { MatchOption (decls_in self.now.place) ⊥ (λ decls.
            IsTrue (is_answer_among (length decls.names) said.now)) }
        ensures { MatchOption (decls_in self.now.place) ⊥ (λ decls.
            IfOk result (λ bytes. bytes.items ≡ answer_line decls.names caller.now number said.now)) }
    {
        answer(self.alloc, caller, number, said, self.names())
    }

    /// Adds a text to the transcript.
    pub fn say(&self, text: Result<Vec<u8>, Memory>, out: &mut Transcript) -> Result<(), WorldStop>
        ensures { PrintsText text out.old result out.new }
    {
        match text {
            Ok(bytes) => match out.push(bytes.as_slice()) {
                Ok(()) => Ok(()),
                Err(Memory) => Err(WorldStop::Memory),
            },
            Err(Memory) => Err(WorldStop::Memory),
        }
    }

    /// Takes room for the events of what is to come.
    pub fn make_room(&mut self) -> Result<(), WorldStop>
        ensures same { HasEvents self.old self.new self.old.events.items.items }
        ensures room { OnOk result (HasRoom 2 self.new) }
        ensures stop { IfErr result (λ why. why ≡ stop.Memory) }
    {
        match self.events.make_room() {
            Ok(()) => Ok(()),
            Err(Memory) => Err(WorldStop::Memory),
        }
    }

    /// Keeps an event, where there is room for it.
    pub fn keep(&mut self, event: Event)
        requires { HasRoom 1 self.old }
        ensures kept { HasEvents self.old self.new (self.old.events.items.items ++ event ∷ []) }
        ensures room { (count : ℕ) → HasRoom (count + 1) self.old → HasRoom count self.new }
    {
        self.events.keep(event);
    }

    // A call of this caller was answered, which drops the caller's snapshot.
    pub(crate) fn answered(
        &mut self,
        caller: &Text,
        event: Event,
        line: Result<Vec<u8>, Memory>,
        out: &mut Transcript,
    ) -> Result<(), WorldStop>
        requires { HasRoom 1 self.old }
        ensures state { AnswersCaller self.old caller.now event self.new }
        ensures said { PrintsText line out.old result out.new }
    {
        self.snapshots.drop_of(self.alloc, caller);
        self.keep(event);
        self.say(line, out)
    }
}
