//! Who asked, and what was answered.
ghost use Rattle.std.specs.Prelude.{◌≡◌, ◌<◌, ◌++◌, ◌∷◌, [], false, IfOk, MatchOption, None, OnErr, OnOk, Some, length, slice_get, slice_set};
ghost use Rattle.std.specs.Option.{option_map};
ghost use Rattle.orc_rules.specs.Asked.{answered_at, last_at, new_slot, open_of, slot_of, with_answer};
ghost use Rattle.orc_hub_parts.specs.Askers.{IsOpenAt, answer_of, named_at, opened_at};

use crate::rows::cut;
use crate::slots::Slots;
use orc_call::{Answer, Call};
use orc_rules::Asked;
use orc_text::{Memory, Row, Text};
use std::alloc::Global;
use std::marker::Model;
use std::mem;

/// A slot for each caller and number that a call was submitted with: the last answer, and whether a call
/// is open. Beside each open one stands the caller's name once more, which its answer hands out.
#[derive(Drop)]
pub struct Askers {
    slots: Slots,
    names: Row<Option<Text>>,
}

impl Model for Askers {
    ghost use Rattle.std.specs.Prelude.{List};
    ghost use Rattle.orc_rules.specs.declared.asked.Asked.{Asked};
    ghost use Rattle.orc_hub_parts.specs.inside.Named.{AreNamed};

    ghost Value = { List Asked };

    ghost view = { λ askers. askers.slots };

    ghost invariant = { λ askers. AreNamed askers.slots askers.names };
}

// The name at this place, which is there no more.
fn take_name(names: &mut [Option<Text>], place: usize) -> Option<Text>
    requires { place < length names.old }
    ensures name { slice_get names.old place ≡ Some result }
    ensures rest { names.new ≡ slice_set names.old place None }
{
    names[place].take()
}

// This name at this place.
fn set_name(names: &mut [Option<Text>], place: usize, name: Text)
    requires { place < length names.old }
    ensures { names.new ≡ slice_set names.old place (Some name) }
{
    names[place] = Some(name);
}

impl Askers {
    /// Nobody asked.
    pub fn new(alloc: Global) -> Askers
        ensures { result ≡ [] }
    {
        Askers {
            slots: Slots::new(alloc),
            names: Row::new(alloc),
        }
    }

    /// The slots, in the order in which they were made.
    pub fn as_slice(&self) -> &[Asked]
        ensures { result.now ≡ self.now }
    {
        self.slots.as_slice()
    }

    /// The number of the caller's open call, if there is one.
    pub fn open_of(&self, caller: &Text) -> Option<u64>
        ensures { result ≡ open_of self.now caller.now }
    {
        self.slots.open_of(caller)
    }

    /// The last answer to this caller and number, if there is one. It takes no memory.
    pub fn answer_of(&self, caller: &Text, number: u64) -> Option<&Answer>
        ensures { option_map (λ found. found.now) result ≡ answer_of self.now caller.now number }
    {
        self.slots.answer_of(caller, number)
    }

    /// Answers the one who asked at this place, whose call is open, and hands out the name and the number.
    pub fn answer(&mut self, alloc: Global, place: usize, answer: Answer) -> (Text, u64)
        requires { IsOpenAt self.old place }
        ensures answered { self.new ≡ answered_at place answer self.old }
        ensures name { result ≡ named_at self.old place }
    {
        let mut names = mem::replace(&mut self.names, Row::new(alloc)).into_vec();
        let number = self.slots.answer(alloc, place, answer);
        let name = take_name(names.as_mut_slice(), place);
        self.names = Row::from_vec(names);
        match name {
            Some(caller) => (caller, number),
            None => unreachable!(),
        }
    }

    /// The call of the one who asked at this place is open, with this last answer. The name is the
    /// caller's.
    pub fn open(&mut self, alloc: Global, place: usize, name: Text, last: Option<Answer>)
        requires name { MatchOption (slice_get self.old place) ⊥ (λ slot. slot.caller ≡ name) }
        requires closed { open_of self.old name ≡ None }
        ensures { self.new ≡ opened_at last place self.old }
    {
        let mut names = mem::replace(&mut self.names, Row::new(alloc)).into_vec();
        self.slots.open(alloc, place, &name, last);
        set_name(names.as_mut_slice(), place, name);
        self.names = Row::from_vec(names);
    }

    /// Notes the answer to a call in the slot of its caller and number, which is made where there is none.
    /// A call that is open there stays open. It returns the place of the slot, and the last answer before.
    /// Only a new slot takes memory.
    pub fn put(
        &mut self,
        alloc: Global,
        call: &Call,
        answer: Answer,
    ) -> Result<(usize, Option<Answer>), Memory>
        ensures put { OnOk result (self.new ≡ with_answer call.now answer self.old) }
        ensures place { IfOk result (λ done. slot_of self.new call.now ≡ Some done.0) }
        ensures last { IfOk result (λ done. done.1 ≡ last_at self.old (slot_of self.old call.now)) }
        ensures none { OnErr result (slot_of self.old call.now ≡ None) }
        ensures kept { OnErr result (self.new ≡ self.old) }
    {
        match self.slots.place_of(&call.caller, call.number) {
            Some(place) => {
                let last = self.slots.note(alloc, place, answer);
                Ok((place, last))
            }
            None => Ok((self.add(alloc, call, answer)?, None)),
        }
    }

    // Adds a slot for a call, which has none, with this answer.
    fn add(&mut self, alloc: Global, call: &Call, answer: Answer) -> Result<usize, Memory>
        requires { slot_of self.old call.now ≡ None }
        ensures added { OnOk result (self.new ≡ self.old ++ new_slot call.now (Some answer) false ∷ []) }
        ensures place { IfOk result (λ place. slot_of self.new call.now ≡ Some place) }
        ensures kept { OnErr result (self.new ≡ self.old) }
    {
        let place = self.slots.len();
        let caller = call.caller.copy(alloc)?;
        self.names.push(None)?;
        let slot = Asked {
            caller,
            number: call.number,
            last: Some(answer),
            is_open: false,
        };
        match self.slots.push(alloc, slot) {
            Ok(()) => Ok(place),
            Err(Memory) => {
                cut(alloc, &mut self.names, place);
                Err(Memory)
            }
        }
    }
}
