//! The slots of callers and numbers, each of which is found without a look at the others.
ghost use Rattle.std.specs.Prelude.{◌≡◌, ◌<◌, ◌++◌, ◌∷◌, [], None, OnErr, OnOk, Some, MatchOption, false, if◌then◌else◌, length, slice_get};
ghost use Rattle.std.specs.List.{position};
ghost use Rattle.std.specs.Option.{option_map};
ghost use Rattle.orc_hub_parts.specs.Askers.{answer_of, noted_at, opened_at};
ghost use Rattle.orc_rules.specs.Asked.{answered_at, is_of, open_of};

use crate::index::Index;
use crate::rows::cut;
use orc_call::Answer;
use orc_rules::Asked;
use orc_text::{Memory, Row, Text};
use std::alloc::Global;
use std::marker::Model;
use std::mem;

/// The slots, in the order in which they were made, and where each is.
#[derive(Drop)]
pub struct Slots {
    rows: Row<Asked>,
    index: Index,
}

impl Model for Slots {
    ghost use Rattle.std.specs.Prelude.{List};
    ghost use Rattle.orc_rules.specs.declared.asked.Asked.{Asked};
    ghost use Rattle.orc_hub_parts.specs.inside.Indexed.{AreIndexed};

    ghost Value = { List Asked };

    ghost view = { λ slots. slots.rows };

    ghost invariant = { λ slots. AreIndexed slots.rows slots.index };
}

// Answers the one who asked at this place, and returns the number.
fn answer_at(asked: &mut [Asked], place: usize, answer: Answer) -> u64
    requires { place < length asked.old }
    ensures asked { asked.new ≡ answered_at place answer asked.old }
    ensures number { MatchOption (slice_get asked.old place) ⊥ (λ slot. result ≡ slot.number) }
{
    let one = &mut asked[place];
    one.last = Some(answer);
    one.is_open = false;
    one.number
}

// Notes the last answer of this place, and hands out the one before it.
fn note_at(asked: &mut [Asked], place: usize, answer: Answer) -> Option<Answer>
    requires { place < length asked.old }
    ensures asked { asked.new ≡ noted_at place answer asked.old }
    ensures last { MatchOption (slice_get asked.old place) ⊥ (λ slot. result ≡ slot.last) }
{
    let one = &mut asked[place];
    mem::replace(&mut one.last, Some(answer))
}

// The call at this place is open, with this last answer.
fn open_at(asked: &mut [Asked], place: usize, last: Option<Answer>)
    requires { place < length asked.old }
    ensures { asked.new ≡ opened_at last place asked.old }
{
    let one = &mut asked[place];
    one.last = last;
    one.is_open = true;
}

// Answers the one who asked at this place of a row, and returns the number.
fn answer_in(alloc: Global, rows: &mut Row<Asked>, place: usize, answer: Answer) -> u64
    requires { place < length rows.old }
    ensures slots { rows.new ≡ answered_at place answer rows.old }
    ensures number { MatchOption (slice_get rows.old place) ⊥ (λ slot. result ≡ slot.number) }
{
    let mut items = mem::replace(rows, Row::new(alloc)).into_vec();
    let number = answer_at(items.as_mut_slice(), place, answer);
    *rows = Row::from_vec(items);
    number
}

fn note_in(alloc: Global, rows: &mut Row<Asked>, place: usize, answer: Answer) -> Option<Answer>
    requires { place < length rows.old }
    ensures slots { rows.new ≡ noted_at place answer rows.old }
    ensures last { MatchOption (slice_get rows.old place) ⊥ (λ slot. result ≡ slot.last) }
{
    let mut items = mem::replace(rows, Row::new(alloc)).into_vec();
    let last = note_at(items.as_mut_slice(), place, answer);
    *rows = Row::from_vec(items);
    last
}

fn open_in(alloc: Global, rows: &mut Row<Asked>, place: usize, last: Option<Answer>)
    requires { place < length rows.old }
    ensures { rows.new ≡ opened_at last place rows.old }
{
    let mut items = mem::replace(rows, Row::new(alloc)).into_vec();
    open_at(items.as_mut_slice(), place, last);
    *rows = Row::from_vec(items);
}

// The number of a slot whose call is open.
fn open_number(one: &Asked) -> Option<u64>
    ensures { result ≡ (if one.now.is_open then Some one.now.number else None) }
{
    if one.is_open { Some(one.number) } else { None }
}

impl Slots {
    /// None.
    pub fn new(alloc: Global) -> Slots
        ensures { result ≡ [] }
    {
        Slots {
            rows: Row::new(alloc),
            index: Index::new(alloc),
        }
    }

    /// The slots.
    pub fn as_slice(&self) -> &[Asked]
        ensures { result.now ≡ self.now }
    {
        self.rows.as_slice()
    }

    /// How many there are.
    pub fn len(&self) -> usize
        ensures { result ≡ length self.now }
    {
        self.rows.len()
    }

    /// The number of the caller's open call, if there is one.
    pub fn open_of(&self, caller: &Text) -> Option<u64>
        ensures { result ≡ open_of self.now caller.now }
    {
        match self.index.latest(caller) {
            Some(place) => open_number(&self.rows.as_slice()[place]),
            None => None,
        }
    }

    /// The last answer to this caller and number.
    pub fn answer_of(&self, caller: &Text, number: u64) -> Option<&Answer>
        ensures { option_map (λ found. found.now) result ≡ answer_of self.now caller.now number }
    {
        match self.index.place(caller, number) {
            Some(place) => self.rows.as_slice()[place].last.as_ref(),
            None => None,
        }
    }

    /// The place of this caller and number.
    pub fn place_of(&self, caller: &Text, number: u64) -> Option<usize>
        ensures { result ≡ position (is_of caller.now number) self.now }
    {
        self.index.place(caller, number)
    }

    /// Answers the one who asked at this place, and returns the number.
    pub fn answer(&mut self, alloc: Global, place: usize, answer: Answer) -> u64
        requires { place < length self.old }
        ensures slots { self.new ≡ answered_at place answer self.old }
        ensures number { MatchOption (slice_get self.old place) ⊥ (λ slot. result ≡ slot.number) }
    {
        answer_in(alloc, &mut self.rows, place, answer)
    }

    /// Notes the last answer of this place, and hands out the one before it. A call that is open there
    /// stays open.
    pub fn note(&mut self, alloc: Global, place: usize, answer: Answer) -> Option<Answer>
        requires { place < length self.old }
        ensures slots { self.new ≡ noted_at place answer self.old }
        ensures last { MatchOption (slice_get self.old place) ⊥ (λ slot. result ≡ slot.last) }
    {
        note_in(alloc, &mut self.rows, place, answer)
    }

    /// The call at this place is open, with this last answer. It is this caller's, who has no other one.
    pub fn open(&mut self, alloc: Global, place: usize, caller: &Text, last: Option<Answer>)
        requires caller { MatchOption (slice_get self.old place) ⊥ (λ slot. slot.caller ≡ caller.now) }
        requires closed { open_of self.old caller.now ≡ None }
        ensures { self.new ≡ opened_at last place self.old }
    {
        self.index.set_open(caller, place);
        open_in(alloc, &mut self.rows, place, last);
    }

    /// Adds a slot of a caller and number that have none, and whose call isn't open. Where memory runs out
    /// nothing is changed.
    pub fn push(&mut self, alloc: Global, slot: Asked) -> Result<(), Memory>
        requires new { position (is_of slot.caller slot.number) self.old ≡ None }
        requires closed { slot.is_open ≡ false }
        ensures ok { OnOk result (self.new ≡ self.old ++ slot ∷ []) }
        ensures err { OnErr result (self.new ≡ self.old) }
    {
        let place = self.rows.len();
        let number = slot.number;
        self.rows.push(slot)?;
        match self
            .index
            .note(alloc, &self.rows.as_slice()[place].caller, number, place)
        {
            Ok(()) => Ok(()),
            Err(Memory) => {
                cut(alloc, &mut self.rows, place);
                Err(Memory)
            }
        }
    }
}
