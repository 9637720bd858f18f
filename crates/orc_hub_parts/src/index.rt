//! Where the slots of callers are: a caller is found by its name, and a slot of it by its number, so that no
//! look-up goes over all answers.
ghost use Rattle.std.specs.Prelude.{◌≡◌, ◌<◌, [], None, OnErr, OnOk, length};
ghost use Rattle.std.specs.BTreeMap.{IsEmpty, get};
ghost use Rattle.std.specs.Option.{option_map};
ghost use Rattle.std.specs.Ordering.{nat_cmp};
ghost use Rattle.orc_decls.specs.Names.{place_of};
ghost use Rattle.orc_hub_parts.specs.inside.Indexed.{ChangesRow, FindsSame, IsKnown, IsPaired, KeepsCalls, NotesCall, NotesOpen, NotesPlace, OpensCall, calls_among, latest_in, place_in, with_caller};

use crate::rows::cut;
use orc_decls::Names;
use orc_text::{Memory, Row, Text};
use std::alloc::Global;
use std::collections::BTreeMap;

/// The slots of one caller: the place of the one that was opened last, and of each number's.
#[derive(Drop)]
pub struct Calls {
    pub latest: Option<usize>,
    pub places: BTreeMap<u64, usize>,
}

/// The callers, in the order in which they came first, and the slots of each.
#[derive(Drop)]
pub struct Index {
    pub callers: Names,
    pub rows: Row<Calls>,
}

// The place of the slot of this number.
fn place_among(calls: &Calls, number: u64) -> Option<usize>
    ensures { result ≡ get nat_cmp calls.now.places number }
{
    match calls.places.get(&number) {
        Some(place) => Some(*place),
        None => None,
    }
}

impl Calls {
    // None.
    fn new(alloc: Global) -> Calls
        ensures latest { result.latest ≡ None }
        ensures places { IsEmpty result.places }
    {
        Calls {
            latest: None,
            places: BTreeMap::new(alloc),
        }
    }
}

// Notes the place of the slot of this number.
fn note_among(calls: &mut Calls, number: u64, place: usize) -> Result<(), Memory>
    ensures ok { OnOk result (NotesCall number place calls.old calls.new) }
    ensures err { OnErr result (KeepsCalls calls.old calls.new) }
{
    calls.places.insert(number, place)?;
    Ok(())
}

// Notes the place of the slot of this number of the caller at this place.
fn note_at(rows: &mut [Calls], k: usize, number: u64, place: usize) -> Result<(), Memory>
    requires { k < length rows.old }
    ensures ok { OnOk result (ChangesRow rows.old rows.new k (NotesCall number place)) }
    ensures err { OnErr result (ChangesRow rows.old rows.new k KeepsCalls) }
{
    note_among(&mut rows[k], number, place)
}

// The slot that the caller at this place opened last is at this place.
fn open_at(rows: &mut [Calls], k: usize, place: usize)
    requires { k < length rows.old }
    ensures { ChangesRow rows.old rows.new k (OpensCall place) }
{
    rows[k].latest = Some(place);
}

impl Index {
    /// No caller is known.
    pub fn new(alloc: Global) -> Index
        ensures callers { result.callers ≡ [] }
        ensures rows { result.rows ≡ [] }
    {
        Index {
            callers: Names::new(alloc),
            rows: Row::new(alloc),
        }
    }

    // The slots of a caller, where it is known.
    fn calls_of(&self, caller: &Text) -> Option<&Calls>
        ensures { option_map (λ found. found.now) result ≡ calls_among self.now caller.now }
    {
        match self.callers.place(caller) {
            Some(k) => self.rows.as_slice().get(k),
            None => None,
        }
    }

    /// The place of the slot of this caller and number.
    pub fn place(&self, caller: &Text, number: u64) -> Option<usize>
        ensures { result ≡ place_in self.now caller.now number }
    {
        match self.calls_of(caller) {
            Some(calls) => place_among(calls, number),
            None => None,
        }
    }

    /// The place of the slot that the caller opened last.
    pub fn latest(&self, caller: &Text) -> Option<usize>
        ensures { result ≡ latest_in self.now caller.now }
    {
        match self.calls_of(caller) {
            Some(calls) => calls.latest,
            None => None,
        }
    }

    // Adds a caller, who is new, with these slots.
    fn add(&mut self, alloc: Global, caller: &Text, calls: Calls) -> Result<(), Memory>
        requires { place_of self.old.callers caller.now ≡ None }
        ensures ok { OnOk result (self.new ≡ with_caller self.old caller.now calls) }
        ensures err { OnErr result (self.new ≡ self.old) }
    {
        let name = caller.copy(alloc)?;
        let count = self.rows.len();
        self.rows.push(calls)?;
        match self.callers.add(name) {
            Ok(()) => Ok(()),
            Err(Memory) => {
                cut(alloc, &mut self.rows, count);
                Err(Memory)
            }
        }
    }

    // Notes the place of the slot of this number of a caller, who is new.
    fn note_first(
        &mut self,
        alloc: Global,
        caller: &Text,
        number: u64,
        place: usize,
    ) -> Result<(), Memory>
        requires new { place_of self.old.callers caller.now ≡ None }
        requires paired { IsPaired self.old }
        ensures paired { IsPaired self.new }
        ensures ok { OnOk result (NotesPlace self.old self.new caller.now number place) }
        ensures err { OnErr result (self.new ≡ self.old) }
    {
        let mut calls = Calls::new(alloc);
        note_among(&mut calls, number, place)?;
        self.add(alloc, caller, calls)
    }

    /// Notes the place of the slot of this caller and number.
    pub fn note(
        &mut self,
        alloc: Global,
        caller: &Text,
        number: u64,
        place: usize,
    ) -> Result<(), Memory>
        requires { IsPaired self.old }
        ensures paired { IsPaired self.new }
        ensures ok { OnOk result (NotesPlace self.old self.new caller.now number place) }
        ensures err { OnErr result (FindsSame self.old self.new) }
    {
        match self.callers.place(caller) {
            Some(k) => note_at(self.rows.as_mut_slice(), k, number, place),
            None => self.note_first(alloc, caller, number, place),
        }
    }

    /// The slot that a caller opened last is at this place. The caller is known.
    pub fn set_open(&mut self, caller: &Text, place: usize)
        requires paired { IsPaired self.old }
        requires known { IsKnown self.old caller.now }
        ensures paired { IsPaired self.new }
        ensures opens { NotesOpen self.old self.new caller.now place }
    {
        match self.callers.place(caller) {
            Some(k) => open_at(self.rows.as_mut_slice(), k, place),
            None => unreachable!(),
        }
    }
}
