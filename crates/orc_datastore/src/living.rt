//! The living services, found by their names and kept in the order in which they were made.
ghost use Rattle.std.specs.Prelude.{◌≡◌, ℕ, ◌+◌, ◌<◌, ◌≤◌, List, ◌++◌, ◌∷◌, [], Some, None, true, false, is_some, length, slice_set, OnOk, OnErr, if◌then◌else◌};
ghost use Rattle.std.specs.List.{find};
ghost use Rattle.std.specs.Option.{option_copied};
ghost use Rattle.std.specs.Vec.{vec_len, vec_capacity};
ghost use Rattle.orc_datastore.specs.States.{has_id, lives, others};
ghost use Rattle.orc_decls.specs.Devices.{is_same_text};
ghost use Rattle.orc_datastore.specs.inside.Placed.{AreNamedOnce, AreNoted, HasNames, HasRoom, KeepsNames, KeepsNoted, KeepsRoom, UsesRoom, filled, is_at, noted, place_among};
ghost use Rattle.orc_datastore.specs.inside.Turns.{AreFresh, left_by};

use crate::Service;
use orc_text::{Memory, Text};
use std::alloc::Global;
use std::collections::BTreeMap;
use std::marker::Model;

/// The living services, in the order in which they were made; no two of them have one name.
///
/// A service stands in a slot of its own, and the slots keep their order: one that is removed leaves
/// its slot empty, so no other one moves. There are so many slots as services were ever made, which
/// is no more than the history has, and that is kept anyway. The places are in the order of the names, so
/// that however these are chosen a service is found in time that grows with the logarithm of how many there
/// were. What is noted of a service stays when that is removed, and leads then to a slot without its name.
#[derive(Drop)]
pub(crate) struct Living {
    slots: Vec<Option<Service>>,
    places: BTreeMap<Text, usize>,
}

impl Model for Living {
    ghost use Rattle.std.specs.Prelude.{List};
    ghost use Rattle.std.specs.Coded.{coded_list};
    ghost use Rattle.orc_datastore.specs.Codes.{service_code};
    ghost use Rattle.orc_datastore.specs.inside.Placed.{filled, AreNoted};
    ghost use Rattle.orc_datastore.specs.declared.service.Service.{Service};

    ghost Value = { List Service };

    ghost coded = { coded_list service_code };

    ghost view = { λ living. filled living.slots.items };

    ghost invariant = { λ living. AreNoted living.slots.items living.places };
}

impl Living {
    /// No service.
    pub(crate) fn new(alloc: Global) -> Living
        ensures { result ≡ [] }
    {
        Living {
            slots: Vec::new(alloc),
            places: BTreeMap::new(alloc),
        }
    }

    /// The living service of this name.
    pub(crate) fn find(&self, id: &Text) -> Option<&Service>
        ensures { option_copied result ≡ find (has_id id.now) self.now }
    {
        match place_of(self.slots.as_slice(), &self.places, id) {
            Some(place) => self.slots[place].as_ref(),
            None => None,
        }
    }

    /// No two of them have one name.
    pub(crate) fn names_differ(&self)
        ensures { AreNamedOnce self.now }
    {
        // Looked at, so that the proof knows that they are living services.
        let _ = &self.slots;
    }

    /// Takes the services of these names away, where there are any, and puts others after those that
    /// are left. Where memory runs out all stays as it was. It looks at no other service.
    pub(crate) fn exchange(
        &mut self,
        alloc: Global,
        ids: &[Text],
        services: Vec<Service>,
    ) -> Result<(), Memory>
        requires { AreFresh (left_by self.old ids.now) services.items }
        ensures ok { OnOk result (self.new ≡ left_by self.old ids.now ++ services.items) }
        ensures err { OnErr result (self.new ≡ self.old) }
    {
        make_room(
            alloc,
            &mut self.slots,
            &mut self.places,
            services.as_slice(),
        )?;
        take_all(&mut self.slots, &self.places, ids);
        put_all(&mut self.slots, &mut self.places, services);
        Ok(())
    }
}

// Whether the slot of a place holds a service of this name.
fn holds(slots: &[Option<Service>], place: usize, id: &Text) -> bool
    ensures { result ≡ is_at slots.now id.now place }
{
    match slots.get(place) {
        Some(Some(service)) => *service.id() == *id,
        _ => false,
    }
}

// The place of the service of this name.
fn place_of(slots: &[Option<Service>], places: &BTreeMap<Text, usize>, id: &Text) -> Option<usize>
    ensures { result ≡ place_among slots.now places.now id.now }
{
    match places.get(id) {
        Some(place) => {
            if holds(slots, *place, id) {
                Some(*place)
            } else {
                None
            }
        },
        None => None,
    }
}

// Makes room for a place under this name. What is noted stays.
fn note_name(alloc: Global, places: &mut BTreeMap<Text, usize>, id: &Text) -> Result<(), Memory>
    ensures kept { KeepsNoted places.old places.new }
    ensures name { OnOk result (is_some (noted places.new id.now) ≡ true) }
{
    match places.get(id) {
        Some(_) => Ok(()),
        None => {
            places.insert(id.copy(alloc)?, 0)?;
            Ok(())
        }
    }
}

// Makes room for a place under the name of each of these services. What is noted stays.
fn note_names(
    alloc: Global,
    places: &mut BTreeMap<Text, usize>,
    services: &[Service],
) -> Result<(), Memory>
    ensures kept { KeepsNoted places.old places.new }
    ensures names { OnOk result (HasNames places.new services.now) }
{
    for service in services {
        note_name(alloc, places, service.id())?;
    }
    Ok(())
}

// Makes room for these services. Those that are there stay as they are.
fn make_room(
    alloc: Global,
    slots: &mut Vec<Option<Service>>,
    places: &mut BTreeMap<Text, usize>,
    services: &[Service],
) -> Result<(), Memory>
    requires { AreNoted slots.old.items places.old }
    ensures items { slots.new.items ≡ slots.old.items }
    ensures noted { AreNoted slots.new.items places.new }
    ensures room { OnOk result (HasRoom slots.new (length services.now)) }
    ensures names { OnOk result (HasNames places.new services.now) }
{
    slots.reserve(services.len())?;
    note_names(alloc, places, services)
}

// Takes the service of a name out of its slot, where there is one.
fn take_out(slots: &mut Vec<Option<Service>>, places: &BTreeMap<Text, usize>, id: &Text)
    requires { AreNoted slots.old.items places.now }
    ensures noted { AreNoted slots.new.items places.now }
    ensures left { filled slots.new.items ≡ others (filled slots.old.items) id.now }
    ensures room { KeepsRoom slots.old slots.new }
{
    match place_of(slots.as_slice(), places, id) {
        Some(place) => empty_slot(slots, place),
        None => {}
    }
}

// Takes the services of these names out of their slots, where there are any.
fn take_all(slots: &mut Vec<Option<Service>>, places: &BTreeMap<Text, usize>, ids: &[Text])
    requires { AreNoted slots.old.items places.now }
    ensures noted { AreNoted slots.new.items places.now }
    ensures left { filled slots.new.items ≡ left_by (filled slots.old.items) ids.now }
    ensures room { KeepsRoom slots.old slots.new }
{
    for id in ids {
        take_out(slots, places, id);
    }
}

// Puts a service into a slot after the others, where there is room for one and for its name.
fn put_in(slots: &mut Vec<Option<Service>>, places: &mut BTreeMap<Text, usize>, service: Service)
    requires noted { AreNoted slots.old.items places.old }
    requires fresh { lives (filled slots.old.items) service.id ≡ false }
    requires room { HasRoom slots.old 1 }
    requires name { is_some (noted places.old service.id) ≡ true }
    ensures noted { AreNoted slots.new.items places.new }
    ensures more { filled slots.new.items ≡ filled slots.old.items ++ service ∷ [] }
    ensures room { UsesRoom slots.old slots.new }
    ensures names { KeepsNames places.old places.new }
{
    note_place(places, service.id(), slots.len());
    fill_slot(slots, service);
}

// Adds a slot with a service, where there is room for one.
fn fill_slot(slots: &mut Vec<Option<Service>>, service: Service)
    requires { vec_len slots.old < vec_capacity slots.old }
    ensures items { slots.new.items ≡ slots.old.items ++ Some service ∷ [] }
    ensures len { vec_len slots.new ≡ vec_len slots.old + 1 }
    ensures room { vec_capacity slots.old ≤ vec_capacity slots.new }
{
    match slots.push(Some(service)) {
        Ok(()) => {}
        Err(_) => unreachable!(),
    }
}

// Notes the place of a name, where there is room for it.
fn note_place(places: &mut BTreeMap<Text, usize>, id: &Text, place: usize)
    requires { is_some (noted places.old id.now) ≡ true }
    ensures { (name : List ℕ) → noted places.new name
        ≡ (if is_same_text id.now name then Some place else noted places.old name) }
{
    match places.get_mut(id) {
        Some(at) => *at = place,
        None => unreachable!(),
    }
}

// Puts services into slots after the others, in their order, where there is room for them and for
// their names.
fn put_all(
    slots: &mut Vec<Option<Service>>,
    places: &mut BTreeMap<Text, usize>,
    services: Vec<Service>,
)
    requires noted { AreNoted slots.old.items places.old }
    requires fresh { AreFresh (filled slots.old.items) services.items }
    requires room { HasRoom slots.old (length services.items) }
    requires names { HasNames places.old services.items }
    ensures noted { AreNoted slots.new.items places.new }
    ensures more { filled slots.new.items ≡ filled slots.old.items ++ services.items }
{
    for service in services {
        put_in(slots, places, service);
    }
}

// Drops what stands in a slot.
fn empty_slot(slots: &mut Vec<Option<Service>>, place: usize)
    requires { place < vec_len slots.old }
    ensures items { slots.new.items ≡ slice_set slots.old.items place None }
    ensures len { vec_len slots.new ≡ vec_len slots.old }
    ensures room { vec_capacity slots.new ≡ vec_capacity slots.old }
{
    slots[place] = None;
}
