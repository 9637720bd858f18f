//! The events of a run, for each of which room is taken before it.
ghost use Rattle.std.specs.Prelude.{◌≡◌, ◌<◌, ◌≤◌, ◌+◌, ◌++◌, ◌∷◌, [], OnOk, vec_len, vec_capacity};

use orc_rules::Event;
use orc_text::Memory;
use std::alloc::Global;

/// The events that came, in their order.
#[derive(Drop)]
pub struct Events {
    pub items: Vec<Event>,
}

impl Events {
    /// No event.
    pub fn new(alloc: Global) -> Events
        ensures { result.items.items ≡ [] }
    {
        Events {
            items: Vec::new(alloc),
        }
    }

    /// The events.
    pub fn as_slice(&self) -> &[Event]
        ensures { result.now ≡ self.now.items.items }
    {
        self.items.as_slice()
    }

    /// Takes room for two events more.
    pub fn make_room(&mut self) -> Result<(), Memory>
        ensures items { self.new.items.items ≡ self.old.items.items }
        ensures room { OnOk result (vec_len self.new.items + 2 ≤ vec_capacity self.new.items) }
    {
        self.items.reserve(2)?;
        Ok(())
    }

    /// Keeps an event, where there is room for it.
    pub fn keep(&mut self, event: Event)
        requires { vec_len self.old.items < vec_capacity self.old.items }
        ensures items { self.new.items.items ≡ self.old.items.items ++ event ∷ [] }
        ensures len { vec_len self.new.items ≡ vec_len self.old.items + 1 }
        ensures room { vec_capacity self.old.items ≤ vec_capacity self.new.items }
    {
        match self.items.push(event) {
            Ok(()) => {}
            Err(_) => unreachable!(),
        }
    }
}
