//! The history: the committed calls, in order, and after them the call that is being committed; each is
//! found by its caller and number.
ghost use Rattle.std.specs.Prelude.{◌≡◌, ◌++◌, ◌∷◌, [], false, length, take, slice_get, IfOk, MatchOption, OnOk, OnErr, Some};
ghost use Rattle.std.specs.Option.{option_map_or};
ghost use Rattle.orc_datastore.specs.Legal.{IsNew, IsSame};
ghost use Rattle.orc_call.specs.declared.call.Call.{Call};
ghost use Rattle.orc_state.specs.inside.Numbered.{is_named_as};

use orc_call::Call;
use orc_text::{Memory, Text};
use std::alloc::Global;
use std::collections::BTreeMap;
use std::marker::Model;

/// Calls in the order in which they were committed, of which the last one may still be being committed.
/// Beside them stands the place of each under its caller and number, in the order of these: however they are
/// chosen, a call is compared with as many others as the logarithm of how many calls there were. What is noted
/// of a call that is cut off, or that found no memory, stays, and leads to no other.
#[derive(Drop)]
pub struct History {
    calls: Vec<Call>,
    places: BTreeMap<(Text, u64), usize>,
}

impl Model for History {
    ghost use Rattle.std.specs.Prelude.{List};
    ghost use Rattle.orc_call.specs.declared.call.Call.{Call};
    ghost use Rattle.orc_state.specs.inside.Numbered.{ArePlaced};

    ghost Value = { List Call };

    ghost view = { λ history. history.calls.items };

    ghost invariant = { λ history. ArePlaced history.calls.items history.places };
}

// Whether the call of a place has this one's caller and number.
fn stands(calls: &[Call], place: usize, call: &Call) -> bool
    ensures { result ≡ option_map_or (is_named_as call.now) (slice_get calls.now place) false }
{
    match calls.get(place) {
        Some(entry) => entry.caller == call.caller && entry.number == call.number,
        None => false,
    }
}

impl History {
    /// A history without a call.
    pub fn new(alloc: Global) -> History
        ensures { result ≡ [] }
    {
        History {
            calls: Vec::new(alloc),
            places: BTreeMap::new(alloc),
        }
    }

    /// How many calls there are.
    pub fn len(&self) -> usize
        ensures { result ≡ length self.now }
    {
        self.calls.len()
    }

    /// The calls in order.
    pub fn as_slice(&self) -> &[Call]
        ensures { result.now ≡ self.now }
    {
        self.calls.as_slice()
    }

    /// The place of the call with this one's caller and number. It takes memory for a copy of the
    /// caller's name.
    pub fn place_of(&self, alloc: Global, call: &Call) -> Result<Option<usize>, Memory>
        ensures { IfOk result (λ found. MatchOption found (IsNew self.now call.now)
            (λ place. (entry : Call) × (slice_get self.now place ≡ Some entry) × IsSame entry call.now)) }
    {
        let caller = call.caller.copy(alloc)?;
        let name = (caller, call.number);
        match self.places.get(&name) {
            Some(place) => {
                if stands(self.calls.as_slice(), *place, call) {
                    Ok(Some(*place))
                } else {
                    Ok(None)
                }
            },
            None => Ok(None),
        }
    }

    /// Adds a call after the others, of which none has its caller and number.
    pub fn push(&mut self, alloc: Global, call: Call) -> Result<(), Memory>
        requires { IsNew self.old call }
        ensures ok { OnOk result (self.new ≡ self.old ++ call ∷ []) }
        ensures err { OnErr result (self.new ≡ self.old) }
    {
        let caller = call.caller.copy(alloc)?;
        let place = self.calls.len();
        self.places.insert((caller, call.number), place)?;
        self.calls.push(call)?;
        Ok(())
    }

    /// Keeps the first so many calls.
    pub fn truncate(&mut self, count: usize)
        ensures { self.new ≡ take count self.old }
    {
        self.calls.truncate(count);
    }
}
