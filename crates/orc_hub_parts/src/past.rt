//! What the entries of a journal say to a hub that starts.
ghost use Rattle.std.specs.Prelude.{◌≡◌, ◌+◌, ◌++◌, ◌∷◌, [], ℕ, true, false, Ok, length, take, IfOk, IsErrOf, IsTrue};
ghost use Rattle.orc_datastore.specs.Legal.{IsDue, IsLegal};
ghost use Rattle.orc_decls.specs.Calls.{is_call};
ghost use Rattle.orc_decls.specs.Declarations.{AreDecls};
ghost use Rattle.orc_journal.specs.Committed.{history_of};
ghost use Rattle.orc_journal.specs.declared.entry.Entry.{Entry};
ghost use Rattle.orc_state.specs.States.{IsStateUnder};
ghost use Rattle.orc_hub_parts.specs.Pasts.{IsIllegalDecide};
ghost use Rattle.orc_hub_parts.specs.Pasts.{IsPast};

use crate::log::{Unsettled, note};
use crate::numbers::Numbers;
use orc_call::Call;
use orc_decls::{Decls, is_call};
use orc_journal::{Entry, committed_by};
use orc_state::State;
use orc_text::{Memory, Row};
use std::alloc::Global;

/// The numbers of transactions, those that aren't settled, and the state after the calls that were
/// decided.
#[derive(Drop)]
pub struct Past {
    pub numbers: Numbers,
    pub unsettled: Row<Unsettled>,
    pub state: State,
}

/// Why entries have no past.
#[derive(Clone, Copy)]
pub enum PastFault {
    /// The Decide at this place makes the history illegal, by its n-th call.
    Illegal { place: usize, n: u64 },
    /// Memory could not be had.
    Memory,
}

impl From<Memory> for PastFault {
    ghost use Rattle.orc_hub_parts.specs.declared.past.PastFault.TheVariants as fault;
    ghost use Rattle.std.specs.Prelude.{◌≡◌};

    ghost from_gives = { λ _ e. e ≡ fault.Memory };

    fn from(_: Memory) -> PastFault {
        PastFault::Memory
    }
}

impl Past {
    /// The past of entries, which stand in their order.
    pub fn read(alloc: Global, decls: &Decls, entries: &[Entry]) -> Result<Past, PastFault>
        requires decls { AreDecls decls.now }
        ensures past { IfOk result (λ past. IsPast decls.now past entries.now) }
        ensures illegal { (place n : ℕ) → IsErrOf result (PastFault.Illegal place n)
            → IsIllegalDecide decls.now entries.now place × (n ≡ length (history_of (take place entries.now)) + 1) }
    {
        let mut past = Past {
            numbers: Numbers::new(alloc),
            unsettled: Row::new(alloc),
            state: State::start(alloc, decls)?,
        };
        for (place, entry) in entries.iter().enumerate() {
            let n = past.state.history().len() as u64 + 1;
            if !past.take(alloc, decls, &entries[..place], entry)? {
                return Err(PastFault::Illegal { place, n });
            }
        }
        Ok(past)
    }

    // Takes an entry after those before it, and says whether the history is still legal.
    fn take(
        &mut self,
        alloc: Global,
        decls: &Decls,
        before: &[Entry],
        entry: &Entry,
    ) -> Result<bool, Memory>
        requires decls { AreDecls decls.now }
        requires past { IsPast decls.now self.old before.now }
        ensures taken { result ≡ Ok true → IsPast decls.now self.new (before.now ++ entry.now ∷ []) }
        ensures illegal { result ≡ Ok false → ((t : ℕ) × (entry.now ≡ Entry.Decide t))
            × (IsLegal decls.now (history_of (before.now ++ entry.now ∷ [])) → ⊥) }
    {
        self.numbers.note(entry.number())?;
        note(alloc, &mut self.unsettled, entry)?;
        match committed_by(before, entry) {
            Some(call) => commit(alloc, decls, &mut self.state, call),
            None => Ok(true),
        }
    }
}

// Commits a call, and says whether the history is still legal; if not, it is as it was.
fn commit(alloc: Global, decls: &Decls, state: &mut State, call: &Call) -> Result<bool, Memory>
    requires decls { AreDecls decls.now }
    requires state { IsStateUnder decls.now state.old }
    ensures kept { result ≡ Ok true → IsStateUnder decls.now state.new }
    ensures history { result ≡ Ok true → state.new.history ≡ state.old.history ++ call.now ∷ [] }
    ensures illegal { result ≡ Ok false → IsTrue (is_call decls.now call.now)
        → IsDue decls.now state.old.history call.now → ⊥ }
{
    if !is_call(alloc, decls, call)? {
        return Ok(false);
    }
    match state.replay(alloc, decls, call)? {
        Ok(_) => Ok(true),
        Err(_) => Ok(false),
    }
}
