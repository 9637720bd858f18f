//! The queue: what waits, in order, and which of it may go on first.
ghost use Rattle.std.specs.Prelude.{◌≡◌, ◌↔◌, ◌<◌, ◌++◌, ◌∷◌, ◌+◌, [], All, IsTrue, MatchOption, OnErr, OnOk, Some, drop, length, slice_get, take};
ghost use Rattle.orc_queue.specs.Fitting.{FitTogether};
ghost use Rattle.orc_queue.specs.declared.held.Held.{Held};
ghost use Rattle.orc_queue.specs.Queues.{IsFirstToFit, FitsAt, NoneToFit};

use crate::held::Held;
use orc_text::{Memory, Row};
use std::alloc::Global;
use std::marker::Model;
use std::mem;

/// What holds devices, services, reads and targets while it is under way, or will.
pub trait Holds {
    /// What it holds.
    ghost held: { Self → Held };

    /// What it holds.
    fn held(&self) -> &Held
        ensures { result.now ≡ held self.now };
}

impl Holds for Held {
    ghost held = { λ it. it };

    fn held(&self) -> &Held {
        self
    }
}

// Whether what is held fits with each of the others.
fn fits_all<H: Holds>(held: &Held, others: &[H]) -> bool
    ensures { IsTrue result ↔ All (λ other. FitTogether held.now (H.held other)) others.now }
{
    for other in others {
        if !held.fits(other.held()) {
            return false;
        }
    }
    true
}

// Whether the one at this place fits with each active one and with each earlier waiting one.
fn fits_at<A: Holds, W: Holds>(active: &[A], waiting: &[W], place: usize) -> bool
    requires { place < length waiting.now }
    ensures { MatchOption (slice_get waiting.now place) ⊥
        (λ it. IsTrue result ↔ FitsAt A.held W.held active.now waiting.now place it) }
{
    let held = waiting[place].held();
    fits_all(held, active) && fits_all(held, &waiting[..place])
}

/// What waits, in the order in which it came.
#[derive(Drop)]
pub struct Queue<W> {
    waiting: Row<W>,
}

impl<W> Model for Queue<W> {
    ghost use Rattle.std.specs.Prelude.{List};
    ghost use Rattle.std.specs.Coded.{coded_list};

    ghost Value = { List W };

    ghost coded = { coded_list W.code };

    ghost view = { λ queue. queue.waiting };
}

impl<W> Queue<W> {
    /// Nothing waits.
    pub fn new(alloc: Global) -> Queue<W>
        ensures { result ≡ [] }
    {
        Queue {
            waiting: Row::new(alloc),
        }
    }

    /// What waits.
    pub fn as_slice(&self) -> &[W]
        ensures { result.now ≡ self.now }
    {
        self.waiting.as_slice()
    }
}

impl<W: Drop> Queue<W> {
    /// Takes the one at this place out.
    pub fn take(&mut self, alloc: Global, place: usize) -> W
        requires { place < length self.old }
        ensures it { slice_get self.old place ≡ Some result }
        ensures rest { self.new ≡ take place self.old ++ drop (place + 1) self.old }
    {
        let mut waiting = mem::replace(&mut self.waiting, Row::new(alloc)).into_vec();
        let it = waiting.remove(place);
        self.waiting = Row::from_vec(waiting);
        it
    }

    /// One more waits after the others. Where memory runs out, the queue is as it was.
    pub fn push(&mut self, it: W) -> Result<(), Memory>
        ensures ok { OnOk result (self.new ≡ self.old ++ it ∷ []) }
        ensures err { OnErr result (self.new ≡ self.old) }
    {
        self.waiting.push(it)
    }
}

impl<W: Holds> Queue<W> {
    /// The place of the first one that fits with each active one and with each one that waits before it.
    /// It takes no memory.
    pub fn first_fit<A: Holds>(&self, active: &[A]) -> Option<usize>
        ensures { MatchOption result (NoneToFit A.held W.held active.now self.now)
            (IsFirstToFit A.held W.held active.now self.now) }
    {
        let waiting = self.waiting.as_slice();
        for place in 0..waiting.len() {
            if fits_at(active, waiting, place) {
                return Some(place);
            }
        }
        None
    }
}
