//! The log: the open journal, and what its entries say of transactions that aren't settled.
ghost use Rattle.std.specs.Prelude.{◌≡◌, ◌<◌, ◌≤◌, ◌++◌, ◌∷◌, ℕ, false, IfOk, IsErrOf, IsTrue, OnErr, OnOk, drop, length, map, take};
ghost use Rattle.std.specs.List.{position};
ghost use Rattle.orc_call.specs.declared.call.Call.{Call};
ghost use Rattle.orc_journal.specs.Appends.{HasAppended, HasFailed, IsTooLong, LeavesBeforeOrAfter};
ghost use Rattle.orc_journal.specs.Entries.{IsEntry, is_intent};
ghost use Rattle.orc_journal.specs.Opened.{IsReady};
ghost use Rattle.orc_rules.specs.Admissions.{without};
ghost use Rattle.orc_hub_parts.specs.Logs.{decided_by, has_number, noted, place_for, placed_in, settled_by};

use orc_disk::Disk;
use orc_journal::{AppendFault, Entry, Journal};
use orc_text::{Memory, Row};
use std::alloc::Global;
use std::mem;

/// A transaction that has its Intent and no Settled: its number, the devices that the Intent names, and
/// whether it has its Decide.
#[derive(Drop)]
pub struct Unsettled {
    pub t: u64,
    pub devices: Row<u32>,
    pub is_decided: bool,
}

/// The open journal; and the unsettled transactions that its entries report, in the order of their numbers.
#[derive(Drop)]
pub struct Log<D: Disk> {
    pub journal: Journal<D>,
    pub unsettled: Row<Unsettled>,
}

// Copies of the numbers of devices.
fn copied_devices(alloc: Global, devices: &[u32]) -> Result<Row<u32>, Memory>
    ensures { IfOk result (λ copies. copies ≡ devices.now) }
{
    let mut copies = Row::new(alloc);
    for device in devices {
        copies.push(*device)?;
    }
    Ok(copies)
}

// The place before the first transaction with a greater number.
fn place_for(unsettled: &[Unsettled], t: u64) -> usize
    ensures place { result ≡ place_for t unsettled.now }
    ensures within { result ≤ length unsettled.now }
{
    for place in 0..unsettled.len() {
        if t < unsettled[place].t {
            return place;
        }
    }
    unsettled.len()
}

// Notes an Intent that is to be appended, and returns its place.
fn note_intent(
    alloc: Global,
    unsettled: &mut Row<Unsettled>,
    t: u64,
    devices: &[u32],
) -> Result<usize, Memory>
    ensures place { IfOk result (λ place. place ≡ place_for t unsettled.old) }
    ensures within { IfOk result (λ place. place ≤ length unsettled.old) }
    ensures ok { OnOk result (unsettled.new
        ≡ placed_in (record { t = t; devices = devices.now; is_decided = false }) unsettled.old) }
    ensures err { OnErr result (unsettled.new ≡ unsettled.old) }
{
    let one = Unsettled {
        t,
        devices: copied_devices(alloc, devices)?,
        is_decided: false,
    };
    let place = place_for(unsettled.as_slice(), t);
    put_at(alloc, unsettled, place, one)?;
    Ok(place)
}

// Puts one at a place.
fn put_at(
    alloc: Global,
    unsettled: &mut Row<Unsettled>,
    place: usize,
    one: Unsettled,
) -> Result<(), Memory>
    requires { place ≤ length unsettled.old }
    ensures ok { OnOk result (unsettled.new ≡ take place unsettled.old ++ one ∷ drop place unsettled.old) }
    ensures err { OnErr result (unsettled.new ≡ unsettled.old) }
{
    let mut items = mem::replace(unsettled, Row::new(alloc)).into_vec();
    let put = items.insert(place, one);
    *unsettled = Row::from_vec(items);
    match put {
        Ok(()) => Ok(()),
        Err(_) => Err(Memory),
    }
}

// Takes the one at a place out again.
fn take_back(alloc: Global, unsettled: &mut Row<Unsettled>, place: usize)
    requires { place < length unsettled.old }
    ensures { unsettled.new ≡ without place unsettled.old }
{
    let mut items = mem::replace(unsettled, Row::new(alloc)).into_vec();
    items.remove(place);
    *unsettled = Row::from_vec(items);
}

// Notes the Decide of a transaction, where this is the one.
fn decide(one: &mut Unsettled, t: u64)
    ensures { one.new ≡ decided_by t one.old }
{
    if one.t == t {
        one.is_decided = true;
    }
}

// Notes the Decide of a transaction.
fn decide_all(unsettled: &mut [Unsettled], t: u64)
    ensures { unsettled.new ≡ map (decided_by t) unsettled.old }
{
    for one in unsettled.iter_mut() {
        decide(one, t);
    }
}

// The place of the transaction of this number.
fn place_of(unsettled: &[Unsettled], t: u64) -> Option<usize>
    ensures { result ≡ position (has_number t) unsettled.now }
{
    for place in 0..unsettled.len() {
        if unsettled[place].t == t {
            return Some(place);
        }
    }
    None
}

// The transaction of this number is there no more.
fn settle(alloc: Global, unsettled: &mut Row<Unsettled>, t: u64)
    ensures { unsettled.new ≡ settled_by t unsettled.old }
{
    match place_of(unsettled.as_slice(), t) {
        Some(place) => take_back(alloc, unsettled, place),
        None => {}
    }
}

// Notes an entry that was appended and isn't an Intent.
fn note_short(alloc: Global, unsettled: &mut Row<Unsettled>, entry: &Entry)
    requires { is_intent entry.now ≡ false }
    ensures { unsettled.new ≡ noted unsettled.old entry.now }
{
    match entry {
        Entry::Intent { .. } => unreachable!(),
        Entry::Decide { t } => {
            let mut items = mem::replace(unsettled, Row::new(alloc)).into_vec();
            decide_all(items.as_mut_slice(), *t);
            *unsettled = Row::from_vec(items);
        }
        Entry::Abort { .. } => {}
        Entry::Settled { t } => settle(alloc, unsettled, *t),
    }
}

/// Notes what an entry says. Only an `Intent` takes memory.
pub fn note(alloc: Global, unsettled: &mut Row<Unsettled>, entry: &Entry) -> Result<(), Memory>
    ensures { OnOk result (unsettled.new ≡ noted unsettled.old entry.now) }
{
    match entry {
        Entry::Intent { t, devices, .. } => {
            note_intent(alloc, unsettled, *t, devices.as_slice())?;
        }
        Entry::Decide { .. } => note_short(alloc, unsettled, entry),
        Entry::Abort { .. } => note_short(alloc, unsettled, entry),
        Entry::Settled { .. } => note_short(alloc, unsettled, entry),
    }
    Ok(())
}

impl<D: Disk> Log<D> {
    /// Appends an entry, as `Journal::append` does, and notes what it says. Only an `Intent` takes memory,
    /// and where that runs out the log is as it was. Only an entry that has room meets a failure of the disk.
    pub fn append(&mut self, alloc: Global, entry: &Entry) -> Result<(), AppendFault>
        requires ready { IsReady D.disk self.old.journal }
        requires entry { IsEntry entry.now }
        ensures appended { OnOk result (HasAppended D.disk self.old.journal self.new.journal entry.now) }
        ensures left { OnOk result (LeavesBeforeOrAfter D.disk self.old.journal self.new.journal entry.now) }
        ensures noted { OnOk result (self.new.unsettled ≡ noted self.old.unsettled entry.now) }
        ensures full { (len : ℕ) → IsErrOf result (AppendFault.Full len)
            → (len ≡ self.old.journal.len) × IsTooLong self.old.journal entry.now
            × (self.new.journal ≡ self.old.journal) }
        ensures memory { IsErrOf result AppendFault.Memory → IsTrue (is_intent entry.now) × (self.new ≡ self.old) }
        ensures failed { IsErrOf result AppendFault.DiskFault
            → HasFailed D.disk self.old.journal self.new.journal entry.now }
        ensures fits { IsErrOf result AppendFault.DiskFault → IsTooLong self.old.journal entry.now → ⊥ }
        ensures leaves { IsErrOf result AppendFault.DiskFault
            → LeavesBeforeOrAfter D.disk self.old.journal self.new.journal entry.now }
    {
        match entry {
            Entry::Intent { t, devices, .. } => {
                self.append_intent(alloc, entry, *t, devices.as_slice())
            }
            Entry::Decide { .. } => self.append_short(alloc, entry),
            Entry::Abort { .. } => self.append_short(alloc, entry),
            Entry::Settled { .. } => self.append_short(alloc, entry),
        }
    }

    // Appends an Intent of this number and these devices, and notes what it says.
    fn append_intent(
        &mut self,
        alloc: Global,
        entry: &Entry,
        t: u64,
        devices: &[u32],
    ) -> Result<(), AppendFault>
        requires ready { IsReady D.disk self.old.journal }
        requires entry { IsEntry entry.now }
        requires intent { (call : Call) × (entry.now ≡ Entry.Intent t call devices.now) }
        ensures appended { OnOk result (HasAppended D.disk self.old.journal self.new.journal entry.now) }
        ensures left { OnOk result (LeavesBeforeOrAfter D.disk self.old.journal self.new.journal entry.now) }
        ensures noted { OnOk result (self.new.unsettled ≡ noted self.old.unsettled entry.now) }
        ensures full { (len : ℕ) → IsErrOf result (AppendFault.Full len)
            → (len ≡ self.old.journal.len) × IsTooLong self.old.journal entry.now
            × (self.new.journal ≡ self.old.journal) }
        ensures memory { IsErrOf result AppendFault.Memory → self.new ≡ self.old }
        ensures failed { IsErrOf result AppendFault.DiskFault
            → HasFailed D.disk self.old.journal self.new.journal entry.now }
        ensures fits { IsErrOf result AppendFault.DiskFault → IsTooLong self.old.journal entry.now → ⊥ }
        ensures leaves { IsErrOf result AppendFault.DiskFault
            → LeavesBeforeOrAfter D.disk self.old.journal self.new.journal entry.now }
    {
        let place = note_intent(alloc, &mut self.unsettled, t, devices)?;
        match self.journal.append(alloc, entry) {
            Ok(()) => Ok(()),
            Err(fault) => {
                take_back(alloc, &mut self.unsettled, place);
                Err(fault)
            }
        }
    }

    // Appends another entry, which takes no memory, and notes what it says.
    fn append_short(&mut self, alloc: Global, entry: &Entry) -> Result<(), AppendFault>
        requires ready { IsReady D.disk self.old.journal }
        requires entry { IsEntry entry.now }
        requires short { is_intent entry.now ≡ false }
        ensures appended { OnOk result (HasAppended D.disk self.old.journal self.new.journal entry.now) }
        ensures left { OnOk result (LeavesBeforeOrAfter D.disk self.old.journal self.new.journal entry.now) }
        ensures noted { OnOk result (self.new.unsettled ≡ noted self.old.unsettled entry.now) }
        ensures full { (len : ℕ) → IsErrOf result (AppendFault.Full len)
            → (len ≡ self.old.journal.len) × IsTooLong self.old.journal entry.now
            × (self.new.journal ≡ self.old.journal) }
        ensures memory { IsErrOf result AppendFault.Memory → ⊥ }
        ensures failed { IsErrOf result AppendFault.DiskFault
            → HasFailed D.disk self.old.journal self.new.journal entry.now }
        ensures fits { IsErrOf result AppendFault.DiskFault → IsTooLong self.old.journal entry.now → ⊥ }
        ensures leaves { IsErrOf result AppendFault.DiskFault
            → LeavesBeforeOrAfter D.disk self.old.journal self.new.journal entry.now }
    {
        match self.journal.append(alloc, entry) {
            Ok(()) => {
                note_short(alloc, &mut self.unsettled, entry);
                Ok(())
            }
            Err(fault) => Err(fault),
        }
    }
}
