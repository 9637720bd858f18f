//! Reading one entry from the start of the bytes.
ghost use Rattle.std.specs.Prelude.{◌≡◌, [], ◌↔◌, ◌*◌, ◌<◌, length, IfOk, IsTrue, MatchOption};
ghost use Rattle.std.specs.List.Sorted.{IsStrictlyIncreasing};
ghost use Rattle.orc_journal.specs.inside.Fronts.{HasEntry, HasNoEntry, HasFrame, HasNoFrame, Says, SaysNothing, HasNumber, IsNoNumber, HasCount, HasCall, HasNoCall, HasDevices, HasNoDevices, AreNumbers};

use crate::Entry;
use crate::kind::{ABORT, DECIDE, INTENT, SETTLED};
use orc_call::{Call, CodecFault, decode};
use orc_text::{Memory, Row};
use std::alloc::Global;

// The number of a transaction.
fn number_at(bytes: &[u8]) -> Option<(u64, &[u8])>
    ensures { MatchOption result (length bytes.now < 8) (λ read. HasNumber bytes.now read.0 read.1.now) }
{
    if bytes.len() < 8 {
        return None;
    }
    let (front, rest) = bytes.split_at(8);
    let number = u64::from_be_bytes([
        front[0], front[1], front[2], front[3], front[4], front[5], front[6], front[7],
    ]);
    Some((number, rest))
}

// A call.
fn call_at(alloc: Global, bytes: &[u8]) -> Result<Option<(Call, &[u8])>, Memory>
    ensures { IfOk result (λ found.
        MatchOption found (HasNoCall bytes.now) (λ read. HasCall bytes.now read.0 read.1.now)) }
{
    match decode(alloc, bytes) {
        Ok((call, len)) => Ok(Some((call, &bytes[len..]))),
        Err(CodecFault::Bad { .. }) => Ok(None),
        Err(CodecFault::Memory) => Err(Memory),
    }
}

// So many numbers of two bytes each.
fn numbers_of(alloc: Global, count: u16, bytes: &[u8]) -> Result<Row<u32>, Memory>
    requires { length bytes.now ≡ 2 * count }
    ensures { IfOk result (AreNumbers bytes.now count) }
{
    let mut numbers = Row::new(alloc);
    let mut rest = bytes;
    for _ in 0..count {
        let (front, after) = rest.split_at(2);
        numbers.push(u32::from(u16::from_be_bytes([front[0], front[1]])))?;
        rest = after;
    }
    Ok(numbers)
}

// Whether each number is less than the next one.
fn is_ascending(numbers: &[u32]) -> bool
    ensures { IsTrue result ↔ IsStrictlyIncreasing numbers.now }
{
    for i in 1..numbers.len() {
        if numbers[i - 1] >= numbers[i] {
            return false;
        }
    }
    true
}

// How many numbers follow.
fn count_at(bytes: &[u8]) -> Option<(u16, &[u8])>
    ensures { MatchOption result (length bytes.now < 2) (λ read. HasCount bytes.now read.0 read.1.now) }
{
    if bytes.len() < 2 {
        return None;
    }
    let (front, rest) = bytes.split_at(2);
    Some((u16::from_be_bytes([front[0], front[1]]), rest))
}

// The numbers of devices, to the end of the bytes.
fn devices_of(alloc: Global, bytes: &[u8]) -> Result<Option<Row<u32>>, Memory>
    ensures { IfOk result (λ found. MatchOption found (HasNoDevices bytes.now) (HasDevices bytes.now)) }
{
    let Some((count, rest)) = count_at(bytes) else {
        return Ok(None);
    };
    if rest.len() != 2 * usize::from(count) {
        return Ok(None);
    }
    let devices = numbers_of(alloc, count, rest)?;
    if !is_ascending(devices.as_slice()) {
        return Ok(None);
    }
    Ok(Some(devices))
}

// The intent of this payload.
fn intent_of(alloc: Global, payload: &[u8]) -> Result<Option<Entry>, Memory>
    ensures { IfOk result (λ found. MatchOption found (SaysNothing INTENT payload.now) (Says INTENT payload.now)) }
{
    let Some((t, rest)) = number_at(payload) else {
        return Ok(None);
    };
    match call_at(alloc, rest)? {
        Some((call, rest)) => match devices_of(alloc, rest)? {
            Some(devices) => Ok(Some(Entry::Intent { t, call, devices })),
            None => Ok(None),
        },
        None => Ok(None),
    }
}

// The number of a transaction, to the end of the bytes.
fn only_number(payload: &[u8]) -> Option<u64>
    ensures { MatchOption result (IsNoNumber payload.now) (λ t. HasNumber payload.now t []) }
{
    let (t, rest) = number_at(payload)?;
    if rest.is_empty() { Some(t) } else { None }
}

// The entry of this kind and payload. It is no intent, and so it says no more than its number.
fn mark_of(kind: u8, payload: &[u8]) -> Option<Entry>
    requires { kind ≡ INTENT → ⊥ }
    ensures { MatchOption result (SaysNothing kind payload.now) (Says kind payload.now) }
{
    let t = only_number(payload)?;
    match kind {
        DECIDE => Some(Entry::Decide { t }),
        ABORT => Some(Entry::Abort { t }),
        SETTLED => Some(Entry::Settled { t }),
        _ => None,
    }
}

// The entry of this kind and payload.
fn entry_of(alloc: Global, kind: u8, payload: &[u8]) -> Result<Option<Entry>, Memory>
    ensures { IfOk result (λ found. MatchOption found (SaysNothing kind payload.now) (Says kind payload.now)) }
{
    if kind == INTENT {
        intent_of(alloc, payload)
    } else {
        Ok(mark_of(kind, payload))
    }
}

// The kind of an entry, and its payload.
fn frame_at(bytes: &[u8]) -> Option<(u8, &[u8], &[u8])>
    ensures { MatchOption result (HasNoFrame bytes.now) (λ read. HasFrame bytes.now read.0 read.1.now read.2.now) }
{
    if bytes.len() < 5 {
        return None;
    }
    let (front, rest) = bytes.split_at(5);
    let len = u32::from_be_bytes([front[1], front[2], front[3], front[4]]) as usize;
    if rest.len() < len {
        return None;
    }
    let (payload, rest) = rest.split_at(len);
    Some((front[0], payload, rest))
}

/// The entry that the bytes begin with, and what follows it.
pub(crate) fn entry_at(alloc: Global, bytes: &[u8]) -> Result<Option<(Entry, &[u8])>, Memory>
    ensures { IfOk result (λ found.
        MatchOption found (HasNoEntry bytes.now) (λ read. HasEntry bytes.now read.0 read.1.now)) }
{
    match frame_at(bytes) {
        Some((kind, payload, rest)) => match entry_of(alloc, kind, payload)? {
            Some(entry) => Ok(Some((entry, rest))),
            None => Ok(None),
        },
        None => Ok(None),
    }
}
