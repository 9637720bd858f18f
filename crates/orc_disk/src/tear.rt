//! Crash images of a file, made from its history by choice.
ghost use Rattle.std.specs.Prelude.{◌≡◌, ◌≤◌, ◌++◌, ◌∷◌, [], length, OnOk, IfOk};
ghost use Rattle.orc_disk.specs.Files.{written};
ghost use Rattle.orc_disk.specs.Torn.{Torn};
ghost use Rattle.orc_disk.specs.History.{file_after, settled, content_of, synced_of, Leaves, IsImage};
ghost use Rattle.orc_disk.specs.inside.Kept.{changes_of, change_of, written_count};

use crate::history::{Change, put};
use std::alloc::{AllocError, Global};

// How many bytes of another value stand in a torn range at most.
const FILL_LEN: usize = 16;

// Puts bytes, which tears no more than their range.
fn put_range(file: &mut Vec<u8>, at: usize, bytes: &[u8]) -> Result<(), AllocError>
    ensures torn { OnOk result (Torn at (length bytes.now) file.old.items file.new.items) }
    ensures put { OnOk result (file.new.items ≡ written at bytes.now file.old.items) }
{
    put(file, at, bytes)
}

// Adds bytes after the end.
fn lengthen(file: &mut Vec<u8>, bytes: &[u8]) -> Result<(), AllocError>
    ensures { OnOk result (file.new.items ≡ file.old.items ++ bytes.now) }
{
    file.extend_from_slice(bytes)
}

// Puts a part of a write, or the whole with more. The last two bits of `choice` say how: a prefix of
// it; a prefix of it and other bytes after that; the whole with other bytes over its start; the whole
// with other bytes after the end of the file. The next four bits say how much, and all but the last two
// which other byte.
fn tear_apart(file: &mut Vec<u8>, at: usize, bytes: &[u8], choice: u64) -> Result<(), AllocError>
    ensures { OnOk result (Torn at (length bytes.now) file.old.items file.new.items) }
{
    let part = (choice / 4 % 16) as usize;
    let kept = (bytes.len() / 16 + 1).saturating_mul(part).min(bytes.len());
    let fill = [((choice / 4 + 1) % 256) as u8; FILL_LEN];
    match choice % 4 {
        0 => put_range(file, at, &bytes[..kept]),
        1 => {
            put_range(file, at, &bytes[..kept])?;
            let count = (bytes.len() - kept).min(FILL_LEN);
            put_range(file, at.saturating_add(kept), &fill[..count])
        }
        2 => {
            put_range(file, at, bytes)?;
            put_range(file, at, &fill[..kept.min(FILL_LEN)])
        }
        _ => {
            put_range(file, at, bytes)?;
            lengthen(file, &fill[..part])
        }
    }
}

// Puts a write as a crash may leave it: not at all with the choice 0, whole with the choice 3.
fn tear(file: &mut Vec<u8>, at: usize, bytes: &[u8], choice: u64) -> Result<(), AllocError>
    ensures torn { OnOk result (Torn at (length bytes.now) file.old.items file.new.items) }
    ensures none { choice ≡ 0 → OnOk result (file.new.items ≡ file.old.items) }
    ensures all { choice ≡ 3 → OnOk result (file.new.items ≡ written at bytes.now file.old.items) }
{
    match choice {
        0 => Ok(()),
        3 => put_range(file, at, bytes),
        _ => tear_apart(file, at, bytes, choice),
    }
}

// Makes one change in a whole file and in a torn one. After a sync the torn file is the
// whole one.
fn step(
    whole: &mut Vec<u8>,
    torn: &mut Vec<u8>,
    change: Change,
    store: &[u8],
    choice: u64,
) -> Result<(), AllocError>
    requires { written_count (change ∷ []) ≤ length store.now }
    ensures whole { OnOk result (whole.new.items ≡ file_after (change_of change store.now) whole.old.items) }
    ensures torn { OnOk result (Leaves (change_of change store.now) whole.old.items torn.old.items torn.new.items) }
    ensures none { choice ≡ 0 → OnOk result
        (torn.new.items ≡ settled (change_of change store.now) whole.old.items torn.old.items) }
    ensures all { choice ≡ 3 → torn.old.items ≡ whole.old.items → OnOk result (torn.new.items ≡ whole.new.items) }
{
    match change {
        Change::Write { at, len } => {
            put(whole, at, &store[..len])?;
            tear(torn, at, &store[..len], choice)
        }
        Change::Sync => {
            torn.clear();
            torn.extend_from_slice(whole)
        }
    }
}

// How many bytes a change wrote.
fn count(change: Change) -> usize
    ensures { result ≡ written_count (change ∷ []) }
{
    match change {
        Change::Write { len, .. } => len,
        Change::Sync => 0,
    }
}

// What a crash after these changes leaves of a file by choice: none of the writes since the last sync
// with the choice 0, all of them with the choice 3.
pub(crate) fn replayed(
    alloc: Global,
    start: &[u8],
    changes: &[Change],
    store: &[u8],
    choice: u64,
) -> Result<Vec<u8>, AllocError>
    requires { written_count changes.now ≡ length store.now }
    ensures image { IfOk result (λ image. IsImage start.now (changes_of [] changes.now store.now) image.items) }
    ensures none { choice ≡ 0 → IfOk result
        (λ image. image.items ≡ synced_of start.now (changes_of [] changes.now store.now)) }
    ensures all { choice ≡ 3 → IfOk result
        (λ image. image.items ≡ content_of start.now (changes_of [] changes.now store.now)) }
{
    let mut whole = start.to_vec(alloc)?;
    let mut torn = start.to_vec(alloc)?;
    let mut from = 0;
    for change in changes {
        step(&mut whole, &mut torn, *change, &store[from..], choice)?;
        from += count(*change);
    }
    Ok(torn)
}
