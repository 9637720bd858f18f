//! A file in memory with its whole history, and the crash images that it gives.
ghost use Rattle.std.specs.Prelude.{◌≡◌, ◌+◌, ◌-◌, ◌*◌, ◌≤◌, ◌++◌, [], ◌∷◌, length, OnOk, IfOk, IsOk, Some, None, vec_len, vec_capacity};
ghost use Rattle.orc_disk.specs.Files.{written};
ghost use Rattle.orc_disk.specs.History.{content_of, synced_of, changed, IsImage};
ghost use Rattle.orc_disk.specs.declared.history.TheConstants.{CHANGE_ROOM};

use crate::tear::replayed;
use orc_text::Memory;
use std::alloc::{AllocError, Global};
use std::marker::Model;

// One change that was made: a write, whose bytes are kept apart, or a sync.
#[derive(Clone, Copy)]
pub(crate) enum Change {
    Write { at: usize, len: usize },
    Sync,
}

// The room that a change uses beside its bytes.
pub(crate) const CHANGE_ROOM: u64 = 64;

// A file, what it held at first and each change since. Its memory is taken when it is made.
#[derive(Drop)]
pub(crate) struct Kept {
    start: Vec<u8>,
    content: Vec<u8>,
    changes: Vec<Change>,
    store: Vec<u8>,
    room: u64,
}

impl Model for Kept {
    ghost use Rattle.std.specs.Prelude.{[]};
    ghost use Rattle.orc_disk.specs.History.{History};
    ghost use Rattle.orc_disk.specs.inside.Kept.{changes_of, IsStored, HasRoom};

    ghost Value = { History };

    ghost view = { λ kept. record {
      start = kept.start.items;
      changes = changes_of [] kept.changes.items kept.store.items;
      room = kept.room;
    } };

    ghost invariant = { λ kept.
        IsStored kept.start.items kept.content.items kept.changes.items kept.store.items
        × HasRoom kept.content kept.store kept.changes kept.room };
}

// Puts bytes at an offset, or at the end where the file is shorter, over what is there and past the
// end.
pub(crate) fn put(file: &mut Vec<u8>, at: usize, bytes: &[u8]) -> Result<(), AllocError>
    ensures ok { OnOk result (file.new.items ≡ written at bytes.now file.old.items) }
    ensures len { OnOk result (vec_len file.new ≤ vec_len file.old + length bytes.now) }
    ensures room { vec_len file.old + length bytes.now ≤ vec_capacity file.old → IsOk result }
    ensures capacity { vec_capacity file.old ≤ vec_capacity file.new }
{
    let at = at.min(file.len());
    let inside = bytes.len().min(file.len() - at);
    file[at..at + inside].copy_from_slice(&bytes[..inside]);
    file.extend_from_slice(&bytes[inside..])
}

// Puts bytes as `put` does, where there is memory for them.
fn put_within(file: &mut Vec<u8>, at: usize, bytes: &[u8])
    requires { vec_len file.old + length bytes.now ≤ vec_capacity file.old }
    ensures items { file.new.items ≡ written at bytes.now file.old.items }
    ensures len { vec_len file.new ≤ vec_len file.old + length bytes.now }
    ensures capacity { vec_capacity file.old ≤ vec_capacity file.new }
{
    match put(file, at, bytes) {
        Ok(()) => {}
        Err(_) => unreachable!(),
    }
}

// Adds a change where there is memory for it.
fn push_within(changes: &mut Vec<Change>, change: Change)
    requires { vec_len changes.old + 1 ≤ vec_capacity changes.old }
    ensures items { changes.new.items ≡ changes.old.items ++ change ∷ [] }
    ensures len { vec_len changes.new ≡ vec_len changes.old + 1 }
    ensures capacity { vec_capacity changes.old ≤ vec_capacity changes.new }
{
    match changes.push(change) {
        Ok(()) => {}
        Err(_) => unreachable!(),
    }
}

// Adds bytes where there is memory for them.
fn extend_within(store: &mut Vec<u8>, bytes: &[u8])
    requires { vec_len store.old + length bytes.now ≤ vec_capacity store.old }
    ensures items { store.new.items ≡ store.old.items ++ bytes.now }
    ensures len { vec_len store.new ≡ vec_len store.old + length bytes.now }
    ensures capacity { vec_capacity store.old ≤ vec_capacity store.new }
{
    match store.extend_from_slice(bytes) {
        Ok(()) => {}
        Err(_) => unreachable!(),
    }
}

impl Kept {
    // A file of these bytes that no change was made to, with memory for changes that use this room.
    pub(crate) fn new(alloc: Global, bytes: Vec<u8>, room: u64) -> Result<Kept, Memory>
        ensures { IfOk result (λ k. k ≡ record { start = bytes.items; changes = []; room = room }) }
    {
        let room_len = usize::try_from(room).map_err(|_| Memory)?;
        let content_len = bytes.len().checked_add(room_len).ok_or(Memory)?;
        let mut content = Vec::with_capacity(alloc, content_len)?;
        content.extend_from_slice(&bytes)?;
        let changes = Vec::with_capacity(alloc, room_len / (CHANGE_ROOM as usize) + 1)?;
        let store = Vec::with_capacity(alloc, room_len)?;
        Ok(Kept {
            start: bytes,
            content,
            changes,
            store,
            room,
        })
    }

    // What a read gives.
    pub(crate) fn content(&self) -> &[u8]
        ensures { result.now ≡ content_of self.now.start self.now.changes }
    {
        self.content.as_slice()
    }

    // The room that is left.
    pub(crate) fn room(&self) -> u64
        ensures { result ≡ self.now.room }
    {
        self.room
    }

    // Writes at an offset. It uses the bytes and 64 of the room.
    pub(crate) fn write(&mut self, at: usize, bytes: &[u8])
        requires inside { at ≤ length (content_of self.old.start self.old.changes) }
        requires room { length bytes.now + CHANGE_ROOM ≤ self.old.room }
        ensures { self.new ≡ changed self.old (Some (at, bytes.now)) (length bytes.now + CHANGE_ROOM) }
    {
        put_within(&mut self.content, at, bytes);
        extend_within(&mut self.store, bytes);
        let len = bytes.len();
        push_within(&mut self.changes, Change::Write { at, len });
        self.room -= bytes.len() as u64 + CHANGE_ROOM;
    }

    // Syncs. It uses 64 of the room.
    pub(crate) fn sync(&mut self)
        requires room { CHANGE_ROOM ≤ self.old.room }
        ensures { self.new ≡ changed self.old None CHANGE_ROOM }
    {
        push_within(&mut self.changes, Change::Sync);
        self.room -= CHANGE_ROOM;
    }

    // One file that a crash now may leave, by choice. With 0 no write since the last sync outlives
    // it, and with 3 each does. With others parts of these writes do, or other bytes in their
    // ranges, or more bytes after the end.
    pub(crate) fn image(&self, alloc: Global, choice: u64) -> Result<Vec<u8>, Memory>
        ensures image { IfOk result (λ image. IsImage self.now.start self.now.changes image.items) }
        ensures none { choice ≡ 0 → IfOk result (λ image. image.items ≡ synced_of self.now.start self.now.changes) }
        ensures all { choice ≡ 3 → IfOk result (λ image. image.items ≡ content_of self.now.start self.now.changes) }
    {
        let image = replayed(alloc, &self.start, &self.changes, &self.store, choice)?;
        Ok(image)
    }
}
