//! A sink of bounded room in memory, which fails at chosen calls.
ghost use Rattle.std.specs.Prelude.{◌≡◌, ◌<◌, ◌↔◌, ◌⊎◌, [], length, IsErr, IfOk, OnErr, OnOk, Contains, Some};
ghost use Rattle.std.specs.Io.{WritesAtMost};
ghost use Rattle.std.specs.Io.KnownBytes.{WriteAppends};
ghost use Rattle.orc_io.specs.Counts.{HasCause, next_count};
ghost use Rattle.orc_io.specs.Sinks.{memory_sink, write_failed, write_took};

use crate::{Failed, Sink};
use orc_text::Memory;
use std::alloc::Global;
use std::marker::Model;

/// A sink with room for so many bytes. It takes a piece whole. It fails exactly at the listed calls,
/// counted from 1, and where a piece is longer than the room that is left. After it is made it takes
/// no memory.
#[derive(Drop)]
pub struct MemSink {
    bytes: Vec<u8>,
    room: usize,
    fails: Vec<u64>,
    calls: u64,
    faults: u64,
}

impl Model for MemSink {
    ghost use Rattle.std.specs.Prelude.{◌≤◌, ◌+◌, vec_len, vec_capacity};
    ghost use Rattle.orc_io.specs.Sinks.{MemorySink};

    ghost Value = { MemorySink };

    ghost view = { λ s. record {
      held = s.bytes.items;
      room = s.room;
      fails = s.fails.items;
      calls = s.calls;
      faults = s.faults;
    } };

    ghost invariant = { λ s. vec_len s.bytes + s.room ≤ vec_capacity s.bytes };
}

impl MemSink {
    /// An empty sink with room for so many bytes, at its first call.
    pub fn new(alloc: Global, room: usize, fails: Vec<u64>) -> Result<MemSink, Memory>
        ensures { IfOk result (λ sink. sink ≡ record {
          held = [];
          room = room;
          fails = fails.items;
          calls = 0;
          faults = 0;
        }) }
    {
        Ok(MemSink {
            bytes: Vec::with_capacity(alloc, room)?,
            room,
            fails,
            calls: 0,
            faults: 0,
        })
    }

    /// The bytes that the sink took.
    pub fn bytes(&self) -> &[u8]
        ensures { result.now ≡ self.now.held }
    {
        self.bytes.as_slice()
    }
}

impl Sink for MemSink {
    ghost sink = { memory_sink };

    fn write_some(&mut self, bytes: &[u8]) -> Result<usize, Failed>
        ensures bound { WritesAtMost result bytes.now }
        ensures progress { IfOk result (λ n. 0 < length bytes.now → 0 < n) }
        ensures bytes { WriteAppends (memory_sink.held self.old) (memory_sink.held self.new) result bytes.now }
        ensures cause { HasCause (memory_sink.faults self.old) (memory_sink.faults self.new) result }
        ensures exact { IsErr result
            ↔ (Contains self.old.fails (next_count self.old.calls) ⊎ (self.old.room < length bytes.now)) }
        ensures whole { IfOk result (λ n. n ≡ length bytes.now) }
        ensures ok { OnOk result (self.new ≡ write_took self.old bytes.now) }
        ensures err { OnErr result (self.new ≡ write_failed self.old) }
    {
        self.calls = self.calls.saturating_add(1);
        if self.fails.contains(&self.calls) || self.room < bytes.len() {
            self.faults = self.faults.saturating_add(1);
            return Err(Failed);
        }
        match self.bytes.extend_from_slice(bytes) {
            Ok(()) => {
                self.room -= bytes.len();
                Ok(bytes.len())
            }
            Err(_) => unreachable!(),
        }
    }

    fn faults(&self) -> u64 {
        self.faults
    }
}
