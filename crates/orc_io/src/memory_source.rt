//! A source over bytes in memory, which fails at chosen calls.
ghost use Rattle.std.specs.Prelude.{◌≡◌, ◌↔◌, length, min, IsErr, IfOk, OnErr, Contains, Some, take, drop, ◌++◌};
ghost use Rattle.std.specs.Io.{ReadsAtMost};
ghost use Rattle.std.specs.Io.KnownBytes.{ReadConsumes};
ghost use Rattle.orc_io.specs.Counts.{HasCause, next_count};
ghost use Rattle.orc_io.specs.Sources.{memory_source, read_failed, read_gave};

use crate::{Failed, Source};
use std::io::Read;
use std::marker::Model;

/// A source over bytes. It fails exactly at the listed calls, counted from 1, and else gives as many
/// bytes as are left and fit.
#[derive(Drop)]
pub struct MemSource {
    bytes: Vec<u8>,
    at: usize,
    fails: Vec<u64>,
    calls: u64,
    faults: u64,
}

impl Model for MemSource {
    ghost use Rattle.std.specs.Prelude.{drop, length, ◌≤◌};
    ghost use Rattle.orc_io.specs.Sources.{MemorySource};

    ghost Value = { MemorySource };

    ghost view = { λ s. record {
      left = drop s.at s.bytes.items;
      fails = s.fails.items;
      calls = s.calls;
      faults = s.faults;
    } };

    ghost invariant = { λ s. s.at ≤ length s.bytes.items };
}

impl MemSource {
    /// A source of all the bytes, at its first call.
    pub fn new(bytes: Vec<u8>, fails: Vec<u64>) -> MemSource
        ensures { result ≡ record { left = bytes.items; fails = fails.items; calls = 0; faults = 0 } }
    {
        MemSource {
            bytes,
            at: 0,
            fails,
            calls: 0,
            faults: 0,
        }
    }
}

impl Source for MemSource {
    ghost source = { memory_source };

    fn read_some(&mut self, buf: &mut [u8]) -> Result<usize, Failed>
        ensures bound { ReadsAtMost result buf.new }
        ensures bytes { ReadConsumes (memory_source.left self.old) (memory_source.left self.new) result buf.new }
        ensures cause { HasCause (memory_source.faults self.old) (memory_source.faults self.new) result }
        ensures exact { IsErr result ↔ Contains self.old.fails (next_count self.old.calls) }
        ensures count { IfOk result (λ n. n ≡ min (length buf.old) (length self.old.left)) }
        ensures buffer { IfOk result (λ n. buf.new ≡ take n self.old.left ++ drop n buf.old) }
        ensures ok { IfOk result (λ n. self.new ≡ read_gave self.old n) }
        ensures err { OnErr result (self.new ≡ read_failed self.old) }
    {
        self.calls = self.calls.saturating_add(1);
        if self.fails.contains(&self.calls) {
            self.faults = self.faults.saturating_add(1);
            return Err(Failed);
        }
        let mut rest = &self.bytes[self.at..];
        match rest.read(buf) {
            Ok(count) => {
                self.at += count;
                Ok(count)
            }
            Err(_) => unreachable!(),
        }
    }

    fn faults(&self) -> u64 {
        self.faults
    }
}
