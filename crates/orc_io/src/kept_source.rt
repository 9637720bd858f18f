//! A source that keeps what it gave.
ghost use Rattle.std.specs.Prelude.{◌≡◌, [], true, IfOk, OnErr, take};
ghost use Rattle.std.specs.Io.{ReadsAtMost};
ghost use Rattle.std.specs.Io.KnownBytes.{ReadConsumes};
ghost use Rattle.orc_io.specs.Counts.{HasCause};
ghost use Rattle.orc_io.specs.Sources.{keeping_source, Keeps};

use crate::{Failed, Source};
use std::alloc::Global;
use std::marker::Model;

/// A source over another one, which keeps the bytes that it gave, so that they can be looked at once they were read. As
/// soon as memory runs out, it keeps no more: what it kept is then a prefix of what it gave, and `is_all` says so.
#[derive(Drop)]
pub struct KeptSource<S: Source> {
    inner: S,
    kept: Vec<u8>,
    is_all: bool,
}

impl<S: Source> Model for KeptSource<S> {
    ghost use Rattle.orc_io.specs.Sources.{KeepingSource};

    ghost Value = { KeepingSource };

    ghost view = { λ s. record {
      left = S.source.left s.inner;
      faults = S.source.faults s.inner;
      kept = s.kept.items;
      is_all = s.is_all;
    } };
}

impl<S: Source> KeptSource<S> {
    /// A source of what the other one has left, which keeps nothing yet.
    pub fn new(alloc: Global, inner: S) -> KeptSource<S>
        ensures { result ≡ record {
          left = S.source.left inner;
          faults = S.source.faults inner;
          kept = [];
          is_all = true;
        } }
    {
        KeptSource {
            inner,
            kept: Vec::new(alloc),
            is_all: true,
        }
    }

    /// The bytes kept.
    pub fn kept(&self) -> &[u8]
        ensures { result.now ≡ self.now.kept }
    {
        self.kept.as_slice()
    }

    /// Whether these are all the bytes that it gave, since memory never ran out.
    pub fn is_all(&self) -> bool
        ensures { result ≡ self.now.is_all }
    {
        self.is_all
    }
}

impl<S: Source> Source for KeptSource<S> {
    ghost source = { keeping_source };

    fn read_some(&mut self, buf: &mut [u8]) -> Result<usize, Failed>
        ensures bound { ReadsAtMost result buf.new }
        ensures bytes { ReadConsumes (keeping_source.left self.old) (keeping_source.left self.new) result buf.new }
        ensures cause { HasCause (keeping_source.faults self.old) (keeping_source.faults self.new) result }
        ensures kept { IfOk result (λ n. Keeps self.old self.new (take n buf.new)) }
        ensures still { OnErr result (Keeps self.old self.new []) }
    {
        let count = self.inner.read_some(buf)?;
        if self.is_all && count > 0 {
            self.is_all = self.kept.extend_from_slice(&buf[..count]).is_ok();
        }
        Ok(count)
    }

    fn faults(&self) -> u64 {
        self.inner.faults()
    }
}
