//! What a source and a sink of bytes promise.
ghost use Rattle.std.specs.Prelude.{◌≡◌, ◌<◌, length, IfOk};
ghost use Rattle.std.specs.Io.{ReadsAtMost, WritesAtMost};
ghost use Rattle.std.specs.Io.KnownBytes.{ReadConsumes, WriteAppends};
ghost use Rattle.orc_io.specs.Counts.{HasCause};
ghost use Rattle.orc_io.specs.Meanings.{SourceMeaning, SinkMeaning};

/// A call failed, and the count of faults of its object rose.
#[derive(Clone, Copy, Debug, PartialEq, Eq)]
pub struct Failed;

/// Where bytes come from. It may report the bytes that it has left.
pub trait Source: Drop {
    /// What the source reports about itself: the bytes left, and how often it failed.
    ghost source: { SourceMeaning Self };

    /// Reads some bytes to the beginning of a buffer, and answers how many. Zero for a buffer with
    /// room is the end of input. A call that fails takes nothing from the source.
    fn read_some(&mut self, buf: &mut [u8]) -> Result<usize, Failed>
        ensures bound { ReadsAtMost result buf.new }
        ensures bytes { ReadConsumes (source.left self.old) (source.left self.new) result buf.new }
        ensures cause { HasCause (source.faults self.old) (source.faults self.new) result };

    /// How often the source failed. At its last value the count stays.
    fn faults(&self) -> u64
        ensures { result ≡ source.faults self.now };
}

/// Where bytes go. It may report the bytes that it holds.
pub trait Sink: Drop {
    /// What the sink reports about itself: the bytes held, and how often it failed.
    ghost sink: { SinkMeaning Self };

    /// Takes the first bytes of a piece, at least one where there is one, and answers how many. A
    /// call that fails takes none.
    fn write_some(&mut self, bytes: &[u8]) -> Result<usize, Failed>
        ensures bound { WritesAtMost result bytes.now }
        ensures progress { IfOk result (λ n. 0 < length bytes.now → 0 < n) }
        ensures bytes { WriteAppends (sink.held self.old) (sink.held self.new) result bytes.now }
        ensures cause { HasCause (sink.faults self.old) (sink.faults self.new) result };

    /// How often the sink failed. At its last value the count stays.
    fn faults(&self) -> u64
        ensures { result ≡ sink.faults self.now };
}
