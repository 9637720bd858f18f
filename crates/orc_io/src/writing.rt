//! All of a piece into a sink.
ghost use Rattle.std.specs.Prelude.{OnOk, OnErr};
ghost use Rattle.std.specs.Io.KnownBytes.{Appends};
ghost use Rattle.orc_io.specs.Counts.{HasCause};
ghost use Rattle.orc_io.specs.Pieces.{TakesFront};

use crate::{Failed, Sink};

/// Writes all of a piece. After a failure the sink took a prefix of it.
pub fn write_whole<K: Sink>(sink: &mut K, bytes: &[u8]) -> Result<(), Failed>
    ensures ok { OnOk result (Appends (K.sink.held sink.old) (K.sink.held sink.new) bytes.now) }
    ensures err { OnErr result (TakesFront (K.sink.held sink.old) (K.sink.held sink.new) bytes.now) }
    ensures cause { HasCause (K.sink.faults sink.old) (K.sink.faults sink.new) result }
{
    let mut at = 0;
    while at < bytes.len() {
        at += sink.write_some(&bytes[at..])?;
    }
    Ok(())
}
