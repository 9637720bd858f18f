//! Decoding a call.
ghost use Rattle.std.specs.Prelude.{◌≡◌, ◌++◌, ℕ, List, length, IfOk, IfErr, IsErrOf, MatchResult};
ghost use Rattle.orc_call.specs.Encoding.{IsCall, HasEncoding, call_bytes, call_fields};
ghost use Rattle.orc_call.specs.Faults.{IsCodecFault};
ghost use Rattle.orc_call.specs.inside.Reading.{ReadsFront, any};
ghost use Rattle.orc_call.specs.Fields.{HasSomeText};

use crate::actions::actions_at;
use crate::fields::{Stuck, action_count_at, number_at, text_at};
use crate::{Call, CodecFault};
use std::alloc::Global;

// A call.
fn call_at(alloc: Global, bytes: &[u8]) -> Result<(Call, &[u8]), Stuck>
    ensures reads { ReadsFront (any call_fields) bytes.now result }
    ensures memory { IsErrOf result Stuck.Memory → HasSomeText bytes.now }
{
    let (caller, rest) = text_at(alloc, bytes)?;
    let (number, rest) = number_at(rest)?;
    let (count, rest) = action_count_at(rest)?;
    let (actions, rest) = actions_at(alloc, count, rest)?;
    Ok((
        Call {
            caller,
            number,
            actions,
        },
        rest,
    ))
}

/// The call whose encoding the bytes begin with, and how many bytes it has. Any bytes may follow.
///
/// `Bad { at }` comes exactly where no encoding begins the bytes; `at` is then the offset of the
/// first field that isn't there whole or has no lawful value. A field is a text, a number, a
/// count, the byte of an action's kind, a path, or an item with its text. Memory runs out only where
/// the caller's text stands whole at the start.
pub fn decode(alloc: Global, bytes: &[u8]) -> Result<(Call, usize), CodecFault>
    ensures found { IfOk result (λ read. HasEncoding bytes.now read.0 read.1) }
    // What is encoded is decoded again, whatever follows, unless memory runs out.
    ensures again { (call : Call) (rest : List ℕ) → IsCall call → bytes.now ≡ call_bytes call ++ rest
        → MatchResult result (λ read. (read.0 ≡ call) × (read.1 ≡ length (call_bytes call)))
        (λ fault. fault ≡ CodecFault.Memory) }
    ensures bad { IfErr result (IsCodecFault bytes.now) }
{
    match call_at(alloc, bytes) {
        Ok((call, rest)) => Ok((call, bytes.len() - rest.len())),
        Err(Stuck::Bad { left }) => Err(CodecFault::Bad {
            at: (bytes.len() - left) as u64,
        }),
        Err(Stuck::Memory) => Err(CodecFault::Memory),
    }
}
