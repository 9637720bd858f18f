//! Calls: lines that make a call, an action a line, and then spell its encoding, a field a line.
//!
//! - `call CALLER NUMBER`: the call has no action yet, and no field of it is spelled
//! - `create SERVICE | ITEM | ITEM`, `modify SERVICE | ITEM`, `redeploy SERVICE`, `delete NAME`,
//!   `literal NAME | DEVICE ITEM`, `set ITEM`, `unset PATH`, `base DEVICE ITEM`,
//!   `unbase DEVICE PATH`: it has this action more
//! - `deletes N`: it has N actions more
//! - `field BYTES | BYTES | BYTES`: the next field. Bytes that end before it or within it, and those
//!   that have the others in its place, are refused with the offset at which it begins
//! - `spelled N`: the fields are the encoding, of N bytes, and `again` holds
//! - `again`: the call is encoded, counted, copied, and read back, whatever follows
//! - `none`: the call has no encoding

mod actions;

use crate::calls::actions::action_of;
use crate::line::{first_word, hex_of};
use crate::table::Table;
use crate::undone::Undone;
use orc_call::{Call, CodecFault, decode, encode, encoded_len, is_encodable};
use orc_text::{Row, Text};
use std::alloc::Global;

/// A call, and the fields that are spelled.
#[derive(Drop)]
pub(crate) struct Calls {
    alloc: Global,
    call: Call,
    fields: Vec<u8>,
}

impl Table for Calls {
    fn take(&mut self, line: &str) -> Result<bool, Undone> {
        let (word, rest) = first_word(line);
        match word {
            "call" => self.begin(rest),
            "deletes" => self.delete_many(rest),
            "field" => self.spell(rest),
            "spelled" => self.is_spelled(rest),
            "again" => self.is_read_again(),
            "none" => Ok(!is_encodable(&self.call)),
            _ => self.act(word, rest),
        }
    }
}

impl Calls {
    /// A call without anything.
    pub(crate) fn new(alloc: Global) -> Calls {
        Calls {
            alloc,
            call: empty_call(alloc),
            fields: Vec::new(alloc),
        }
    }

    // Adds an action.
    fn act(&mut self, word: &str, rest: &str) -> Result<bool, Undone> {
        let action = action_of(self.alloc, word, rest)?;
        self.call.actions.push(action)?;
        Ok(true)
    }

    // Begins a call, as `CALLER NUMBER`.
    fn begin(&mut self, rest: &str) -> Result<bool, Undone> {
        let (caller, number) = first_word(rest);
        self.call = Call {
            caller: Text::from_str(self.alloc, caller)?,
            number: number.parse()?,
            actions: Row::new(self.alloc),
        };
        self.fields = Vec::new(self.alloc);
        Ok(true)
    }

    // Adds so many actions.
    fn delete_many(&mut self, count: &str) -> Result<bool, Undone> {
        let count: u64 = count.parse()?;
        for _ in 0..count {
            self.act("delete", "a")?;
        }
        Ok(true)
    }

    // Spells the next field, and says whether what is unlawful in its place is refused there.
    fn spell(&mut self, rest: &str) -> Result<bool, Undone> {
        let (field, unlawful) = rest.split_once(" | ").unwrap_or((rest, ""));
        let field = hex_of(self.alloc, field)?;
        let refused = self.are_refused(unlawful)? && self.is_refused_cut(field.as_slice())?;
        self.fields.extend_from_slice(field.as_slice())?;
        Ok(refused)
    }

    // Whether each of these bytes is refused after the fields.
    fn are_refused(&self, unlawful: &str) -> Result<bool, Undone> {
        for bytes in unlawful.split(" | ") {
            let bytes = hex_of(self.alloc, bytes)?;
            if !self.is_refused_with(bytes.as_slice())? {
                return Ok(false);
            }
        }
        Ok(true)
    }

    // Whether the field is refused where it is cut, at each place.
    fn is_refused_cut(&self, field: &[u8]) -> Result<bool, Undone> {
        for len in 0..field.len() {
            if !self.is_refused_with(&field[..len])? {
                return Ok(false);
            }
        }
        Ok(true)
    }

    // Whether the fields with these bytes after them are refused where the fields end.
    fn is_refused_with(&self, bytes: &[u8]) -> Result<bool, Undone> {
        let mut all = Vec::from_slice(self.alloc, self.fields.as_slice())?;
        all.extend_from_slice(bytes)?;
        match decode(self.alloc, all.as_slice()) {
            Err(CodecFault::Bad { at }) => Ok(at == self.fields.len() as u64),
            _ => Ok(false),
        }
    }

    // Whether the fields are the encoding of the call, of so many bytes.
    fn is_spelled(&self, len: &str) -> Result<bool, Undone> {
        let len: usize = len.parse()?;
        let encoded = encoded(self.alloc, &self.call)?;
        if encoded.as_slice() != self.fields.as_slice() || encoded.len() != len {
            return Ok(false);
        }
        self.is_read_again()
    }

    // Whether the encoding of the call is as long as counted, and is read back as a copy of it.
    fn is_read_again(&self) -> Result<bool, Undone> {
        let mut bytes = encoded(self.alloc, &self.call)?;
        let len = bytes.len();
        bytes.push(0xff)?;
        let copy = self.call.copy(self.alloc)?;
        if copy != self.call || encoded_len(&copy) != len as u64 {
            return Ok(false);
        }
        Ok(is_read(self.alloc, bytes.as_slice(), &copy, len))
    }
}

// The encoding of a call that has one.
fn encoded(alloc: Global, call: &Call) -> Result<Vec<u8>, Undone> {
    if !is_encodable(call) {
        return Err(Undone);
    }
    Ok(encode(alloc, call)?)
}

// Whether a call is read of bytes, and so many of them.
fn is_read(alloc: Global, bytes: &[u8], call: &Call, len: usize) -> bool {
    match decode(alloc, bytes) {
        Ok((read, front)) => read == *call && front == len,
        Err(_) => false,
    }
}

// A call without caller, number or action.
fn empty_call(alloc: Global) -> Call {
    Call {
        caller: Text::new(alloc),
        number: 0,
        actions: Row::new(alloc),
    }
}
