//! The members of a JSON text that stand twice in one object, of which the last one counts.
use crate::quoted::text_of;
use orc_text::{Memory, Row, Text};
use serde_json::Value;
use std::alloc::Global;
use std::collections::BTreeMap;

// How far the objects of a text are read.
#[derive(Drop)]
struct Scan {
    // the numbers of the objects that are open
    open: Vec<u64>,
    // how many were opened
    count: u64,
    // the names that were read, after the number of their object
    names: BTreeMap<Text, bool>,
    // those that stand twice
    repeated: Row<Text>,
}

/// The names of the members that stand twice, or more often, in one object of a JSON text; at each of them but the
/// first.
pub(crate) fn repeated_members(alloc: Global, text: &[u8]) -> Result<Row<Text>, Memory> {
    let mut scan = Scan {
        open: Vec::new(alloc),
        count: 0,
        names: BTreeMap::new(alloc),
        repeated: Row::new(alloc),
    };
    // where the string begins that is read, or that was read last
    let mut begun: usize = 0;
    let mut ended: usize = 0;
    let mut is_inside = false;
    let mut is_escaped = false;
    for (at, byte) in text.iter().enumerate() {
        if is_inside {
            if is_escaped {
                is_escaped = false;
            } else if *byte == b'\\' {
                is_escaped = true;
            } else if *byte == b'"' {
                is_inside = false;
                ended = at.saturating_add(1);
            }
        } else if *byte == b'"' {
            is_inside = true;
            begun = at;
        } else {
            scan.take(alloc, *byte, text, begun, ended)?;
        }
    }
    Ok(scan.repeated)
}

impl Scan {
    // Takes a byte of a text outside of strings, after the string between these places.
    fn take(
        &mut self,
        alloc: Global,
        byte: u8,
        text: &[u8],
        begun: usize,
        ended: usize,
    ) -> Result<(), Memory> {
        match byte {
            b'{' => self.open_object()?,
            b'}' => {
                let _ = self.open.pop();
            }
            b':' => self.add(alloc, string_between(text, begun, ended))?,
            _ => {}
        }
        Ok(())
    }

    // Opens an object.
    fn open_object(&mut self) -> Result<(), Memory> {
        self.count = self.count.saturating_add(1);
        self.open.push(self.count)?;
        Ok(())
    }

    // Adds a member of the innermost object.
    fn add(&mut self, alloc: Global, string: &str) -> Result<(), Memory> {
        let number = match self.open.as_slice() {
            [.., last] => *last,
            [] => 0,
        };
        let Some(name) = named(alloc, string)? else {
            return Ok(());
        };
        let shown = name.as_str();
        let key = Text::from_string(format!(in alloc; "{number} {shown}")?);
        if self.names.contains_key(&key) {
            self.repeated.push(name)?;
            return Ok(());
        }
        match self.names.insert(key, true) {
            Ok(_) => Ok(()),
            Err(_) => Err(Memory),
        }
    }
}

// The text of a JSON string.
fn named(alloc: Global, string: &str) -> Result<Option<Text>, Memory> {
    match Value::from_slice(alloc, string.as_bytes()) {
        Ok(Value::String(text)) => Ok(Some(Text::from_string(text))),
        Ok(_) => Ok(None),
        Err(error) => match error.is_memory() {
            true => Err(Memory),
            false => Ok(None),
        },
    }
}

// The string between two places.
fn string_between(text: &[u8], begun: usize, ended: usize) -> &str {
    let front = text.get(..ended).unwrap_or(text);
    text_of(front.get(begun..).unwrap_or(&[]))
}
