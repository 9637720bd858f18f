//! The devices and calls of a run's notes by their names, for a line on standard error.
use crate::notes::{Notes, OpenCall, OutOfStep};
use orc_call::Why;
use orc_text::{Memory, Text};
use std::alloc::Global;

// The most devices, or calls, that are named.
const MOST_NAMED: usize = 16;

impl Notes {
    /// The names of the devices that are out of step, each with its cause in brackets as an answer `OutOfSync` prints it: the
    /// first sixteen, and how many more there are. The empty text where there are none.
    pub fn devices_named(&self, alloc: Global) -> Result<Text, Memory> {
        let devices = self.out_of_step.as_slice();
        let mut out = String::new(alloc);
        for (place, it) in devices.iter().take(MOST_NAMED).enumerate() {
            push_comma(&mut out, place)?;
            push_device(&mut out, alloc, it)?;
        }
        push_rest(&mut out, alloc, devices.len())?;
        Ok(Text::from_string(out))
    }

    /// The calls without an answer, by caller and number, likewise.
    pub fn calls_named(&self, alloc: Global) -> Result<Text, Memory> {
        let calls = self.open_calls.as_slice();
        let mut out = String::new(alloc);
        for (place, it) in calls.iter().take(MOST_NAMED).enumerate() {
            push_comma(&mut out, place)?;
            push_call(&mut out, alloc, it)?;
        }
        push_rest(&mut out, alloc, calls.len())?;
        Ok(Text::from_string(out))
    }
}

// Adds a device with its cause.
fn push_device(out: &mut String, alloc: Global, it: &OutOfStep) -> Result<(), Memory> {
    out.push_str(it.device.as_str())?;
    match it.why {
        Why::Fault(count) => push_number(out, alloc, " (fault ", count)?,
        Why::Gone(t) => push_number(out, alloc, " (gone ", t)?,
        Why::Recovered => out.push_str(" (recovered")?,
    }
    out.push_str(")")?;
    Ok(())
}

// Adds a call by its caller and its number.
fn push_call(out: &mut String, alloc: Global, it: &OpenCall) -> Result<(), Memory> {
    out.push_str(it.caller.as_str())?;
    push_number(out, alloc, " ", it.number)
}

// Adds words and a number.
fn push_number(out: &mut String, alloc: Global, words: &str, number: u64) -> Result<(), Memory> {
    out.push_str(words)?;
    out.push_str(number.to_string(alloc)?.as_str())?;
    Ok(())
}

// Adds what parts the one at this place from the one before.
fn push_comma(out: &mut String, place: usize) -> Result<(), Memory> {
    if place > 0 {
        out.push_str(", ")?;
    }
    Ok(())
}

// Adds how many of so many aren't named.
fn push_rest(out: &mut String, alloc: Global, count: usize) -> Result<(), Memory> {
    let rest = count.saturating_sub(MOST_NAMED) as u64;
    if rest > 0 {
        push_number(out, alloc, " and ", rest)?;
        out.push_str(" more")?;
    }
    Ok(())
}
