//! The faults that no example of a folder can show: out of memory, and a journal of more than 268 million bytes.

use orc_run::{Stop, file_tells_one_history, status};
use std::io;

/// Prints what they are called and the status of each, and says whether it is as it must be.
pub(crate) fn faults<R: Print + AllocGlobal>(rt: &R) -> io::Result<bool> {
    file_tells_one_history();
    let memory = is_fault(rt, Stop::Memory, 6, "Memory")?;
    let full = is_fault(rt, Stop::Full { len: 35 }, 8, "Full 35")?;
    Ok(memory && full)
}

// Prints what a fault is called and its status, and says whether they are these.
fn is_fault<R: Print + AllocGlobal>(rt: &R, stop: Stop, code: u8, name: &str) -> io::Result<bool> {
    let printed = stop.to_string(rt.alloc())?;
    let code_is = status(&Err(stop));
    println!(rt; "{printed}: status {code_is}")?;
    Ok(printed.as_str() == name && code_is == code)
}
