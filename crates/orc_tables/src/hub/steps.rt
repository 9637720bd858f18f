//! The operations on the devices of a hub, one by one.

use crate::hub::kept::Kept;
use crate::line::{first_word, parted};
use crate::operations::{is_op, reply_of};
use crate::undone::Undone;
use orc_text::Text;
use std::alloc::Global;

/// The number of the device of a name.
pub(crate) fn device_of(alloc: Global, hub: &Kept, name: &str) -> Result<u32, Undone> {
    let name = Text::from_str(alloc, name)?;
    match hub.decls().number_of(&name) {
        Some(place) => match u32::try_from(place) {
            Ok(device) => Ok(device),
            Err(_) => Err(Undone),
        },
        None => Err(Undone),
    }
}

/// Whether this operation is due on a device, as `D OP`.
pub(crate) fn is_due(alloc: Global, hub: &Kept, rest: &str) -> Result<bool, Undone> {
    let (name, text) = first_word(rest);
    let device = device_of(alloc, hub, name)?;
    let op = hub.order(alloc, device)?;
    is_op(alloc, op.as_ref(), text)
}

/// The operation of a text is due on a device, and gets this reply, with this count of faults; says whether
/// it was due.
pub(crate) fn does(
    alloc: Global,
    hub: &mut Kept,
    device: u32,
    text: &str,
    reply: &str,
    faults: u64,
) -> Result<bool, Undone> {
    let op = hub.order(alloc, device)?;
    if op.is_none() {
        return Ok(false);
    }
    let good = is_op(alloc, op.as_ref(), text)?;
    hub.report(alloc, device, reply_of(alloc, reply)?, faults)?;
    Ok(good)
}

/// The operation of a line is due on a device, and gets the line's reply, with its count of faults, as
/// `D OP > REPLY N`; says whether it was due.
pub(crate) fn steps(alloc: Global, hub: &mut Kept, rest: &str) -> Result<bool, Undone> {
    let (asked, given) = parted(rest)?;
    let (name, text) = first_word(asked);
    let device = device_of(alloc, hub, name)?;
    let Some((reply, faults)) = given.rsplit_once(' ') else {
        return Err(Undone);
    };
    does(alloc, hub, device, text, reply, faults.parse()?)
}
