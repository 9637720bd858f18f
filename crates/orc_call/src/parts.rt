//! Reading the parts of an action from the start of the bytes.
ghost use Rattle.std.specs.Prelude.{◌≡◌};
ghost use Rattle.std.specs.declared.option.Option.TheVariants.{None};
ghost use Rattle.std.specs.Option.{option_copied};
ghost use Rattle.orc_call.specs.Encoding.{put_fields, device_put_fields};
ghost use Rattle.orc_call.specs.inside.Reading.{ReadsFront, any, puts, many, body, literal, device_path, last_path};

use crate::fields::{Stuck, item_at, item_count_at, path_at, text_at};
use crate::{DevicePut, Put};
use orc_path::Path;
use orc_text::{Row, Text};
use std::alloc::Global;

/// A path, after the one before it where there is one, and its item.
pub(crate) fn put_at<'a>(
    alloc: Global,
    before: Option<&Path>,
    bytes: &'a [u8],
) -> Result<(Put, &'a [u8]), Stuck>
    ensures { ReadsFront (any (put_fields (option_copied before.entry))) bytes.now result }
{
    let (path, rest) = path_at(alloc, before, bytes)?;
    let (item, rest) = item_at(alloc, &path, rest)?;
    Ok((Put { path, item }, rest))
}

/// The path of the last of these puts.
pub(crate) fn last_path(puts: &[Put]) -> Option<&Path>
    ensures { option_copied result ≡ last_path None puts.now }
{
    match puts.last() {
        Some(put) => Some(&put.path),
        None => None,
    }
}

// So many puts in path order.
fn puts_at(alloc: Global, count: u32, bytes: &[u8]) -> Result<(Row<Put>, &[u8]), Stuck>
    ensures { ReadsFront (puts None count) bytes.now result }
{
    let mut puts = Row::new(alloc);
    let mut rest = bytes;
    for _ in 0..count {
        let (put, after) = put_at(alloc, last_path(puts.as_slice()), rest)?;
        puts.push(put)?;
        rest = after;
    }
    Ok((puts, rest))
}

/// A service, the number of its puts, and the puts.
pub(crate) fn body_at(alloc: Global, bytes: &[u8]) -> Result<((Text, Row<Put>), &[u8]), Stuck>
    ensures { ReadsFront body bytes.now result }
{
    let (service, rest) = text_at(alloc, bytes)?;
    let (count, rest) = item_count_at(rest)?;
    let (puts, rest) = puts_at(alloc, count, rest)?;
    Ok(((service, puts), rest))
}

/// A device, a path and its item.
pub(crate) fn device_put_at(alloc: Global, bytes: &[u8]) -> Result<(DevicePut, &[u8]), Stuck>
    ensures { ReadsFront (any device_put_fields) bytes.now result }
{
    let (device, rest) = text_at(alloc, bytes)?;
    let (put, rest) = put_at(alloc, None, rest)?;
    let Put { path, item } = put;
    Ok((DevicePut { device, path, item }, rest))
}

// So many writes in the order given.
fn device_puts_at(alloc: Global, count: u32, bytes: &[u8]) -> Result<(Row<DevicePut>, &[u8]), Stuck>
    ensures { ReadsFront (many device_put_fields count) bytes.now result }
{
    let mut writes = Row::new(alloc);
    let mut rest = bytes;
    for _ in 0..count {
        let (write, after) = device_put_at(alloc, rest)?;
        writes.push(write)?;
        rest = after;
    }
    Ok((writes, rest))
}

/// A name, the number of writes, and the writes.
pub(crate) fn literal_at(
    alloc: Global,
    bytes: &[u8],
) -> Result<((Text, Row<DevicePut>), &[u8]), Stuck>
    ensures { ReadsFront literal bytes.now result }
{
    let (name, rest) = text_at(alloc, bytes)?;
    let (count, rest) = item_count_at(rest)?;
    let (writes, rest) = device_puts_at(alloc, count, rest)?;
    Ok(((name, writes), rest))
}

/// A device and a path.
pub(crate) fn device_path_at(alloc: Global, bytes: &[u8]) -> Result<((Text, Path), &[u8]), Stuck>
    ensures { ReadsFront device_path bytes.now result }
{
    let (device, rest) = text_at(alloc, bytes)?;
    let (path, rest) = path_at(alloc, None, rest)?;
    Ok(((device, path), rest))
}
