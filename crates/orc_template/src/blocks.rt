//! The parts of a block's JSON.
ghost use Rattle.std.specs.Prelude.{◌≡◌, ◌+◌, IfOk, option_map};
ghost use Rattle.serde_json.specs.View.{view as json_view, items_view};
ghost use Rattle.orc_template.specs.Blocks.{blocks_of, blocks_listed, blocks_inside, block_count, text_of_member};

use orc_text::Memory;
use serde_json::Value;

/// More than a JSON text may nest (127 levels in `serde_json`), and so more than blocks do.
pub(crate) const DEPTH: usize = 128;

/// The text of a member of a block, where it has one.
pub(crate) fn text_of<'a>(block: &'a Value, name: &str) -> Option<&'a str>
    ensures { option_map (λ text. text.now) result ≡ text_of_member name.now (json_view block.now) }
{
    match block.get(name) {
        Some(value) => value.as_str(),
        None => None,
    }
}

// The items of an array.
fn listed(value: &Value) -> &[Value]
    ensures { blocks_of (items_view result.now) ≡ blocks_listed (json_view value.now) }
{
    match value.as_array() {
        Some(items) => items.as_slice(),
        None => &[],
    }
}

/// The blocks inside a block, or inside a template.
pub(crate) fn blocks_inside(block: &Value) -> &[Value]
    ensures { blocks_of (items_view result.now) ≡ blocks_inside (json_view block.now) }
{
    match block.get("blocks") {
        Some(value) => listed(value),
        None => &[],
    }
}

/// The number of so many more, where it is one.
pub(crate) fn more(number: u32, count: u32) -> Result<u32, Memory>
    ensures { IfOk result (λ sum. sum ≡ number + count) }
{
    match number.checked_add(count) {
        Some(sum) => Ok(sum),
        None => Err(Memory),
    }
}

/// The number of the block after one with so many inside.
pub(crate) fn number_behind(number: u32, inside: u32) -> Result<u32, Memory>
    ensures { IfOk result (λ next. next ≡ number + 1 + inside) }
{
    more(more(number, 1)?, inside)
}

/// How many blocks these are, with those inside.
pub(crate) fn block_count(left: usize, blocks: &[Value]) -> Result<u32, Memory>
    ensures { IfOk result (λ count. count ≡ block_count (blocks_of (items_view blocks.now))) }
{
    if left == 0 {
        return Err(Memory);
    }
    let mut count = 0;
    for block in blocks {
        count = number_behind(count, block_count(left - 1, blocks_inside(block))?)?;
    }
    Ok(count)
}
