//! What is said of a fault of a bundle.
use crate::bodies::say_body;
use crate::limits::say_excess;
use crate::lines::{front_text, lines_from, say_line};
use crate::modules::say_module;
use crate::openings::say_opening;
use crate::paths::{say_no_path, say_path};
use crate::schemas::{say_repeated, say_schema};
use crate::spacing::say_spacing;
use crate::templates::say_template;
use crate::values::{say_item, say_no_value};
use crate::words::Words;
use orc_decls::Rule;
use orc_lines::{Detail, seen};
use orc_text::{Memory, Text};
use std::alloc::Global;

/// What is said of the line of this number, which is the first that breaks a rule in a bundle of these bytes, and was
/// refused with this detail: in a line of text what in particular is at fault, where that is known, and in another one
/// what stands in the bundle's line and what may stand there.
pub fn diagnosis(
    alloc: Global,
    bytes: &[u8],
    line: u64,
    rule: Rule,
    detail: &Detail,
) -> Result<Text, Memory> {
    let mut words = Words::new(alloc);
    let bytes = seen(bytes);
    let rest = lines_from(bytes, line);
    let is_said = say_detail(&mut words, bytes, line, detail)?;
    let is_spaced = say_spacing(&mut words, front_text(rest), rule, is_said)?;
    if is_said || is_spaced {
        words.say("\n")?;
    }
    say_line(&mut words, rest, line, rule, is_said || is_spaced)?;
    Ok(words.into_text())
}

// Adds what in particular is at fault in the line of this number, and answers whether anything is said.
fn say_detail(words: &mut Words, bytes: &[u8], line: u64, detail: &Detail) -> Result<bool, Memory> {
    match detail {
        Detail::Plain => Ok(false),
        Detail::Size(excess) => say_excess(words, line, excess),
        Detail::NoPath(text) => say_no_path(words, text.as_str()),
        Detail::Path(wrong) => say_path(words, wrong),
        Detail::NoValue(text) => say_no_value(words, text.as_str()),
        Detail::Value(wrong) => say_item(words, wrong),
        Detail::Json(wrong) => say_body(words, wrong),
        Detail::Yang(wrong) => say_module(words, line, wrong),
        Detail::Repeated(name) => say_repeated(words, name),
        Detail::Schema(wrong) => say_schema(words, bytes, wrong),
        Detail::Template(wrong) => say_template(words, line, wrong),
        Detail::Opening(wrong) => say_opening(words, wrong),
    }
}
