//! Strings whose expressions give their texts.
ghost use Rattle.std.specs.Prelude.{◌≡◌, ◌++◌, [], Some, OnOk};
ghost use Rattle.std.specs.String.{string_bytes};
ghost use Rattle.orc_expr.specs.Parts.{expression_of};
ghost use Rattle.orc_expr.specs.Looks.{texts_of};
ghost use Rattle.orc_template.specs.Values.{one_found, one_text, expression_done, part_done, parts_done, string_done, Does, GivesValue};
ghost use Rattle.orc_template.specs.inside.Machine.{the_readers, scene};

use crate::fault::{Halt, MANY_VALUES, NO_VALUE};
use crate::readers::expression;
use crate::strings::{Part, parts_of};
use orc_expr::{EvalFault, Expr, ReadSet};
use orc_path::{DataView, Path};
use orc_text::{Memory, Text};
use std::alloc::Global;

// The one among texts.
fn one_of(alloc: Global, texts: &[Text]) -> Result<Text, Halt>
    ensures { GivesValue (one_found (Some texts.now)) result }
{
    match texts {
        [] => Err(Halt::Rule(NO_VALUE)),
        [text] => Ok(text.copy(alloc)?),
        [_, _, ..] => Err(Halt::Rule(MANY_VALUES)),
    }
}

// The one text of an expression.
fn one_text<V: DataView>(
    alloc: Global,
    view: &V,
    here: &Path,
    expr: &Expr,
    reads: &mut ReadSet,
) -> Result<Text, Halt>
    ensures { Does (one_text (texts_of (expression_of expr.now) here.now (V.viewed view.now)).found
        (texts_of (expression_of expr.now) here.now (V.viewed view.now)).reads reads.old.reads) reads.new.reads result }
{
    match expr.eval(alloc, view, here, reads) {
        Ok(texts) => one_of(alloc, texts.as_slice()),
        Err(EvalFault::Many) => Err(Halt::Rule(MANY_VALUES)),
        Err(EvalFault::Memory) => Err(Halt::Memory),
    }
}

// The text of an expression in braces.
fn braced<V: DataView>(
    alloc: Global,
    view: &V,
    here: &Path,
    text: &str,
    reads: &mut ReadSet,
) -> Result<Text, Halt>
    ensures { Does (expression_done (scene (V.viewed view.now) here.now) (the_readers.expression text.now)
        reads.old.reads) reads.new.reads result }
{
    match expression(alloc, text)? {
        Some(expr) => one_text(alloc, view, here, &expr, reads),
        None => Err(Halt::Rule(NO_VALUE)),
    }
}

// The text of a part.
fn part_text<V: DataView>(
    alloc: Global,
    view: &V,
    here: &Path,
    part: &Part,
    reads: &mut ReadSet,
) -> Result<Text, Halt>
    ensures { Does (part_done (scene (V.viewed view.now) here.now) part.now reads.old.reads) reads.new.reads result }
{
    match part {
        Part::Written(text) => Ok(text.copy(alloc)?),
        Part::Braced(text) => braced(alloc, view, here, text.as_str(), reads),
    }
}

// Adds a text.
fn push_text(text: &mut String, more: &Text) -> Result<(), Memory>
    ensures { OnOk result (string_bytes text.new ≡ string_bytes text.old ++ more.now) }
{
    text.push_str(more.as_str())?;
    Ok(())
}

// The texts of parts, one after another.
fn parts_text<V: DataView>(
    alloc: Global,
    view: &V,
    here: &Path,
    parts: &[Part],
    reads: &mut ReadSet,
) -> Result<Text, Halt>
    ensures { Does (parts_done (scene (V.viewed view.now) here.now) [] parts.now reads.old.reads)
        reads.new.reads result }
{
    let mut text = String::new(alloc);
    for part in parts {
        let more = part_text(alloc, view, here, part, reads)?;
        push_text(&mut text, &more)?;
    }
    Ok(Text::from_string(text))
}

/// The text of a string at a context, with its reads added.
pub(crate) fn fill<V: DataView>(
    alloc: Global,
    view: &V,
    here: &Path,
    text: &str,
    reads: &mut ReadSet,
) -> Result<Text, Halt>
    ensures { Does (string_done (scene (V.viewed view.now) here.now) text.now reads.old.reads) reads.new.reads result }
{
    match parts_of(alloc, text)? {
        Some(parts) => parts_text(alloc, view, here, parts.as_slice(), reads),
        None => Err(Halt::Rule(NO_VALUE)),
    }
}
