//! Templates.
ghost use Rattle.std.specs.Prelude.{◌≡◌, List, IfOk, map};
ghost use Rattle.std.specs.FinMap.{empty};
ghost use Rattle.serde_json.specs.View.{view as json_view};
ghost use Rattle.orc_json.specs.Readings.{IsJson};
ghost use Rattle.orc_schema_nodes.specs.Schemas.{shape_at};
ghost use Rattle.orc_expr.specs.Reads.{IsFixedByReads};
ghost use Rattle.orc_template.specs.Readers.{Readers, AreReaders};
ghost use Rattle.orc_template.specs.Templates.{ReadsTemplate};
ghost use Rattle.orc_template.specs.Expansions.{expanded, reads_expanded, AnswersExpansion, AnswersWriting};
ghost use Rattle.orc_template.specs.Said.{template_json, read_result, parts_result};
ghost use Rattle.orc_template.specs.inside.Machine.{the_readers, site};
ghost use Rattle.orc_template.specs.inside.Expanding.{FindsExpansion, FindsWriting, AddsReads};

use crate::blocks::{DEPTH, blocks_inside};
use crate::checking::template_fault;
use crate::expanding::{Expanding, do_blocks};
use crate::{Devices, ExpandFault, Expansion, TemplateFault, View};
use orc_expr::ReadSet;
use orc_json::parse;
use orc_path::{DataView, Path};
use orc_schema_nodes::Schema;
use orc_text::{Memory, Row, Text};
use orc_tree::Tree;
use serde_json::Value;
use std::alloc::Global;
use std::marker::Model;

/// A template: the text of a JSON value, whose strings hold expressions.
pub struct Template {
    text: Row<u8>,
    json: Value,
}

// Written out, so that a crate above lets a template go by one call, and proves nothing of its JSON
// value.
impl Drop for Template {
    fn drop(self) {
        let Template { text: _, json: _ } = self;
    }
}

impl Model for Template {
    ghost use Rattle.std.specs.Prelude.{◌≡◌, ℕ, List, Some};
    ghost use Rattle.serde_json.specs.View.{view as json_view};
    ghost use Rattle.orc_template.specs.Said.{json_value};

    ghost Value = { List ℕ };

    ghost view = { λ template. template.text };

    ghost invariant = { λ template. json_value template.text ≡ Some (json_view template.json) };
}

// The text that bytes are.
fn text_of(alloc: Global, bytes: &[u8]) -> Result<Row<u8>, Memory>
    ensures { IfOk result (λ text. text ≡ bytes.now) }
{
    let mut text = Vec::with_capacity(alloc, bytes.len())?;
    text.extend_from_slice(bytes)?;
    Ok(Row::from_vec(text))
}

// Nothing is written on any device.
fn nothing_written(alloc: Global, names: &[Text]) -> Result<Vec<Tree>, Memory>
    ensures { IfOk result (λ trees. trees.items ≡ map (λ name. empty) names.now) }
{
    let mut trees = Vec::new(alloc);
    for _name in names {
        trees.push(Tree::new(alloc))?;
    }
    Ok(trees)
}

impl Template {
    /// The template of a list of the data whose JSON text these bytes are. `NotJson` comes exactly
    /// where they are no JSON text; else the fault is that of the least block, and at one block
    /// `BadMember` goes before `BadExpr`.
    pub fn read(
        alloc: Global,
        bytes: &[u8],
        schema: &Schema,
        list: &Path,
    ) -> Result<Template, TemplateFault>
        ensures reads { (readers : Readers) → AreReaders readers
            → ReadsTemplate (record { readers = readers; shapes = shape_at schema.now; node = list.now }) bytes.now
            (read_result result) }
        ensures text { IfOk result (λ template. template ≡ bytes.now) }
    {
        Template::read_bytes(alloc, bytes, schema, list)
    }

    // The template that `read` answers, where texts are read byte by byte.
    fn read_bytes(
        alloc: Global,
        bytes: &[u8],
        schema: &Schema,
        list: &Path,
    ) -> Result<Template, TemplateFault>
        ensures reads { ReadsTemplate (site (shape_at schema.now) list.now) bytes.now (read_result result) }
        ensures text { IfOk result (λ template. template ≡ bytes.now) }
    {
        match parse(alloc, bytes)? {
            Some(json) => Template::checked(alloc, bytes, json, schema, list),
            None => Err(TemplateFault::NotJson),
        }
    }

    // The template of a JSON text and its value, or its first fault.
    fn checked(
        alloc: Global,
        bytes: &[u8],
        json: Value,
        schema: &Schema,
        list: &Path,
    ) -> Result<Template, TemplateFault>
        requires { IsJson bytes.now (json_view json) }
        ensures reads { ReadsTemplate (site (shape_at schema.now) list.now) bytes.now (read_result result) }
        ensures text { IfOk result (λ template. template ≡ bytes.now) }
    {
        let tree = Tree::new(alloc);
        let view = View {
            tree: &tree,
            schema,
        };
        match template_fault(alloc, &view, list, &json)? {
            Some(fault) => Err(fault),
            None => Ok(Template {
                text: text_of(alloc, bytes)?,
                json,
            }),
        }
    }

    /// An equal template.
    pub fn copy(&self, alloc: Global) -> Result<Template, Memory>
        ensures { IfOk result (λ template. template ≡ self.now) }
    {
        Ok(Template {
            text: self.text.copy(alloc)?,
            json: self.json.clone()?,
        })
    }

    // Its JSON.
    fn json(&self) -> &Value
        ensures { json_view result.now ≡ template_json self.now }
    {
        &self.json
    }

    // What is written on each device, with its reads alone.
    fn write_alone<V: DataView>(
        &self,
        alloc: Global,
        view: &V,
        instance: &Path,
        devices: &Devices,
        reads: &mut ReadSet,
    ) -> Result<Row<Tree>, ExpandFault>
        ensures { FindsWriting
            (expanded the_readers devices.now instance.now (template_json self.now) (V.viewed view.now))
            reads.new.reads result }
    {
        let mut expanding = Expanding {
            written: nothing_written(alloc, devices.names.as_slice())?,
            reads: ReadSet::new(alloc),
        };
        let done = do_blocks(
            alloc,
            view,
            devices,
            DEPTH,
            instance,
            1,
            blocks_inside(self.json()),
            &mut expanding,
        );
        let Expanding {
            written,
            reads: read,
        } = expanding;
        *reads = read;
        match done {
            Ok(()) => Ok(Row::from_vec(written)),
            Err(fault) => Err(fault),
        }
    }

    // The expansion, with its reads alone.
    fn expand_alone<V: DataView>(
        &self,
        alloc: Global,
        view: &V,
        instance: &Path,
        devices: &Devices,
        reads: &mut ReadSet,
    ) -> Result<Expansion, ExpandFault>
        ensures { FindsExpansion
            (expanded the_readers devices.now instance.now (template_json self.now) (V.viewed view.now))
            reads.new.reads (parts_result result) }
    {
        match self.write_alone(alloc, view, instance, devices, reads) {
            Ok(written) => Ok(Expansion::gathered(alloc, written.as_slice())?),
            Err(fault) => Err(fault),
        }
    }

    /// What the template writes on each device, by the devices' numbers, or the first fault: as
    /// `expand`, with the devices on which nothing is written.
    pub fn written<V: DataView>(
        &self,
        alloc: Global,
        view: &V,
        instance: &Path,
        devices: &Devices,
        reads: &mut ReadSet,
    ) -> Result<Row<Tree>, ExpandFault>
        ensures answer { (readers : Readers) → AreReaders readers → AnswersWriting
            (expanded readers devices.now instance.now (template_json self.now) (V.viewed view.now))
            reads.old.reads reads.new.reads result }
        // A view that shares its shapes and what was read gives the same and reads the same.
        ensures sound { (readers : Readers) → IsFixedByReads
            (expanded readers devices.now instance.now (template_json self.now)) reads_expanded (V.viewed view.now) }
    {
        self.write_adding(alloc, view, instance, devices, reads)
    }

    // What is written, with its reads added.
    fn write_adding<V: DataView>(
        &self,
        alloc: Global,
        view: &V,
        instance: &Path,
        devices: &Devices,
        reads: &mut ReadSet,
    ) -> Result<Row<Tree>, ExpandFault>
        ensures { AnswersWriting
            (expanded the_readers devices.now instance.now (template_json self.now) (V.viewed view.now))
            reads.old.reads reads.new.reads result }
    {
        let mut read = ReadSet::new(alloc);
        let answer = self.write_alone(alloc, view, instance, devices, &mut read);
        with_reads(alloc, reads, read, answer)
    }

    /// What the template writes for an instance of its list, or the first fault: each block in the
    /// order of the text, at its context or, with `for`, at each of its nodes. What was read is
    /// added, also where the answer is a fault; where memory runs out nothing is added.
    pub fn expand<V: DataView>(
        &self,
        alloc: Global,
        view: &V,
        instance: &Path,
        devices: &Devices,
        reads: &mut ReadSet,
    ) -> Result<Expansion, ExpandFault>
        ensures answer { (readers : Readers) → AreReaders readers → AnswersExpansion
            (expanded readers devices.now instance.now (template_json self.now) (V.viewed view.now))
            reads.old.reads reads.new.reads (parts_result result) }
        // A view that shares its shapes and what was read gives the same and reads the same.
        ensures sound { (readers : Readers) → IsFixedByReads
            (expanded readers devices.now instance.now (template_json self.now)) reads_expanded (V.viewed view.now) }
    {
        self.expand_adding(alloc, view, instance, devices, reads)
    }

    // The expansion, with its reads added.
    fn expand_adding<V: DataView>(
        &self,
        alloc: Global,
        view: &V,
        instance: &Path,
        devices: &Devices,
        reads: &mut ReadSet,
    ) -> Result<Expansion, ExpandFault>
        ensures { AnswersExpansion
            (expanded the_readers devices.now instance.now (template_json self.now) (V.viewed view.now))
            reads.old.reads reads.new.reads (parts_result result) }
    {
        let mut read = ReadSet::new(alloc);
        let answer = self.expand_alone(alloc, view, instance, devices, &mut read);
        with_reads(alloc, reads, read, answer)
    }
}

// An answer, once its reads are added.
fn with_reads<T: Drop>(
    alloc: Global,
    reads: &mut ReadSet,
    read: ReadSet,
    answer: Result<T, ExpandFault>,
) -> Result<T, ExpandFault>
    ensures { AddsReads answer reads.old.reads read.reads reads.new.reads result }
{
    match answer {
        Err(ExpandFault::Memory) => Err(ExpandFault::Memory),
        Err(ExpandFault::At { block, rule }) => {
            reads.append(alloc, read)?;
            Err(ExpandFault::At { block, rule })
        }
        Ok(value) => {
            reads.append(alloc, read)?;
            Ok(value)
        }
    }
}
