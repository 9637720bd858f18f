//! What a table is done with: a schema and data, devices, and lists with their templates.

use crate::modules::schema_of;
use crate::shown::Shown;
use crate::templates::held::held_of;
use crate::templates::shown::{
    push_actions, push_expansion, push_reads, push_template_fault, push_trees,
};
use crate::undone::Undone;
use orc_call::Action;
use orc_expr::ReadSet;
use orc_json::read;
use orc_path::Path;
use orc_queue::Held;
use orc_schema::Schema;
use orc_services::{ServiceList, expand_actions, path_of_id};
use orc_template::{Devices, Template, View};
use orc_text::{Row, Text};
use orc_tree::Tree;
use std::alloc::Global;

/// The state of a table after its lines so far. The devices are r1 and r2, which have the schema of
/// the devices' modules, and q, which is plain.
#[derive(Drop)]
pub(crate) struct Bench {
    schema: Schema,
    devices: Devices,
    tree: Tree,
    lists: Row<ServiceList>,
    held: Held,
}

// The table of the devices.
fn devices_of(alloc: Global, schema: Schema) -> Result<Devices, Undone> {
    let mut names = Row::new(alloc);
    let mut of = Row::new(alloc);
    for (name, place) in [("r1", 0), ("r2", 0), ("q", 1)] {
        names.push(Text::from_str(alloc, name)?)?;
        of.push(place)?;
    }
    let mut schemas = Row::new(alloc);
    schemas.push(schema)?;
    schemas.push(Schema::plain(alloc))?;
    match Devices::of_parts(names, schemas, of) {
        Some(devices) => Ok(devices.copy(alloc)?),
        None => Err(Undone),
    }
}

/// The path that a text spells.
pub(crate) fn path_in(alloc: Global, text: &str) -> Result<Path, Undone> {
    match path_of_id(alloc, &Text::from_str(alloc, text)?)? {
        Some(path) => Ok(path),
        None => Err(Undone),
    }
}

impl Bench {
    /// Begins with no data, no template and nothing held.
    pub(crate) fn new(alloc: Global, data: &str, device: &str) -> Result<Bench, Undone> {
        Ok(Bench {
            schema: schema_of(alloc, data)?,
            devices: devices_of(alloc, schema_of(alloc, device)?)?,
            tree: Tree::new(alloc),
            lists: Row::new(alloc),
            held: held_of(alloc, "")?,
        })
    }

    /// Does a line, and adds what it gives. A line of no form, as a comment, gives nothing.
    pub(crate) fn take(&mut self, out: &mut Shown, line: &str) -> Result<(), Undone> {
        let Some((word, rest)) = line.split_once(' ') else {
            return Ok(());
        };
        match word {
            "data" => self.data(out.alloc, rest),
            "template" => {
                self.lists = Row::new(out.alloc);
                self.template(out, rest)
            }
            "and" => self.template(out, rest),
            "expand" => self.expand(out, rest),
            "call" => self.call(out, rest),
            "hold" => self.hold(out, rest),
            _ => Ok(()),
        }
    }

    // The data: their JSON.
    fn data(&mut self, alloc: Global, json: &str) -> Result<(), Undone> {
        match read(alloc, &self.schema, json.as_bytes()) {
            Ok(tree) => self.tree = tree,
            Err(_) => return Err(Undone),
        }
        Ok(())
    }

    // One list more: its path and the JSON of its template.
    fn template(&mut self, out: &mut Shown, words: &str) -> Result<(), Undone> {
        let (list, json) = words.split_once(' ').ok_or(Undone)?;
        let list = path_in(out.alloc, list)?;
        match Template::read(out.alloc, json.as_bytes(), &self.schema, &list) {
            Ok(template) => self.add(list, template.copy(out.alloc)?),
            Err(fault) => push_template_fault(out, fault),
        }
    }

    // Adds a list with its template.
    fn add(&mut self, list: Path, template: Template) -> Result<(), Undone> {
        self.lists.push(ServiceList { list, template })?;
        Ok(())
    }

    // What the templates write at an instance of their list: its path. The expansion has the devices
    // with an item alone, the trees are those of all devices.
    fn expand(&self, out: &mut Shown, path: &str) -> Result<(), Undone> {
        let instance = path_in(out.alloc, path)?;
        let view = View {
            tree: &self.tree,
            schema: &self.schema,
        };
        for it in self.lists.as_slice() {
            let mut reads = ReadSet::new(out.alloc);
            let answer = it
                .template
                .expand(out.alloc, &view, &instance, &self.devices, &mut reads);
            push_expansion(out, answer)?;
            push_reads(out, &reads.copy(out.alloc)?)?;
            let answer = it
                .template
                .written(out.alloc, &view, &instance, &self.devices, &mut reads);
            push_trees(out, answer)?;
        }
        Ok(())
    }

    // What a call comes to that does two services again: their ids.
    fn call(&self, out: &mut Shown, ids: &str) -> Result<(), Undone> {
        let (first, second) = ids.split_once(' ').ok_or(Undone)?;
        let view = View {
            tree: &self.tree,
            schema: &self.schema,
        };
        let actions = [
            Action::Redeploy(Text::from_str(out.alloc, first)?),
            Action::Redeploy(Text::from_str(out.alloc, second)?),
        ];
        let mut reads = ReadSet::new(out.alloc);
        let answer = expand_actions(
            out.alloc,
            self.lists.as_slice(),
            &self.devices,
            &view,
            &actions,
            &mut reads,
        )?;
        push_actions(out, &answer)?;
        push_reads(out, &reads)
    }

    // Whether what a call holds fits with what the one before holds.
    fn hold(&mut self, out: &mut Shown, words: &str) -> Result<(), Undone> {
        let held = held_of(out.alloc, words)?.copy(out.alloc)?;
        let fits = held.fits(&self.held);
        self.held = held;
        out.add(&[if fits { "    fits\n" } else { "    waits\n" }])
    }
}
