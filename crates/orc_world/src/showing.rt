//! What is shown.
ghost use Rattle.std.specs.Prelude.{◌≡◌, ◌<◌, IfOk, MatchOption, codes, length};
ghost use Rattle.orc_print.specs.Printed.{data_text, history_text};
ghost use Rattle.orc_scene.specs.Effects.{hub_in};
ghost use Rattle.orc_world.specs.Lines.{IsLineCall};
ghost use Rattle.orc_world.specs.inside.Shown.{ShowsDevice, ShowsJsonOf, ShowsLogOf, ShowsMetaOf};
ghost use Rattle.orc_scene.specs.Stands.{Allows, IsBetweenLines, IsSoundScene};
ghost use Rattle.orc_script.specs.declared.step.ScriptStep.TheVariants as step;

use crate::world::World;
use orc_decls::device_name;
use orc_disk::Disk;
use orc_path::Path;
use orc_print::{Transcript, down, history, json, log, meta, show, show_data};
use orc_scene::{Place, WorldStop};
use orc_schema_nodes::Schema;
use orc_text::Memory;

impl<D: Disk> World<D> {
    /// The line `show`: the tree that a device runs.
    pub fn show(&mut self, device: u32, out: &mut Transcript) -> Result<(), WorldStop>
        requires sound { IsBetweenLines D.disk self.old.scene }
        requires allowed { Allows self.old.scene (step.Show device) }
        ensures { IsLineCall D.disk (step.Show device) self.old.scene result self.new.scene out.old out.new }
    {
        self.scene.say(self.tree_text(device), out)
    }

    // The group of the tree that a device runs.
    fn tree_text(&self, device: u32) -> Result<Vec<u8>, Memory>
        requires sound { IsSoundScene D.disk self.now.scene }
        requires device { device < length self.now.scene.links.links }
        ensures { IfOk result (λ bytes. ShowsDevice self.now.scene device bytes.items) }
    {
        let name = device_name(self.scene.names(), device);
        show(self.scene.alloc, name, self.scene.links.running(device))
    }

    /// The line `json`: the tree that a device with a type runs, as JSON.
    pub fn json(&mut self, device: u32, out: &mut Transcript) -> Result<(), WorldStop>
        requires sound { IsBetweenLines D.disk self.old.scene }
        requires allowed { Allows self.old.scene (step.Json device) }
        ensures { IsLineCall D.disk (step.Json device) self.old.scene result self.new.scene out.old out.new }
    {
        self.scene.say(self.json_text(device), out)
    }

    // The line of the tree of a device, as JSON.
    fn json_text(&self, device: u32) -> Result<Vec<u8>, Memory>
        requires sound { IsSoundScene D.disk self.now.scene }
        requires device { device < length self.now.scene.links.links }
        ensures { IfOk result (λ bytes. ShowsJsonOf self.now.scene device bytes.items) }
    {
        let name = device_name(self.scene.names(), device);
        let plain = Schema::plain(self.scene.alloc);
        let schema = self.scene.decls().schema_named(name, &plain);
        let text = orc_json::write(self.scene.alloc, schema, self.scene.links.running(device))?;
        json(self.scene.alloc, name, text.as_slice())
    }

    /// The line `log`: the operations of a device since its log was printed last.
    pub fn log(&mut self, device: u32, out: &mut Transcript) -> Result<(), WorldStop>
        requires sound { IsBetweenLines D.disk self.old.scene }
        requires allowed { Allows self.old.scene (step.Log device) }
        ensures { IsLineCall D.disk (step.Log device) self.old.scene result self.new.scene out.old out.new }
    {
        match self.scene.say(self.log_text(device), out) {
            Ok(()) => {
                let alloc = self.scene.alloc;
                self.scene.links.clear_log(alloc, device);
                Ok(())
            }
            Err(stop) => Err(stop),
        }
    }

    // The log of a device.
    fn log_text(&self, device: u32) -> Result<Vec<u8>, Memory>
        requires sound { IsSoundScene D.disk self.now.scene }
        requires device { device < length self.now.scene.links.links }
        ensures { IfOk result (λ bytes. ShowsLogOf self.now.scene device bytes.items) }
    {
        let name = device_name(self.scene.names(), device);
        log(self.scene.alloc, name, self.scene.links.log(device))
    }

    /// The line `meta`: what is known of a path of a device, where a hub is up.
    pub fn meta(&mut self, device: u32, path: &Path, out: &mut Transcript) -> Result<(), WorldStop>
        requires sound { IsBetweenLines D.disk self.old.scene }
        requires allowed { Allows self.old.scene (step.Meta device path.now) }
        ensures { IsLineCall D.disk (step.Meta device path.now) self.old.scene result self.new.scene out.old out.new }
    {
        self.scene.say(self.meta_text(device, path), out)
    }

    // The group of a path of a device, or that the controller is down.
    fn meta_text(&self, device: u32, path: &Path) -> Result<Vec<u8>, Memory>
        requires sound { IsSoundScene D.disk self.now.scene }
        requires device { device < length self.now.scene.links.links }
        ensures { IfOk result (λ bytes. ShowsMetaOf self.now.scene device path.now bytes.items) }
    {
        match &self.scene.place {
            Place::Up(hub) => {
                let known = hub.state().meta(device, path);
                let name = device_name(self.scene.names(), device);
                meta(self.scene.alloc, name, path, known.as_ref())
            }
            _ => down(self.scene.alloc),
        }
    }

    /// The line `data`: the data, where a hub is up.
    pub fn show_data(&mut self, out: &mut Transcript) -> Result<(), WorldStop>
        requires sound { IsBetweenLines D.disk self.old.scene }
        requires allowed { Allows self.old.scene step.ShowData }
        ensures { IsLineCall D.disk step.ShowData self.old.scene result self.new.scene out.old out.new }
    {
        self.scene.say(self.data_text(), out)
    }

    // The group of the data, or that the controller is down.
    fn data_text(&self) -> Result<Vec<u8>, Memory>
        ensures { IfOk result (λ bytes. MatchOption (hub_in self.now.scene.place) (bytes.items ≡ codes "down\n")
            (λ hub. bytes.items ≡ data_text hub.state.datastore.data)) }
    {
        match &self.scene.place {
            Place::Up(hub) => show_data(self.scene.alloc, hub.state().data_tree()),
            _ => down(self.scene.alloc),
        }
    }

    /// The line `history`: the history, where a hub is up.
    pub fn history(&mut self, out: &mut Transcript) -> Result<(), WorldStop>
        requires sound { IsBetweenLines D.disk self.old.scene }
        requires allowed { Allows self.old.scene step.History }
        ensures { IsLineCall D.disk step.History self.old.scene result self.new.scene out.old out.new }
    {
        self.scene.say(self.history_text(), out)
    }

    // The group of the history, or that the controller is down.
    fn history_text(&self) -> Result<Vec<u8>, Memory>
        ensures { IfOk result (λ bytes. MatchOption (hub_in self.now.scene.place) (bytes.items ≡ codes "down\n")
            (λ hub. bytes.items ≡ history_text hub.state.history)) }
    {
        match &self.scene.place {
            Place::Up(hub) => history(self.scene.alloc, hub.state().history()),
            _ => down(self.scene.alloc),
        }
    }
}
