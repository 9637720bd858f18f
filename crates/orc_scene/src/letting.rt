//! What becomes of the scene as its hub goes down.
ghost use Rattle.std.specs.Prelude.{◌≡◌, ◌++◌};
ghost use Rattle.orc_scene.specs.inside.Effects.{FailsAppend, LetsGo, LetsGoWith, Stops, is_down, is_stopped, place_without};
ghost use Rattle.orc_scene.specs.Courses.{HasEvents, HasRoom, event_list};
ghost use Rattle.orc_scene.specs.declared.stop.WorldStop.TheVariants as why;

use crate::scene::{Place, Scene};
use crate::stop::WorldStop;
use orc_disk::Disk;
use orc_print::{Transcript, stopped};
use orc_rules::Event;
use orc_text::Memory;
use std::mem;

/// What stood in a place that another one took: nothing, so that nothing is let go here.
pub(crate) fn discard<D: Disk>(_place: Place<D>) {}

impl<D: Disk> Scene<D> {
    // Whether an append of the hub failed.
    pub(crate) fn is_down(&self) -> bool
        ensures { result ≡ is_down self.now.place }
    {
        match &self.place {
            Place::Up(hub) => hub.is_down(),
            _ => false,
        }
    }

    // Lets the hub go, where one is up, and with it all snapshots.
    pub(crate) fn let_go(&mut self)
        ensures { LetsGo self.old self.new }
    {
        self.snapshots.clear(self.alloc);
        self.let_place_go();
    }

    // Lets the hub go, where one is up, and keeps the snapshots.
    fn let_place_go(&mut self)
        ensures { self.new ≡ record self.old { place = place_without self.old.place } }
    {
        let place = mem::replace(&mut self.place, Place::Moved);
        discard(mem::replace(&mut self.place, place.without_hub()));
    }

    // The controller stops: the hub is let go, and its sessions end.
    pub(crate) fn stop_now(&mut self)
        requires { HasRoom 1 self.old }
        ensures stops { Stops self.old self.new }
        ensures room { HasRoom 2 self.old → HasRoom 1 self.new }
    {
        self.let_go();
        self.links.drop_sessions();
        self.keep(Event::Stop);
    }

    // An append failed, and the hub is down: by the armed stop, or since the disk failed, in which case this is
    // seen, and said, and the run ends.
    pub(crate) fn failed(
        &mut self,
        seen: Option<Event>,
        line: Result<Vec<u8>, Memory>,
        out: &mut Transcript,
    ) -> Result<(), WorldStop>
        requires { HasRoom 1 self.old }
        ensures { FailsAppend self.old seen line out.old result self.new out.new }
    {
        if self.is_stopped() {
            self.stop_now();
            return self.say(stopped(self.alloc), out);
        }
        self.end_with(seen);
        match self.say(line, out) {
            Ok(()) => Err(WorldStop::JournalFault),
            Err(stop) => Err(stop),
        }
    }

    // Whether the disk of the hub is stopped.
    fn is_stopped(&self) -> bool
        ensures { result ≡ is_stopped self.now.place }
    {
        match &self.place {
            Place::Up(hub) => hub.stopped(),
            _ => false,
        }
    }

    // The hub is let go, and what is seen is kept.
    fn end_with(&mut self, seen: Option<Event>)
        requires { HasRoom 1 self.old }
        ensures { LetsGoWith self.old self.new (event_list seen) }
    {
        self.let_go();
        self.keep_seen(seen);
    }

    // Keeps an event, if there is one.
    fn keep_seen(&mut self, seen: Option<Event>)
        requires { HasRoom 1 self.old }
        ensures { HasEvents self.old self.new (self.old.events.items.items ++ event_list seen) }
    {
        match seen {
            Some(event) => self.keep(event),
            None => {}
        }
    }

    // An entry had no room, and the hub is down.
    pub(crate) fn full(&mut self, len: u64) -> WorldStop
        ensures state { LetsGo self.old self.new }
        ensures why { result ≡ why.Full len }
    {
        self.let_go();
        WorldStop::Full { len }
    }
}
