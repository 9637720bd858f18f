//! Stops and recoveries.
ghost use Rattle.std.specs.Prelude.{◌≡◌, true, false, MatchOption, OnOk, is_some, length};
ghost use Rattle.orc_scene.specs.Effects.{armed_place, hub_in};
ghost use Rattle.orc_scene.specs.Courses.{HasRoom, RecoversDown, StopsController};
ghost use Rattle.orc_scene.specs.inside.Openings.{OpensAgain};
ghost use Rattle.orc_scene.specs.Stands.{IsSoundScene};

use crate::laws::scene_is_carried;
use crate::letting::discard;
use crate::scene::{Place, Scene};
use crate::starting::start_again;
use crate::stop::WorldStop;
use orc_disk::Disk;
use orc_hub_laws::{letting_go_is_stop, opening_stays_down, refusal_stays_down, start_is_recovery};
use orc_print::{Transcript, recovered};
use orc_rules::Event;
use std::mem;

impl<D: Disk> Scene<D> {
    /// The controller, which is up, stops.
    pub fn stop_hub(&mut self)
        requires up { is_some (hub_in self.old.place) ≡ true }
        requires room { HasRoom 1 self.old }
        ensures stops { StopsController D.disk self.old self.new }
        ensures down { is_some (hub_in self.new.place) ≡ false }
        ensures room { HasRoom 2 self.old → HasRoom 1 self.new }
    {
        scene_is_carried::<D>();
        letting_go_is_stop::<D>();
        self.stop_now();
    }

    /// Arms a stop in the journal's disk, where a hub is up.
    pub fn arm(&mut self, k: u64, b: u64)
        ensures { self.new ≡ record self.old { place = armed_place k b self.old.place } }
    {
        match &mut self.place {
            Place::Up(hub) => hub.arm(k, b),
            _ => {}
        }
    }

    /// The controller, which is down, opens its journal again.
    pub fn recover_down(&mut self, out: &mut Transcript) -> Result<(), WorldStop>
        requires sound { IsSoundScene D.disk self.old }
        requires down { is_some (hub_in self.old.place) ≡ false }
        requires room { HasRoom 1 self.old }
        ensures { RecoversDown D.disk self.old result self.new out.old out.new }
    {
        match self.open_again() {
            Ok(()) => {
                self.keep(Event::Recover);
                let count = self.history_len();
                self.say(recovered(self.alloc, count), out)
            }
            Err(stop) => Err(stop),
        }
    }

    // How many calls the history of the hub has.
    fn history_len(&self) -> u64
        ensures { MatchOption (hub_in self.now.place) (result ≡ 0) (λ hub. result ≡ length hub.state.history) }
    {
        match &self.place {
            Place::Up(hub) => hub.state().history().len() as u64,
            _ => 0,
        }
    }

    // Opens the journal again.
    fn open_again(&mut self) -> Result<(), WorldStop>
        requires sound { IsSoundScene D.disk self.old }
        requires down { is_some (hub_in self.old.place) ≡ false }
        ensures opens { OpensAgain D.disk self.old result self.new }
        ensures rest { self.new ≡ record self.old { place = self.new.place } }
        ensures up { OnOk result (is_some (hub_in self.new.place) ≡ true) }
    {
        scene_is_carried::<D>();
        start_is_recovery::<D>();
        refusal_stays_down::<D>();
        opening_stays_down::<D>();
        let (disk, decls) = mem::replace(&mut self.place, Place::Moved).into_closed();
        match start_again(self.alloc, decls, disk, self.limit) {
            Ok(hub) => {
                discard(mem::replace(&mut self.place, Place::Up(hub)));
                Ok(())
            }
            Err((stop, disk)) => {
                discard(mem::replace(&mut self.place, Place::Ended(disk)));
                Err(stop)
            }
        }
    }
}
