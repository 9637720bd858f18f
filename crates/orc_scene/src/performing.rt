//! Operations on devices.
ghost use Rattle.std.specs.Prelude.{◌≡◌, ◌<◌, [], None, Some, IfOk, IsTrue, MatchOption, MatchResult, OnErr, length};
ghost use Rattle.orc_hub.specs.Hubs.{record_of};
ghost use Rattle.orc_hub.specs.Orders.{IsEditDue, is_awaited};
ghost use Rattle.orc_rules.specs.Hubs.{due_on};
ghost use Rattle.orc_scene.specs.Effects.{hub_in};
ghost use Rattle.orc_scene.specs.inside.Effects.{HearsReply};
ghost use Rattle.orc_scene.specs.Courses.{DoesOperation, EndsAtOnce, HasRoom, InEachView, MayDoOperation};
ghost use Rattle.orc_scene.specs.Stands.{IsSoundScene};

use crate::laws::scene_is_carried;
use crate::scene::{Place, Scene};
use crate::stop::WorldStop;
use orc_device::{Mark, Op, OpKind, Reply, kind_of_op};
use orc_disk::Disk;
use orc_hub_laws::{order_is_performed, order_is_unsent, report_is_event};
use orc_rules::Event;
use orc_text::Memory;

impl<D: Disk> Scene<D> {
    /// The device does the operation that is due there, and the hub hears of it. Says whether one was.
    pub fn perform_next(&mut self, device: u32) -> Result<bool, WorldStop>
        requires sound { IsSoundScene D.disk self.old }
        requires declared { device < length self.old.links.links }
        ensures operation { InEachView D.disk self.old (λ here seen. MatchResult result
            (λ came. MayDoOperation here seen self.old self.new [] [] device came)
            (λ why. EndsAtOnce here seen self.old self.new [] [] why)) }
    {
        match self.next_order(device) {
            Ok(None) => Ok(false),
            Ok(Some(op)) => match self.make_room() {
                Ok(()) => match self.perform(device, op) {
                    Ok(()) => Ok(true),
                    Err(stop) => Err(stop),
                },
                Err(stop) => Err(stop),
            },
            Err(Memory) => match self.make_room() {
                Ok(()) => {
                    self.leave_unsent(device);
                    Ok(true)
                }
                Err(stop) => Err(stop),
            },
        }
    }

    // The operation that is due on a device.
    fn next_order(&self, device: u32) -> Result<Option<Op>, Memory>
        requires sound { IsSoundScene D.disk self.now }
        requires declared { device < length self.now.links.links }
        ensures order { IfOk result (λ op. MatchOption (hub_in self.now.place) (op ≡ None)
            (λ hub. op ≡ due_on (record_of hub) device)) }
        ensures memory { OnErr result (MatchOption (hub_in self.now.place) ⊥
            (λ hub. IsEditDue (record_of hub) device)) }
    {
        match &self.place {
            Place::Up(hub) => hub.order(self.alloc, device),
            _ => Ok(None),
        }
    }

    // The device does this operation, which is due there, and the hub hears of it.
    fn perform(&mut self, device: u32, op: Op) -> Result<(), WorldStop>
        requires sound { IsSoundScene D.disk self.old }
        requires declared { device < length self.old.links.links }
        requires due { MatchOption (hub_in self.old.place) ⊥ (λ hub. due_on (record_of hub) device ≡ Some op) }
        requires room { HasRoom 2 self.old }
        ensures { InEachView D.disk self.old (λ here seen. MatchResult result
            (λ done. DoesOperation here seen self.old self.new [] [] device)
            (λ why. EndsAtOnce here seen self.old self.new [] [] why)) }
    {
        scene_is_carried::<D>();
        order_is_performed::<D>();
        report_is_event::<D>();
        let kind = kind_of_op(&op);
        match self.links.perform(self.alloc, device, op) {
            Ok(reply) => {
                let mark = reply.mark();
                let faults = self.links.faults(device);
                self.keep(Event::Perform(device, kind, mark, faults));
                self.hear(device, kind, mark, reply, faults);
                Ok(())
            }
            Err(Memory) => Err(WorldStop::Memory),
        }
    }

    // An edit that is due can't be copied, and isn't sent.
    fn leave_unsent(&mut self, device: u32)
        requires sound { IsSoundScene D.disk self.old }
        requires declared { device < length self.old.links.links }
        requires due { MatchOption (hub_in self.old.place) ⊥ (λ hub. IsEditDue (record_of hub) device) }
        requires room { HasRoom 2 self.old }
        ensures { InEachView D.disk self.old (λ here seen. DoesOperation here seen self.old self.new [] [] device) }
    {
        scene_is_carried::<D>();
        order_is_unsent::<D>();
        report_is_event::<D>();
        let faults = self.links.faults(device);
        self.keep(Event::Unsent(device));
        self.hear(device, OpKind::Edit, Mark::Memory, Reply::Memory, faults);
    }

    // The hub hears what was replied.
    fn hear(&mut self, device: u32, kind: OpKind, mark: Mark, reply: Reply, faults: u64)
        requires awaited { MatchOption (hub_in self.old.place) ⊥ (λ hub. IsTrue (is_awaited (record_of hub) device)
            × (device < length hub.duties) × (device < length hub.stale)) }
        requires room { HasRoom 1 self.old }
        ensures { HearsReply self.old device kind mark reply faults self.new }
    {
        match &mut self.place {
            Place::Up(hub) => hub.report(self.alloc, device, reply, faults),
            _ => unreachable!(),
        }
        self.keep(Event::Report(device, kind, mark, faults));
    }
}
