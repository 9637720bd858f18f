//! The steps of a script.
use orc_call::Call;
use orc_device::{OpKind, When};
use orc_path::Path;
use orc_text::Text;

/// A step of a script. A device is given by its number, its place in the declarations from 0 on.
#[derive(Drop)]
pub enum ScriptStep {
    /// The caller takes a snapshot, on which its next call is planned.
    Begin(Text),
    /// Submit a call.
    Call(Call),
    /// Admit a waiting call.
    Admit,
    /// The device does one operation, where one is due.
    Step(u32),
    /// Write what is due in the journal.
    Decide,
    /// Bring all calls to their end.
    Settle,
    /// So many seconds pass at every device, 1 to 86,400.
    Tick(u32),
    /// The device restarts.
    Restart(u32),
    /// The device's next operation of this kind fails, before its effect or after.
    Fault(u32, OpKind, When),
    /// Stop the controller.
    Stop,
    /// Arm a stop, in place of one that is armed: so many operations of the disk from now on, the
    /// last of them stops the controller, and none does where the count is 0. Where that one is a
    /// write, so many of its bytes are put as the second number says; where it is a sync, it is done
    /// exactly where that number is at least 1.
    StopAt(u64, u64),
    /// Stop the controller where it is up, disarm, and open the journal again.
    Recover,
    /// Bring all calls to their end, and the devices to what is due there.
    Reconcile,
    /// Print the tree of a device.
    Show(u32),
    /// Print the tree of a device with a type, as JSON.
    Json(u32),
    /// Print the operations of a device since its log was printed last.
    Log(u32),
    /// Print what is known of a path of a device: how many services write it, which they are, and
    /// what the device's base has there.
    Meta(u32, Path),
    /// Print the data.
    ShowData,
    /// Print the history.
    History,
}
