//! Calls and their actions.
ghost use Rattle.std.specs.Prelude.{◌≡◌, IfOk};

use orc_path::{Item, Path};
use orc_text::{Copied, Memory, Row, Text};
use std::alloc::Global;

/// An item and the path at which it is set.
#[derive(Debug, PartialEq, Eq, Drop)]
pub struct Put {
    pub path: Path,
    pub item: Item,
}

impl Put {
    /// An equal value.
    pub fn copy(&self, alloc: Global) -> Result<Put, Memory>
        ensures { IfOk result (λ put. put ≡ self.now) }
    {
        Ok(Put {
            path: self.path.copy(alloc)?,
            item: self.item.copy(alloc)?,
        })
    }
}

impl Copied for Put {
    fn copied(&self, alloc: Global) -> Result<Put, Memory> {
        self.copy(alloc)
    }
}

/// An item, the path at which it is set, and the name of the device.
#[derive(Debug, PartialEq, Eq, Drop)]
pub struct DevicePut {
    pub device: Text,
    pub path: Path,
    pub item: Item,
}

impl DevicePut {
    /// An equal value.
    pub fn copy(&self, alloc: Global) -> Result<DevicePut, Memory>
        ensures { IfOk result (λ put. put ≡ self.now) }
    {
        Ok(DevicePut {
            device: self.device.copy(alloc)?,
            path: self.path.copy(alloc)?,
            item: self.item.copy(alloc)?,
        })
    }
}

impl Copied for DevicePut {
    fn copied(&self, alloc: Global) -> Result<DevicePut, Memory> {
        self.copy(alloc)
    }
}

/// What a call does to one service, to one path of the data, or to one path of a device's base.
///
/// The service of `Create`, `Modify` and `Redeploy` is the path text of an entry of a templated
/// list; that of `Delete` may be the name of a literal service as well.
#[derive(Debug, PartialEq, Eq)]
pub enum Action {
    /// Adds the service's entry and its body to the data.
    Create(Text, Row<Put>),
    /// Replaces everything below the service's entry by the body.
    Modify(Text, Row<Put>),
    /// Expands the service's template again; the data stay as they are.
    Redeploy(Text),
    /// Removes the service's entry and all below, or the literal service.
    Delete(Text),
    /// A new literal service of this name, with exactly these writes and the entries on their way.
    Literal(Text, Row<DevicePut>),
    /// Sets an item of the data.
    Set(Put),
    /// Removes a path of the data.
    Unset(Path),
    /// Sets an item of a device's base.
    BasePut(DevicePut),
    /// Removes a path of a device's base.
    BaseRemove(Text, Path),
}

// Written out, so that a crate above lets an action go by one call, and not by one for each kind.
impl Drop for Action {
    fn drop(self) {
        match self {
            Action::Create(_, _) => {}
            Action::Modify(_, _) => {}
            Action::Redeploy(_) => {}
            Action::Delete(_) => {}
            Action::Literal(_, _) => {}
            Action::Set(_) => {}
            Action::Unset(_) => {}
            Action::BasePut(_) => {}
            Action::BaseRemove(_, _) => {}
        }
    }
}

impl Action {
    /// An equal value.
    pub fn copy(&self, alloc: Global) -> Result<Action, Memory>
        ensures { IfOk result (λ action. action ≡ self.now) }
    {
        match self {
            Action::Create(service, body) => {
                Ok(Action::Create(service.copy(alloc)?, body.copy(alloc)?))
            }
            Action::Modify(service, body) => {
                Ok(Action::Modify(service.copy(alloc)?, body.copy(alloc)?))
            }
            Action::Redeploy(service) => Ok(Action::Redeploy(service.copy(alloc)?)),
            Action::Delete(service) => Ok(Action::Delete(service.copy(alloc)?)),
            Action::Literal(name, writes) => {
                Ok(Action::Literal(name.copy(alloc)?, writes.copy(alloc)?))
            }
            Action::Set(put) => Ok(Action::Set(put.copy(alloc)?)),
            Action::Unset(path) => Ok(Action::Unset(path.copy(alloc)?)),
            Action::BasePut(put) => Ok(Action::BasePut(put.copy(alloc)?)),
            Action::BaseRemove(device, path) => {
                Ok(Action::BaseRemove(device.copy(alloc)?, path.copy(alloc)?))
            }
        }
    }
}

impl Copied for Action {
    fn copied(&self, alloc: Global) -> Result<Action, Memory> {
        self.copy(alloc)
    }
}

/// The most actions that a call may have.
pub const MOST_ACTIONS: usize = 64;

/// What a caller asks for: its actions in order, under a number of the caller's own.
#[derive(Debug, PartialEq, Eq)]
pub struct Call {
    pub caller: Text,
    pub number: u64,
    pub actions: Row<Action>,
}

// Written out, so that a crate above lets a call go by one of its own, and proves nothing of actions.
impl Drop for Call {
    fn drop(self) {
        let Call {
            caller: _,
            number: _,
            actions: _,
        } = self;
    }
}

impl Call {
    /// An equal value.
    pub fn copy(&self, alloc: Global) -> Result<Call, Memory>
        ensures { IfOk result (λ call. call ≡ self.now) }
    {
        Ok(Call {
            caller: self.caller.copy(alloc)?,
            number: self.number,
            actions: self.actions.copy(alloc)?,
        })
    }
}

impl Copied for Call {
    fn copied(&self, alloc: Global) -> Result<Call, Memory> {
        self.copy(alloc)
    }
}
