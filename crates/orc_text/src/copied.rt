//! Values of which an equal one can be made.
ghost use Rattle.std.specs.Prelude.{◌≡◌, IfOk};

use crate::Memory;
use std::alloc::Global;

/// A value of which an equal one can be made. It lets a `Row` of any such values be copied.
pub trait Copied {
    /// An equal value, unless memory runs out.
    fn copied(&self, alloc: Global) -> Result<Self, Memory>
        ensures { IfOk result (λ copy. copy ≡ self.now) };
}

impl Copied for u8 {
    fn copied(&self, _: Global) -> Result<u8, Memory> {
        Ok(*self)
    }
}

impl Copied for u16 {
    fn copied(&self, _: Global) -> Result<u16, Memory> {
        Ok(*self)
    }
}

impl Copied for u32 {
    fn copied(&self, _: Global) -> Result<u32, Memory> {
        Ok(*self)
    }
}

impl Copied for u64 {
    fn copied(&self, _: Global) -> Result<u64, Memory> {
        Ok(*self)
    }
}

impl Copied for usize {
    fn copied(&self, _: Global) -> Result<usize, Memory> {
        Ok(*self)
    }
}

impl Copied for bool {
    fn copied(&self, _: Global) -> Result<bool, Memory> {
        Ok(*self)
    }
}

impl<A: Copied + Drop, B: Copied + Drop> Copied for (A, B) {
    fn copied(&self, alloc: Global) -> Result<(A, B), Memory> {
        let first = self.0.copied(alloc)?;
        Ok((first, self.1.copied(alloc)?))
    }
}

impl<T: Copied> Copied for Option<T> {
    fn copied(&self, alloc: Global) -> Result<Option<T>, Memory> {
        match self {
            Some(value) => Ok(Some(value.copied(alloc)?)),
            None => Ok(None),
        }
    }
}
