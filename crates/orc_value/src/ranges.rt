//! Ranges of numbers and of lengths.
ghost use Rattle.std.specs.Prelude.{◌≡◌, IsTrue, IfOk, int_le, nat_le};
ghost use Rattle.orc_value.specs.Ranges.{stand_apart};

use orc_text::{Copied, Memory, Row};
use std::alloc::Global;
use std::marker::Model;

/// Ranges of numbers, each a least and a greatest one: none is empty, and each ends below those
/// after it.
#[derive(Debug, PartialEq, Eq, Drop)]
pub struct Ranges {
    ranges: Row<(i128, i128)>,
}

impl Model for Ranges {
    ghost use Rattle.std.specs.Prelude.{List, ℤ, int_le, IsTrue};
    ghost use Rattle.orc_value.specs.Ranges.{stand_apart};

    ghost Value = { List (ℤ × ℤ) };

    ghost view = { λ numbers. numbers.ranges };

    ghost invariant = { λ numbers. IsTrue (stand_apart int_le numbers.ranges) };

    ghost inverse = { λ value. record { ranges = value } };
}

/// Ranges of lengths, each a least and a greatest one: none is empty, and each ends below those
/// after it.
#[derive(Debug, PartialEq, Eq, Drop)]
pub struct Lengths {
    ranges: Row<(u64, u64)>,
}

impl Model for Lengths {
    ghost use Rattle.std.specs.Prelude.{List, ℕ, nat_le, IsTrue};
    ghost use Rattle.orc_value.specs.Ranges.{stand_apart};

    ghost Value = { List (ℕ × ℕ) };

    ghost view = { λ lengths. lengths.ranges };

    ghost invariant = { λ lengths. IsTrue (stand_apart nat_le lengths.ranges) };

    ghost inverse = { λ value. record { ranges = value } };
}

impl Ranges {
    /// These ranges.
    pub fn from_row(ranges: Row<(i128, i128)>) -> Ranges
        requires { IsTrue (stand_apart int_le ranges) }
        ensures { result ≡ ranges }
    {
        Ranges { ranges }
    }

    /// The ranges.
    pub fn as_slice(&self) -> &[(i128, i128)]
        ensures ranges { result.now ≡ self.now }
        ensures apart { IsTrue (stand_apart int_le self.now) }
    {
        self.ranges.as_slice()
    }

    /// Equal ranges.
    pub fn copy(&self, alloc: Global) -> Result<Ranges, Memory>
        ensures { IfOk result (λ copy. copy ≡ self.now) }
    {
        Ok(Ranges {
            ranges: Row::from_vec(Vec::from_slice(alloc, self.ranges.as_slice())?),
        })
    }
}

impl Copied for Ranges {
    fn copied(&self, alloc: Global) -> Result<Ranges, Memory> {
        self.copy(alloc)
    }
}

impl Lengths {
    /// These ranges.
    pub fn from_row(ranges: Row<(u64, u64)>) -> Lengths
        requires { IsTrue (stand_apart nat_le ranges) }
        ensures { result ≡ ranges }
    {
        Lengths { ranges }
    }

    /// The ranges.
    pub fn as_slice(&self) -> &[(u64, u64)]
        ensures ranges { result.now ≡ self.now }
        ensures apart { IsTrue (stand_apart nat_le self.now) }
    {
        self.ranges.as_slice()
    }

    /// Equal ranges.
    pub fn copy(&self, alloc: Global) -> Result<Lengths, Memory>
        ensures { IfOk result (λ copy. copy ≡ self.now) }
    {
        Ok(Lengths {
            ranges: Row::from_vec(Vec::from_slice(alloc, self.ranges.as_slice())?),
        })
    }
}

impl Copied for Lengths {
    fn copied(&self, alloc: Global) -> Result<Lengths, Memory> {
        self.copy(alloc)
    }
}
