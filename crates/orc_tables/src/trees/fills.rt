//! Many leaves in an order: the leaf of the number 7 is `/if:m007`.
use crate::line::first_word;
use crate::undone::Undone;
use orc_path::Path;
use std::alloc::Global;

// How far the next number of a mixed order is from the one before.
const STRIDE: usize = 37;

/// The order of the numbers below a count.
#[derive(Clone, Copy)]
pub(crate) enum Order {
    /// From 0 on.
    Up,
    /// Down to 0.
    Down,
    /// Each of them once, in leaps, where the count and the stride have no common factor.
    Mixed,
}

impl Order {
    // The order that is called `up`, `down` or `mixed`.
    fn named(name: &str) -> Result<Order, Undone> {
        match name {
            "up" => Ok(Order::Up),
            "down" => Ok(Order::Down),
            "mixed" => Ok(Order::Mixed),
            _ => Err(Undone),
        }
    }

    /// The count and the order of `COUNT ORDER`.
    pub(crate) fn of_line(text: &str) -> Result<(usize, Order), Undone> {
        let (count, order) = first_word(text);
        let order = Order::named(order)?;
        Ok((count.parse()?, order))
    }

    /// The number at a place of the order.
    pub(crate) fn at(self, place: usize, count: usize) -> usize {
        match self {
            Order::Up => place,
            Order::Down => count.saturating_sub(place).saturating_sub(1),
            Order::Mixed => place.saturating_mul(STRIDE).checked_rem(count).unwrap_or(0),
        }
    }
}

/// The path of the leaf with a number.
pub(crate) fn leaf_path(alloc: Global, number: usize) -> Result<Path, Undone> {
    let text = format!(in alloc; "/if:m{number:03}")?;
    Ok(Path::parse(alloc, text.as_str())?)
}
