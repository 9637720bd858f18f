//! The rules that a configuration keeps, in their order.

/// An item is one of the schema, and a leaf's text is the canonical one of a value of its type.
pub const KIND: u8 = 1;

/// The keys of an entry are canonical texts of values of their leaves' types.
pub const KEY: u8 = 2;

/// A mandatory leaf is present in the root, or in each entry, from which it is reached.
pub const MANDATORY: u8 = 3;

/// A list or a leaf-list has at least so many entries (`min-elements`).
pub const MIN_ELEMENTS: u8 = 4;

/// A list or a leaf-list has at most so many entries (`max-elements`).
pub const MAX_ELEMENTS: u8 = 5;

/// A leafref has the text of an instance of its target.
pub const LEAFREF: u8 = 6;
