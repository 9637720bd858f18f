//! What a canonical form is and keeps.
ghost use Rattle.orc_typed.specs.Laws.{CanonicalIsTyped, TypedIsCanonical, CanonicalKeeps};

/// The canonical form of what is in the schema may stand in a configuration.
pub fn canonical_is_typed()
    ensures { CanonicalIsTyped }
{}

/// What may stand in a configuration is its own canonical form.
pub fn typed_is_canonical()
    ensures { TypedIsCanonical }
{}

/// A canonical form has the same names, is in the schema and fits where what it is made of does, and
/// is made of keys and a value where that is.
pub fn canonical_keeps()
    ensures { CanonicalKeeps }
{}
