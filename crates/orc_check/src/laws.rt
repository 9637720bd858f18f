//! What the least breach is, and what validity says of types.
ghost use Rattle.orc_check.specs.Laws.{LeastBreachIsLeast};
ghost use Rattle.orc_check.specs.TypedRows.{ValidIsTyped};

/// The least breach is one of the breaches, none is less, and there is one wherever there is any.
pub fn least_breach_is_least()
    ensures { LeastBreachIsLeast }
{}

/// Under a schema of modules each row of a configuration in which nothing is broken is typed: its item is
/// one of the schema, and each key of its path and its text are of their types and canonical. Where no row
/// breaks the rules `KIND` and `KEY`, each is typed; and where each is, none breaks them.
pub fn valid_is_typed()
    ensures { ValidIsTyped }
{}
