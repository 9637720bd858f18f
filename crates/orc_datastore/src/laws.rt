//! What users and the crates above rely on, over whole histories. Each function does nothing: its
//! contract is the law. The laws that no code cites stand in `orc_laws`.
ghost use Rattle.orc_datastore.specs.Laws.{TreeIsConfiguration, TreeIsTyped, LiteralIsExpansion};

use orc_template::written_is_typed;

/// The tree of each device is a configuration: every entry on the way to an item is there.
pub fn tree_is_configuration()
    ensures { TreeIsConfiguration }
{
    written_is_typed();
}

/// Each item of the tree of each device may stand at its path under the device's schema.
pub fn tree_is_typed()
    ensures { TreeIsTyped }
{
    written_is_typed();
}

/// The literal service that an expanded action comes to holds on each device what the expansion wrote
/// there.
pub fn literal_is_expansion()
    ensures { LiteralIsExpansion }
{
    written_is_typed();
}
