//! What users of a store rely on.
ghost use Rattle.orc_refs.specs.Live.{StoreIsOverlay};
ghost use Rattle.orc_refs.specs.Moves.{OneStore};

/// The tree of a store is its base overlaid with what its services write, one after the other in
/// any order, and the back pointers of a path are exactly the services that write it.
pub fn store_is_overlay()
    ensures { StoreIsOverlay }
{}

/// Moves and edits lead from a store to one other store alone: what services write and the base
/// leave nothing open.
pub fn moves_lead_to_one_store()
    ensures { OneStore }
{}
