//! What the definitions make sure of: each law is the contract of a function that does nothing.
ghost use Rattle.orc_schema.specs.Laws.{FirstFaultIsLeast, FirstLinkFaultIsLeast, NodesStandForStatements, DepthIsNoLimit, NamesDiffer, OrderIsFree, NodesMakeOneTable, SchemasAreSound, PlainIsSound};

/// The fault of modules is that of their first faulty statement in the order of the text.
pub fn first_fault_is_least()
    ensures { FirstFaultIsLeast }
{}

/// The fault of leafrefs is that of the first faulty one, in the order of the text with each `uses`
/// replaced by what its grouping defines.
pub fn first_link_fault_is_least()
    ensures { FirstLinkFaultIsLeast }
{}

/// Each node that modules define stands for one of their statements, at whatever depth it stands in
/// them.
pub fn nodes_stand_for_statements()
    ensures { NodesStandForStatements }
{}

/// Where nodes and groupings stand in one another no deeper than a number, a greater one finds
/// nothing more.
pub fn depth_is_no_limit()
    ensures { DepthIsNoLimit }
{}

/// No two lines of a schema have the same names.
pub fn names_differ()
    ensures { NamesDiffer }
{}

/// The order of a block's statements is free, with what names mean held fast: two that stand beside
/// one another may change places, where each name is looked up in the modules as they were.
pub fn order_is_free()
    ensures { OrderIsFree }
{}

/// The order in which nodes come makes no other schema.
pub fn nodes_make_one_table()
    ensures { NodesMakeOneTable }
{}

/// The schema of modules is sound, where nothing of them was cut off; and so is the plain one.
pub fn schemas_are_sound()
    ensures modules { SchemasAreSound }
    ensures plain { PlainIsSound }
{}
