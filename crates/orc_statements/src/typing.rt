//! The type of the leaf, leaf-list or typedef at a place.
ghost use Rattle.std.specs.Prelude.{◌≡◌, IfOk};
ghost use Rattle.orc_modules.specs.Stack.{stack, modules_of};
ghost use Rattle.orc_statements.specs.Arguments.{typed, typed_around};

use orc_modules::{Above, Modules, Typed, type_in};
use orc_text::Memory;
use orc_yang::Stmt;
use std::alloc::Global;

/// The type of a leaf, a leaf-list or a typedef; none where that type is at fault itself.
pub fn typed(
    alloc: Global,
    modules: &Modules<'_>,
    above: &Above<'_, '_>,
    stmt: &Stmt,
) -> Result<Option<Typed>, Memory>
    ensures { IfOk result (λ found. found ≡ typed (modules_of modules.now) (stack above.now) stmt.now) }
{
    type_in(alloc, &*modules, &*above, &*stmt)
}

// That of the statement around.
pub(crate) fn typed_around(
    alloc: Global,
    modules: &Modules<'_>,
    above: &Above<'_, '_>,
) -> Result<Option<Typed>, Memory>
    ensures { IfOk result (λ found. found ≡ typed_around (modules_of modules.now) (stack above.now)) }
{
    match above {
        Above::Top => Ok(None),
        Above::Module(stmt) => typed(alloc, modules, &Above::Top, *stmt),
        Above::Under(stmt, outer) => typed(alloc, modules, *outer, *stmt),
        Above::Indexed(block, outer) => typed(alloc, modules, *outer, block.here()),
    }
}
