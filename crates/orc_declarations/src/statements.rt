//! Statements: copies, and the module that is built in.
ghost use Rattle.std.specs.Prelude.{◌≡◌, [], IfOk};
ghost use Rattle.orc_declarations.specs.Modules.{orc_module, device_list, with_argument};

use orc_schema::Looks;
use orc_text::{Copied, Memory, Row, Text};
use orc_yang::Stmt;
use std::alloc::Global;

/// An equal statement, within what may still be looked at.
pub(crate) fn copy(alloc: Global, statement: &Stmt, looks: &Looks) -> Result<Stmt, Memory>
    ensures { IfOk result (λ copy. copy ≡ statement.now) }
{
    looks.visit(1)?;
    let mut subs = Vec::with_capacity(alloc, statement.subs.len())?;
    for sub in statement.subs.as_slice() {
        subs.push(copy(alloc, sub, looks)?)?;
    }
    let keyword = statement.keyword.copy(alloc)?;
    let argument = Copied::copied(&statement.argument, alloc)?;
    Ok(Stmt {
        keyword,
        argument,
        subs: Row::from_vec(subs),
        at: statement.at,
    })
}

// A statement with an argument.
fn with_argument(
    alloc: Global,
    keyword: &str,
    argument: &str,
    subs: Row<Stmt>,
) -> Result<Stmt, Memory>
    ensures { IfOk result (λ made. made ≡ with_argument keyword.now argument.now subs) }
{
    Ok(Stmt {
        keyword: Text::from_str(alloc, keyword)?,
        argument: Some(Text::from_str(alloc, argument)?),
        subs,
        at: 0,
    })
}

// A statement with an argument and without a block.
fn bare(alloc: Global, keyword: &str, argument: &str) -> Result<Stmt, Memory>
    ensures { IfOk result (λ made. made ≡ with_argument keyword.now argument.now []) }
{
    with_argument(alloc, keyword, argument, Row::new(alloc))
}

// The list of the devices.
fn device_list(alloc: Global) -> Result<Stmt, Memory>
    ensures { IfOk result (λ made. made ≡ device_list) }
{
    let mut types = Row::new(alloc);
    types.push(bare(alloc, "type", "string")?)?;
    let mut nodes = Row::new(alloc);
    nodes.push(bare(alloc, "key", "name")?)?;
    nodes.push(with_argument(alloc, "leaf", "name", types)?)?;
    with_argument(alloc, "list", "device", nodes)
}

/// The module that is built in.
#[tactic(auto, unfolding(crate::specs::Modules::orc_module))]
pub(crate) fn orc_module(alloc: Global) -> Result<Stmt, Memory>
    ensures { IfOk result (λ made. made ≡ orc_module) }
{
    let mut nodes = Row::new(alloc);
    nodes.push(bare(alloc, "namespace", "urn:orc")?)?;
    nodes.push(bare(alloc, "prefix", "orc")?)?;
    nodes.push(device_list(alloc)?)?;
    with_argument(alloc, "module", "orc", nodes)
}
