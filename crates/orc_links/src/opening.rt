//! The devices as a run begins.
ghost use Rattle.std.specs.Prelude.{◌≡◌, [], true, map, IfOk, IsTrue};
ghost use Rattle.orc_check.specs.Acceptance.{accepts};
ghost use Rattle.orc_decls.specs.Declarations.{AreDecls, accept_of};
ghost use Rattle.orc_decls.specs.Openings.{declared_base, fits_puts};
ghost use Rattle.orc_rules.specs.Worlds.{declared};
ghost use Rattle.orc_links.specs.Networks.{AreAccepted, link_of_device, links_at_first};

use crate::links::Links;
use orc_check::Accept;
use orc_decls::{Decls, Device, declared_base};
use orc_device::Logged;
use orc_node::{Link, Node, NodeFault};
use orc_text::{Memory, Row};
use orc_tree::Tree;
use std::alloc::Global;

// A link to a device that runs its base, which it accepts.
fn link_to(alloc: Global, base: Tree, accept: Accept) -> Result<Link, Memory>
    requires { accepts accept base ≡ true }
    ensures { IfOk result (λ link. link ≡ link_of_device base accept) }
{
    match Node::new(alloc, base, accept) {
        Ok(node) => Ok(Link::over(alloc, node)),
        Err(NodeFault::Memory) => Err(Memory),
        Err(NodeFault::NotAccepted) => unreachable!(),
    }
}

// The link to a device as it is declared.
fn link_of(alloc: Global, device: &Device, accept: Accept) -> Result<Link, Memory>
    requires base { IsTrue (fits_puts device.now.base) }
    requires accepted { accepts accept (declared_base device.now) ≡ true }
    ensures { IfOk result (λ link. link ≡ link_of_device (declared_base device.now) accept) }
{
    let base = declared_base(alloc, device)?;
    link_to(alloc, base, accept)
}

// The links to the devices, which accept this.
fn links_of(alloc: Global, decls: &Decls, accepts: Vec<Accept>) -> Result<Row<Link>, Memory>
    requires { AreAccepted decls.now.schemas decls.now.devices accepts.items }
    ensures { IfOk result (λ links. links ≡ links_at_first decls.now) }
{
    let mut links = Row::new(alloc);
    let mut rest = decls.devices();
    for accept in accepts {
        match rest {
            [device, more @ ..] => {
                links.push(link_of(alloc, device, accept)?)?;
                rest = more;
            }
            [] => unreachable!(),
        }
    }
    Ok(links)
}

// An empty log for each device.
fn empty_logs(alloc: Global, decls: &Decls) -> Result<Row<Row<Logged>>, Memory>
    ensures { IfOk result (λ logs. logs ≡ map (λ device. []) (declared decls.now)) }
{
    let mut logs = Row::new(alloc);
    for _place in 0..decls.names().len() {
        logs.push(Row::new(alloc))?;
    }
    Ok(logs)
}

impl Links {
    /// The links to the declared devices, each of which runs its base, and accepts what is declared of
    /// it. Nothing was performed yet.
    pub fn open(alloc: Global, decls: &Decls, accepts: Vec<Accept>) -> Result<Links, Memory>
        requires decls { AreDecls decls.now }
        requires accepts { accepts.items ≡ map (accept_of decls.now.schemas) decls.now.devices }
        ensures links { IfOk result (λ opened. opened.links ≡ links_at_first decls.now) }
        ensures logs { IfOk result (λ opened. opened.logs ≡ map (λ device. []) (declared decls.now)) }
    {
        let logs = empty_logs(alloc, decls)?;
        let links = links_of(alloc, decls, accepts)?;
        Ok(Links { links, logs })
    }
}
