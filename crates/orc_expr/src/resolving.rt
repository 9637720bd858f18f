//! Where an expression leads in a schema.
ghost use Rattle.std.specs.Prelude.{◌≡◌, ◌++◌, ◌∷◌, [], Some, IfOk, OnOk, option_map};
ghost use Rattle.std.specs.declared.option.Option.TheVariants.{None};
ghost use Rattle.orc_expr.specs.Parts.{built_of, expression_of};
ghost use Rattle.orc_expr.specs.Looks.{parent_behind};
ghost use Rattle.orc_expr.specs.Resolved.{names_each_key, fits_shape, first_led, led_up, led_down, naming, led_node, resolving, resolved};
ghost use Rattle.orc_expr.specs.inside.Resolving.{Trail, trail_of, trail_closed, trail_behind};
ghost use Rattle.orc_expr.specs.declared.resolving.Led.TheVariants as led;

use crate::expr::{Expr, Part};
use crate::following::{parent_behind, root};
use orc_path::{DataView, Name, Path, Shape};
use orc_text::{Memory, Row, Text};
use std::alloc::Global;
use std::mem;

/// The last step of an expression in a schema: the node above it, the name of the one that it leads
/// to, and the keys that its predicates name.
pub(crate) struct NodeStep {
    pub(crate) parent: Path,
    pub(crate) name: Name,
    pub(crate) named: Row<Name>,
}

// Written out, so that each exit that lets a step go does so by one call.
impl Drop for NodeStep {
    fn drop(self) {
        let NodeStep {
            parent: _,
            name: _,
            named: _,
        } = self;
    }
}

/// How far an expression leads in a schema: it is the context, a text in quotes, or has a last step.
#[derive(Drop)]
pub(crate) enum Led {
    Context,
    Given,
    Last(NodeStep),
}

/// How far the expression before a bracket leads, and the key after the bracket.
#[derive(Drop)]
pub(crate) struct Pending {
    front: Option<Led>,
    key: Name,
}

/// How far an expression leads: the brackets that are open, the innermost last, and what stands
/// after them. `None` is where something isn't in the schema.
#[derive(Drop)]
pub(crate) struct Resolving {
    outer: Vec<Pending>,
    now: Option<Led>,
}

// Whether predicates name each key once, in the order of the keys.
fn names_each_key(keys: &[Text], named: &[Name]) -> bool
    ensures { result ≡ names_each_key keys.now named.now }
{
    let mut rest = named;
    for key in keys {
        match rest.split_first() {
            Some((next, more)) => {
                if next.as_str() != key.as_str() {
                    return false;
                }
                rest = more;
            }
            None => return false,
        }
    }
    rest.is_empty()
}

// Whether predicates that name these keys may stand at a node.
fn fits_shape(shape: &Shape, named: &[Name]) -> bool
    ensures { result ≡ fits_shape shape.now named.now }
{
    match shape {
        Shape::Absent => false,
        Shape::List(keys) => named.is_empty() || names_each_key(keys.as_slice(), named),
        Shape::Container => named.is_empty(),
        Shape::Leaf(_) => named.is_empty(),
        Shape::Key(_) => named.is_empty(),
        Shape::LeafList => named.is_empty(),
    }
}

// A step below a node.
fn first_led(alloc: Global, parent: Path, name: &Name) -> Result<Led, Memory>
    ensures { IfOk result (λ made. made ≡ first_led parent name.now) }
{
    Ok(Led::Last(NodeStep {
        parent,
        name: name.copy(alloc)?,
        named: Row::new(alloc),
    }))
}

// A step from so many steps above the context, where there are so many.
fn led_up(alloc: Global, here: &Path, ups: u64, name: &Name) -> Result<Option<Led>, Memory>
    ensures { IfOk result (λ made. made ≡ led_up here.now ups name.now) }
{
    let len = here.steps.len();
    if ups > len as u64 {
        return Ok(None);
    }
    let above = here.first_steps(alloc, len - ups as usize)?;
    Ok(Some(first_led(alloc, above, name)?))
}

// The node that a last step leads to, where it is in the schema.
fn led_step<V: DataView>(alloc: Global, view: &V, step: &NodeStep) -> Result<Option<Path>, Memory>
    ensures { IfOk result
        (λ node. node ≡ led_node (V.viewed view.now).shapes [] (Some (led.Last step.now))) }
{
    let shape = view.shape(alloc, &step.parent, &step.name)?;
    if fits_shape(&shape, step.named.as_slice()) {
        Ok(Some(parent_behind(alloc, &step.parent, &step.name)?))
    } else {
        Ok(None)
    }
}

// The node that an expression leads to, where each name is in the schema.
fn led_node<V: DataView>(
    alloc: Global,
    view: &V,
    here: &Path,
    reached: &Option<Led>,
) -> Result<Option<Path>, Memory>
    ensures { IfOk result
        (λ node. node ≡ led_node (V.viewed view.now).shapes here.now reached.now) }
{
    match reached {
        None => Ok(None),
        Some(Led::Context) => Ok(Some(here.copy(alloc)?)),
        Some(Led::Given) => Ok(Some(root(alloc))),
        Some(Led::Last(step)) => led_step(alloc, view, step),
    }
}

// A step more.
fn led_down(alloc: Global, parent: Option<Path>, name: &Name) -> Result<Option<Led>, Memory>
    ensures { IfOk result (λ made. made ≡ led_down parent name.now) }
{
    match parent {
        Some(parent) => Ok(Some(first_led(alloc, parent, name)?)),
        None => Ok(None),
    }
}

// A predicate more at the last step, where its term is in the schema.
fn naming(front: Option<Led>, key: Name, term: Option<Path>) -> Result<Option<Led>, Memory>
    ensures { IfOk result (λ made. made ≡ naming front key term) }
{
    match term {
        None => Ok(None),
        Some(_node) => match front {
            Some(Led::Last(mut step)) => {
                step.named.push(key)?;
                Ok(Some(Led::Last(step)))
            }
            _ => Ok(front),
        },
    }
}

impl Resolving {
    // Stands there from now on. Where it stood is let go here alone.
    fn stand(&mut self, now: Option<Led>)
        ensures { trail_of self.new ≡ record (trail_of self.old) { now = now } }
    {
        self.now = now;
    }

    // Opens a bracket after what was resolved so far.
    fn open(&mut self, alloc: Global, key: &Name) -> Result<(), Memory>
        ensures { OnOk result (trail_of self.new ≡ record {
          outer = (trail_of self.old).outer ++ record { front = (trail_of self.old).now; key = key.now } ∷ [];
          now = Some led.Context;
        }) }
    {
        let front = mem::replace(&mut self.now, Some(Led::Context));
        self.outer.push(Pending {
            front,
            key: key.copy(alloc)?,
        })?;
        Ok(())
    }

    // Closes a bracket: the term after it is a predicate of what stands before it.
    fn close<V: DataView>(&mut self, alloc: Global, view: &V, here: &Path) -> Result<(), Memory>
        ensures { OnOk result (trail_of self.new ≡ trail_closed (V.viewed view.now).shapes here.now
            (trail_of self.old).outer (trail_of self.old).now) }
    {
        match self.outer.pop() {
            Some(pending) => {
                let term = led_node(alloc, view, here, &self.now)?;
                self.now = naming(pending.front, pending.key, term)?;
                Ok(())
            }
            None => Ok(()),
        }
    }

    // Goes on by a part.
    fn take<V: DataView>(
        &mut self,
        alloc: Global,
        view: &V,
        here: &Path,
        part: &Part,
    ) -> Result<(), Memory>
        ensures { OnOk result (trail_of self.new
            ≡ trail_behind (V.viewed view.now).shapes here.now (trail_of self.old) part.now) }
    {
        match part {
            Part::Open(key) => self.open(alloc, key),
            Part::Close => self.close(alloc, view, here),
            Part::Here => {
                self.stand(Some(Led::Context));
                Ok(())
            }
            Part::FromRoot(name) => {
                self.stand(Some(first_led(alloc, root(alloc), name)?));
                Ok(())
            }
            Part::FromContext(ups, name) => {
                self.stand(led_up(alloc, here, *ups, name)?);
                Ok(())
            }
            Part::Quoted(_text) => {
                self.stand(Some(Led::Given));
                Ok(())
            }
            Part::Below(name) => {
                let parent = led_node(alloc, view, here, &self.now)?;
                self.stand(led_down(alloc, parent, name)?);
                Ok(())
            }
        }
    }
}

// How far the parts of an expression lead from a node.
fn resolve_parts<V: DataView>(
    alloc: Global,
    view: &V,
    here: &Path,
    parts: &[Part],
) -> Result<Option<Led>, Memory>
    ensures { IfOk result
        (λ last. last ≡ resolving (V.viewed view.now).shapes here.now (built_of parts.now).now) }
{
    let mut resolving = Resolving {
        outer: Vec::new(alloc),
        now: Some(Led::Context),
    };
    for part in parts {
        resolving.take(alloc, view, here, part)?;
    }
    Ok(resolving.now)
}

impl Expr {
    /// The node of the schema to which the expression leads from a node of it, as the path of its
    /// names. `None` comes exactly where a name isn't in the schema, the predicates of a step don't
    /// name each key of its list in order, or `..` leads above the root. Keys of the context don't
    /// matter, and no item is looked at.
    pub fn resolve<V: DataView>(
        &self,
        alloc: Global,
        view: &V,
        here: &Path,
    ) -> Result<Option<Path>, Memory>
        ensures { IfOk result
            (λ node. node ≡ resolved (V.viewed view.now).shapes here.now (expression_of self.now)) }
    {
        let reached = resolve_parts(alloc, view, here, self.parts.as_slice())?;
        led_node(alloc, view, here, &reached)
    }
}
