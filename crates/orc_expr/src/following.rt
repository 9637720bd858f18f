//! Follows an expression part by part.
ghost use Rattle.std.specs.Prelude.{◌≡◌, ◌++◌, ◌∷◌, [], List, IfOk, OnOk};
ghost use Rattle.orc_path.specs.Steps.{PathStep};
ghost use Rattle.orc_expr.specs.Parts.{built_of};
ghost use Rattle.orc_expr.specs.Looks.{first_step, from_context, parent_at, parent_behind, step_down, ask, followed};
ghost use Rattle.orc_expr.specs.inside.Following.{Way, way_of, way_closed, way_behind};
ghost use Rattle.orc_expr.specs.declared.step.Reached.TheVariants.{Context};

use crate::alphabet::is_name_behind;
use crate::expr::Part;
use crate::looked::{Looked, unread};
use crate::looks::{leads, texts_at};
use crate::step::{Asked, LastStep, Reached};
use orc_path::{DataView, Name, Path, Step};
use orc_text::{Memory, Row, Text};
use std::alloc::Global;
use std::mem;

/// How far the expression before a bracket was followed, and the key after the bracket.
#[derive(Drop)]
pub(crate) struct Waiting {
    front: Reached,
    key: Name,
}

/// How far an expression was followed: the brackets that are open, the innermost last, and what
/// stands after them.
#[derive(Drop)]
pub(crate) struct Following {
    outer: Vec<Waiting>,
    now: Reached,
}

// A first step.
fn first_step(
    alloc: Global,
    parent: Path,
    places: Row<Path>,
    name: &Name,
) -> Result<Reached, Memory>
    ensures { IfOk result (λ followed. followed ≡ first_step parent places name.now) }
{
    Ok(Reached::Last(LastStep {
        parent,
        before: unread(alloc, places),
        name: name.copy(alloc)?,
        asked: Row::new(alloc),
    }))
}

/// The root.
pub(crate) fn root(alloc: Global) -> Path
    ensures { result ≡ [] }
{
    Path {
        steps: Row::new(alloc),
    }
}

// A step from the root.
fn from_root(alloc: Global, name: &Name) -> Result<Reached, Memory>
    ensures { IfOk result (λ followed. followed ≡ first_step [] ([] ∷ []) name.now) }
{
    let mut places = Row::new(alloc);
    places.push(root(alloc))?;
    first_step(alloc, root(alloc), places, name)
}

// A step from so many steps above the context.
fn from_context(alloc: Global, here: &Path, ups: u64, name: &Name) -> Result<Reached, Memory>
    ensures { IfOk result (λ followed. followed ≡ from_context here.now ups name.now) }
{
    let len = here.steps.len();
    if ups > len as u64 {
        return first_step(alloc, root(alloc), Row::new(alloc), name);
    }
    let above = here.first_steps(alloc, len - ups as usize)?;
    let mut places = Row::new(alloc);
    places.push(above.copy(alloc)?)?;
    first_step(alloc, above, places, name)
}

// The node of the schema that an expression leads to.
fn parent_at(alloc: Global, here: &Path, followed: &Reached) -> Result<Path, Memory>
    ensures { IfOk result (λ parent. parent ≡ parent_at here.now followed.now) }
{
    match followed {
        Reached::Context => here.copy(alloc),
        Reached::Given(_) => Ok(root(alloc)),
        Reached::Last(step) => parent_behind(alloc, &step.parent, &step.name),
    }
}

/// The node of the schema that a step leads to.
pub(crate) fn parent_behind(alloc: Global, parent: &Path, name: &Name) -> Result<Path, Memory>
    ensures { IfOk result (λ path. path ≡ parent_behind parent.now name.now) }
{
    if is_name_behind(parent, name) {
        let step = Step {
            node: name.copy(alloc)?,
            keys: Row::new(alloc),
        };
        parent.child(alloc, step)
    } else {
        Ok(root(alloc))
    }
}

// A step more.
fn step_down<V: DataView>(
    alloc: Global,
    view: &V,
    here: &Path,
    followed: Reached,
    name: &Name,
) -> Result<Reached, Memory>
    ensures { IfOk result (λ last. last ≡ step_down (V.viewed view.now) here.now followed name.now) }
{
    let parent = parent_at(alloc, here, &followed)?;
    let before = leads(alloc, view, here, followed)?;
    Ok(Reached::Last(LastStep {
        parent,
        before,
        name: name.copy(alloc)?,
        asked: Row::new(alloc),
    }))
}

// A predicate more at the last step.
fn ask(followed: Reached, key: Name, given: Looked<Text>) -> Result<Reached, Memory>
    ensures { IfOk result (λ asked. asked ≡ ask followed key given) }
{
    match followed {
        Reached::Last(mut step) => {
            step.asked.push(Asked { key, given })?;
            Ok(Reached::Last(step))
        }
        _ => Ok(followed),
    }
}

impl Following {
    // Stands there from now on. Where it stood is let go here alone.
    fn stand(&mut self, now: Reached)
        ensures { way_of self.new ≡ record (way_of self.old) { now = now } }
    {
        self.now = now;
    }

    // Opens a bracket after what was followed so far.
    fn open(&mut self, alloc: Global, key: &Name) -> Result<(), Memory>
        ensures { OnOk result (way_of self.new ≡ record {
          outer = (way_of self.old).outer ++ record { front = (way_of self.old).now; key = key.now } ∷ [];
          now = Context;
        }) }
    {
        let front = mem::replace(&mut self.now, Reached::Context);
        self.outer.push(Waiting {
            front,
            key: key.copy(alloc)?,
        })?;
        Ok(())
    }

    // Closes a bracket: the term after it is a predicate of what stands before it.
    fn close<V: DataView>(&mut self, alloc: Global, view: &V, here: &Path) -> Result<(), Memory>
        ensures { OnOk result
            (way_of self.new ≡ way_closed (V.viewed view.now) here.now (way_of self.old).outer (way_of self.old).now) }
    {
        match self.outer.pop() {
            Some(waiting) => {
                let term = mem::replace(&mut self.now, Reached::Context);
                let given = texts_at(alloc, view, here, term)?;
                self.now = ask(waiting.front, waiting.key, given)?;
                Ok(())
            }
            None => Ok(()),
        }
    }

    // Goes on by a part.
    fn take<V: DataView>(
        &mut self,
        alloc: Global,
        view: &V,
        here: &Path,
        part: &Part,
    ) -> Result<(), Memory>
        ensures { OnOk result
            (way_of self.new ≡ way_behind (V.viewed view.now) here.now (way_of self.old) part.now) }
    {
        match part {
            Part::Open(key) => self.open(alloc, key),
            Part::Close => self.close(alloc, view, here),
            Part::Here => {
                self.stand(Reached::Context);
                Ok(())
            }
            Part::FromRoot(name) => {
                self.stand(from_root(alloc, name)?);
                Ok(())
            }
            Part::FromContext(ups, name) => {
                self.stand(from_context(alloc, here, *ups, name)?);
                Ok(())
            }
            Part::Quoted(text) => {
                self.stand(Reached::Given(text.copy(alloc)?));
                Ok(())
            }
            Part::Below(name) => {
                let front = mem::replace(&mut self.now, Reached::Context);
                self.stand(step_down(alloc, view, here, front, name)?);
                Ok(())
            }
        }
    }
}

/// How far the parts of an expression lead from a context.
pub(crate) fn follow<V: DataView>(
    alloc: Global,
    view: &V,
    here: &Path,
    parts: &[Part],
) -> Result<Reached, Memory>
    ensures { IfOk result (λ last. last ≡ followed (V.viewed view.now) here.now (built_of parts.now).now) }
{
    let mut following = Following {
        outer: Vec::new(alloc),
        now: Reached::Context,
    };
    for part in parts {
        following.take(alloc, view, here, part)?;
    }
    Ok(following.now)
}
