//! The names by which a line is looked up, in the forms in which they are at hand, and how a line's
//! names stand to them.
ghost use Rattle.std.specs.Prelude.{◌≡◌, ◌++◌, ◌∷◌, [], option_copied, slice_get};
ghost use Rattle.orc_schema_nodes.specs.Names.{names_cmp};
ghost use Rattle.orc_schema_nodes.specs.Schemas.{path_names};
ghost use Rattle.orc_schema_nodes.specs.inside.Fronts.{Shares};

use orc_path::Step;
use orc_text::Text;
use std::cmp::Ordering;

// Names from the top down that a line is to have.
pub(crate) trait Sought {
    ghost use Rattle.std.specs.Prelude.{◌≡◌, List, ℕ, option_copied, slice_get};

    ghost names: { Self → List (List ℕ) };

    // The name at a place, counted from 0, if there are so many.
    fn name_at(&self, place: usize) -> Option<&str>
        ensures { option_copied result ≡ slice_get (names self.now) place };
}

// The names of steps.
#[derive(Drop)]
pub(crate) struct OfSteps<'a> {
    pub(crate) steps: &'a [Step],
}

impl<'a> Sought for OfSteps<'a> {
    ghost use Rattle.orc_schema_nodes.specs.Schemas.{path_names};

    ghost names = { λ sought. path_names sought.steps.now };

    fn name_at(&self, place: usize) -> Option<&str> {
        step_name(self.steps, place)
    }
}

// The names of steps, and one after them.
#[derive(Drop)]
pub(crate) struct BelowSteps<'a> {
    pub(crate) steps: &'a [Step],
    pub(crate) last: &'a str,
}

impl<'a> Sought for BelowSteps<'a> {
    ghost use Rattle.std.specs.Prelude.{◌++◌, ◌∷◌, []};
    ghost use Rattle.orc_schema_nodes.specs.Schemas.{path_names};

    ghost names = { λ sought. path_names sought.steps.now ++ sought.last.now ∷ [] };

    fn name_at(&self, place: usize) -> Option<&str> {
        name_below(self.steps, self.last, place)
    }
}

// Names in a list.
#[derive(Drop)]
pub(crate) struct Listed<'a> {
    pub(crate) names: &'a [Text],
}

impl<'a> Sought for Listed<'a> {
    ghost names = { λ sought. sought.names.now };

    fn name_at(&self, place: usize) -> Option<&str> {
        text_at(self.names, place)
    }
}

// The name of the step at a place.
fn step_name(steps: &[Step], place: usize) -> Option<&str>
    ensures { option_copied result ≡ slice_get (path_names steps.now) place }
{
    if place < steps.len() {
        let step = &steps[place];
        return Some(step.node.as_str());
    }
    None
}

// The name at a place among those of steps with one after them.
fn name_below<'a>(steps: &'a [Step], last: &'a str, place: usize) -> Option<&'a str>
    ensures { option_copied result ≡ slice_get (path_names steps.now ++ last.now ∷ []) place }
{
    if place < steps.len() {
        let step = &steps[place];
        return Some(step.node.as_str());
    }
    if place == steps.len() {
        return Some(last);
    }
    None
}

// The text at a place.
fn text_at(texts: &[Text], place: usize) -> Option<&str>
    ensures { option_copied result ≡ slice_get texts.now place }
{
    if place < texts.len() {
        return Some(texts[place].as_str());
    }
    None
}

// The order of a line's names and those that are sought, of which the first `shared` are known to
// be the same; and how many first names are the same.
pub(crate) fn order_from<T: Sought>(names: &[Text], sought: &T, shared: usize) -> (Ordering, usize)
    requires { Shares shared names.now (T.names sought.now) }
    ensures order { result.0 ≡ names_cmp names.now (T.names sought.now) }
    ensures shared { Shares result.1 names.now (T.names sought.now) }
{
    let mut place = shared;
    while place < names.len() {
        match sought.name_at(place) {
            Some(name) => match names[place].as_str().cmp(name) {
                Ordering::Less => return (Ordering::Less, place),
                Ordering::Equal => place += 1,
                Ordering::Greater => return (Ordering::Greater, place),
            },
            None => return (Ordering::Greater, place),
        }
    }
    match sought.name_at(place) {
        Some(_) => (Ordering::Less, place),
        None => (Ordering::Equal, place),
    }
}
