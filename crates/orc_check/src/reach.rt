//! Places, and the nodes that are reached from them through containers.
ghost use Rattle.std.specs.Prelude.{◌≡◌, ◌≤◌, length, take, drop, option_map};
ghost use Rattle.orc_check.specs.Validity.{is_container, is_list, is_place, behind, goes_down};
ghost use Rattle.orc_check.specs.inside.Lent.{reached_names};

use orc_path::{Item, Path, Step};
use orc_schema_nodes::{Node, Schema};
use orc_text::Text;
use orc_typed::is_in_schema;

fn is_container(node: Option<&Node>) -> bool
    ensures { result ≡ is_container (option_map (λ found. found.now) node.entry) }
{
    match node {
        Some(Node::Container) => true,
        _ => false,
    }
}

fn is_list(node: Option<&Node>) -> bool
    ensures { result ≡ is_list (option_map (λ found. found.now) node.entry) }
{
    match node {
        Some(Node::List(_)) => true,
        _ => false,
    }
}

/// Whether a row is an entry of a list of the schema.
pub fn is_place(schema: &Schema, row: &(Path, Item)) -> bool
    ensures { result ≡ is_place schema.now row.now }
{
    is_in_schema(schema, &row.0, &row.1) && is_list(schema.node(row.0.steps.as_slice()))
}

/// The names after those of the steps, where they begin with these.
pub(crate) fn behind<'a>(steps: &[Step], names: &'a [Text]) -> Option<&'a [Text]>
    ensures { option_map (λ later. later.now) result ≡ behind steps.now names.now }
{
    match steps {
        [] => Some(names),
        [step, below @ ..] => match names {
            [] => None,
            [name, later @ ..] => {
                if step.node.as_str() == name.as_str() {
                    behind(below, later)
                } else {
                    None
                }
            }
        },
    }
}

/// Whether each of the names after the first ones but the last is that of a container, and there is
/// one.
pub(crate) fn goes_down(schema: &Schema, names: &[Text], above: usize) -> bool
    requires { above ≤ length names.now }
    ensures { result ≡ goes_down schema.now (take above names.now) (drop above names.now) }
{
    if above >= names.len() {
        return false;
    }
    if above + 1 == names.len() {
        return true;
    }
    is_container(schema.node_of_names(&names[..above + 1])) && goes_down(schema, names, above + 1)
}

/// The names after a place's, where the node of the names is reached from there.
pub(crate) fn reached<'a>(schema: &Schema, steps: &[Step], names: &'a [Text]) -> Option<&'a [Text]>
    ensures { option_map (λ later. later.now) result ≡ reached_names schema.now steps.now names.now }
{
    let Some(later) = behind(steps, names) else {
        return None;
    };
    if goes_down(schema, names, steps.len()) {
        Some(later)
    } else {
        None
    }
}
