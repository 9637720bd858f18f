//! The kinds of keys.
ghost use Rattle.std.specs.Prelude.{◌≡◌, ◌++◌, ◌∷◌, [], option_map};
ghost use Rattle.orc_schema_nodes.specs.Schemas.{path_names};
ghost use Rattle.orc_typed.specs.Typed.{kind_of_names};

use orc_path::Step;
use orc_schema_nodes::Schema;
use orc_text::Text;
use orc_value::Kind;

/// The kind of the key of this name in an entry of the list at these steps.
pub(crate) fn kind_below<'a>(schema: &'a Schema, steps: &[Step], name: &Text) -> Option<&'a Kind>
    ensures { option_map (λ kind. kind.now) result
        ≡ kind_of_names schema.now (path_names steps.now ++ name.now ∷ []) }
{
    match schema.node_below(steps, name.as_str()) {
        Some(node) => node.kind(),
        None => None,
    }
}
