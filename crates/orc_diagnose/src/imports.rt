//! The modules that a name with a prefix is of.
use crate::statements::{has_argument, sub_with};
use orc_text::Text;
use orc_yang::Stmt;

/// The module of a name's prefix, where this module imports it and it isn't among those of the line.
pub(crate) fn missing_module<'a>(
    modules: &[Stmt],
    module: &'a Stmt,
    name: &Text,
) -> Option<&'a Text> {
    let (prefix, _) = name.as_str().split_once(':')?;
    let imported = imported_by(module, prefix)?;
    let is_named = modules
        .iter()
        .any(|other| has_argument(other, imported.as_str()));
    (!is_named).then_some(imported)
}

// The module that another one imports by this prefix.
fn imported_by<'a>(module: &'a Stmt, prefix: &str) -> Option<&'a Text> {
    for statement in module.subs.as_slice() {
        if statement.keyword.as_str() == "import"
            && sub_with(statement, "prefix", prefix).is_some()
        {
            return statement.argument.as_ref();
        }
    }
    None
}
