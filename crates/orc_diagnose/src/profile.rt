//! What the profile of YANG leaves out (RFC 7950).
use crate::statements::sub_with;
use orc_text::{Memory, Text};
use orc_yang::Stmt;
use std::alloc::Global;

// The keywords of the statements of RFC 7950 that this profile leaves out wherever they stand.
const LEFT_OUT: &str =
    "anydata anyxml argument augment base belongs-to bit case choice deviate deviation error-app-tag extension \
     feature identity if-feature include input modifier must output pattern position presence refine \
     require-instance submodule unique when yin-element";

// Those of the statements that it has in some places.
const IN_PROFILE: &str =
    "module yang-version namespace prefix import typedef grouping uses container list leaf leaf-list config key \
     min-elements max-elements ordered-by mandatory default type range length enum value fraction-digits path rpc \
     action notification";

// The built-in types that it leaves out.
const TYPES_LEFT_OUT: &str = "binary bits identityref instance-identifier union";

/// Whether a keyword is that of a statement of RFC 7950 that this profile leaves out wherever it stands.
pub(crate) fn is_left_out(keyword: &str) -> bool {
    LEFT_OUT.split(' ').any(|word| word == keyword)
}

/// Whether a keyword is that of a statement that this profile has in some places.
pub(crate) fn is_in_profile(keyword: &str) -> bool {
    IN_PROFILE.split(' ').any(|word| word == keyword)
}

/// Whether a name is that of a built-in type that this profile leaves out.
pub(crate) fn is_left_out_type(name: &str) -> bool {
    TYPES_LEFT_OUT.split(' ').any(|word| word == name)
}

/// The names of what the profile leaves out of these that stand in a module, each once, but for this one.
pub(crate) fn left_out_in(alloc: Global, module: &Stmt, but: &Text) -> Result<Vec<Text>, Memory> {
    let mut found = Vec::new(alloc);
    find_left_out(&mut found, alloc, module, but)?;
    Ok(found)
}

// Adds what the profile leaves out of a statement and of those below it. What stands below a statement that isn't
// looked at, or goes with one that is left out, is passed over.
fn find_left_out(
    found: &mut Vec<Text>,
    alloc: Global,
    statement: &Stmt,
    but: &Text,
) -> Result<(), Memory> {
    if is_passed_over(statement) {
        return Ok(());
    }
    if is_left_out(statement.keyword.as_str()) {
        return add_once(found, alloc, &statement.keyword, but);
    }
    if let Some(name) = &statement.argument {
        if statement.keyword.as_str() == "type" && is_left_out_type(name.as_str()) {
            add_once(found, alloc, name, but)?;
        }
    }
    for sub in statement.subs.as_slice() {
        find_left_out(found, alloc, sub, but)?;
    }
    Ok(())
}

// Adds a name that isn't there yet, and isn't this one.
fn add_once(found: &mut Vec<Text>, alloc: Global, name: &Text, but: &Text) -> Result<(), Memory> {
    if *name == *but || found.iter().any(|other| *other == *name) {
        return Ok(());
    }
    found.push(name.copy(alloc)?)?;
    Ok(())
}

// Whether a statement isn't looked at: that of an extension, of an operation, or of a node that isn't configuration.
fn is_passed_over(statement: &Stmt) -> bool {
    match statement.keyword.as_str() {
        "rpc" | "action" | "notification" => true,
        keyword => has_prefix(keyword) || sub_with(statement, "config", "false").is_some(),
    }
}

/// Whether a name has a prefix.
pub(crate) fn has_prefix(name: &str) -> bool {
    name.as_bytes().iter().any(|byte| *byte == b':')
}
