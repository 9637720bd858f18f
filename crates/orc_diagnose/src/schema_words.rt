//! What is said of a fault of modules, by the statement at which it is.
use crate::profile::{has_prefix, is_in_profile, is_left_out, is_left_out_type};
use crate::statements::has_argument;
use orc_schema::SchemaFault;
use orc_text::Text;
use orc_yang::Stmt;

/// The keyword or the name of which a fault speaks; none where memory ran out.
pub(crate) fn name_in(fault: &SchemaFault) -> Option<&Text> {
    match fault {
        SchemaFault::Unsupported { keyword } => Some(keyword),
        SchemaFault::Unknown { name } => Some(name),
        SchemaFault::Duplicate { name } => Some(name),
        SchemaFault::BadArgument { keyword } => Some(keyword),
        SchemaFault::NoKey { list } => Some(list),
        SchemaFault::Loop { name } => Some(name),
        SchemaFault::Memory => None,
    }
}

/// Whether a fault at a `type` is that of a statement below it, by the keyword of which it speaks.
pub(crate) fn is_below(fault: &SchemaFault, statement: &Stmt) -> bool {
    match fault {
        SchemaFault::Unsupported { keyword } => statement.keyword != *keyword,
        SchemaFault::BadArgument { keyword } => statement.keyword != *keyword,
        _ => false,
    }
}

/// The name of what the profile leaves out, where that is the fault at this statement.
pub(crate) fn left_out_name<'a>(fault: &'a SchemaFault, statement: &Stmt) -> Option<&'a Text> {
    match fault {
        SchemaFault::Unsupported { keyword } => is_left_out(keyword.as_str()).then_some(keyword),
        _ => match unknown_name(fault, statement) {
            Some(name) => is_left_out_type(name.as_str()).then_some(name),
            None => None,
        },
    }
}

/// The name with which a `type` or a `uses` refers to what nothing has, where that is the fault at this statement.
pub(crate) fn unknown_name<'a>(fault: &'a SchemaFault, statement: &Stmt) -> Option<&'a Text> {
    match fault {
        SchemaFault::Unknown { name } => has_argument(statement, name.as_str()).then_some(name),
        _ => None,
    }
}

/// What a fault at this statement says of its keyword or name.
pub(crate) fn statement_words(fault: &SchemaFault, statement: &Stmt) -> &'static str {
    match fault {
        SchemaFault::Unsupported { keyword } => unsupported_words(keyword.as_str()),
        SchemaFault::Unknown { name } => unknown_words(name, statement),
        SchemaFault::Duplicate { name } => duplicate_words(name, statement),
        SchemaFault::BadArgument { keyword } => argument_words(keyword.as_str()),
        SchemaFault::NoKey { .. } => "is a list without a key.",
        _ => "leads back to itself.",
    }
}

// What is said of a statement of this keyword where it may not stand.
fn unsupported_words(keyword: &str) -> &'static str {
    if is_left_out(keyword) {
        "is a statement of YANG that this profile leaves out."
    } else if is_in_profile(keyword) {
        "is a statement that may not stand where it stands in this profile of YANG."
    } else {
        "is no statement of YANG (RFC 7950)."
    }
}

// What is said of a name that this statement refers to and nothing has.
fn unknown_words(name: &Text, statement: &Stmt) -> &'static str {
    match statement.keyword.as_str() {
        "type" => unknown_type_words(name, statement),
        "uses" => unknown_grouping_words(name),
        "key" => "is no leaf of the list.",
        _ => "is a name that is not known there.",
    }
}

// What is said of an unknown name in a `type`: the type's own name, or one that stands below it.
fn unknown_type_words(name: &Text, statement: &Stmt) -> &'static str {
    if !has_argument(statement, name.as_str()) {
        "is no name of the enumeration that is restricted, or has a prefix that no module of the line has."
    } else if is_left_out_type(name.as_str()) {
        "is a built-in type of YANG that this profile leaves out."
    } else if has_prefix(name.as_str()) {
        "is no type that is known there: the module imports that of the prefix, and the line names both."
    } else {
        "is no type that is known there."
    }
}

// What is said of an unknown name in a `uses`.
fn unknown_grouping_words(name: &Text) -> &'static str {
    if has_prefix(name.as_str()) {
        "is no grouping that is known there: the module imports that of the prefix, and the line names both."
    } else {
        "is no grouping that is known there."
    }
}

// What is said of a name that is there already at this statement.
fn duplicate_words(name: &Text, statement: &Stmt) -> &'static str {
    if statement.keyword != *name {
        "is there already."
    } else if has_argument(statement, name.as_str()) {
        "is there already, or is a statement that may stand once."
    } else {
        "stands there already, and is a statement that may stand once."
    }
}

// What is said of a statement of this keyword whose argument, or what stands below, is at fault.
fn argument_words(keyword: &str) -> &'static str {
    match keyword {
        "leaf" => {
            "has a name that is none, lacks its `type`, or has a type whose default is no value of it here."
        }
        "default" =>
            "has no argument or one that is no value of the type, or its leaf is mandatory.",
        "key" => "has an argument that is not of its form, or names a leaf of the type `empty`.",
        "type" => {
            "has an argument that is not of its form, or lacks a statement that it needs: `path`, `enum` or \
             `fraction-digits`."
        }
        "range" | "length" => {
            "has an argument that is not of its form, or that goes past what the type has."
        }
        "value" => {
            "is no whole number of 32 bits, or not the one that the enumeration has which is restricted."
        }
        _ => "has an argument that is not of its form, or lacks a statement that it needs.",
    }
}

/// What the fault of a leafref says of its keyword or name.
pub(crate) fn leafref_words(fault: &SchemaFault) -> &'static str {
    match fault {
        SchemaFault::Unknown { .. } => "is a path that leads to no leaf or leaf-list.",
        SchemaFault::BadArgument { .. } =>
            "names a leafref that leads to a leaf of the type `empty`.",
        _ => "leads back to itself.",
    }
}
