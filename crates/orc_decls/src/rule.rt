//! What a line of a bundle can break.
use std::fmt;

/// The rule that a line of a bundle breaks. Where it breaks several, the first one in this order is
/// reported. A line that has none of the forms passes no limit but that of its length.
#[derive(Clone, Copy, Debug, PartialEq, Eq)]
pub enum Rule {
    /// A limit is passed: of the bundle, a line, a name, a path, a value, or a count.
    Size,
    /// The line is not UTF-8.
    Utf8,
    /// The first line that is not skipped is not `orc 1`, or there is none.
    Header,
    /// The line has no form that may stand there, or what its form needs after it is missing.
    Line,
    /// A path is not in the grammar, not in its schema, or one that the line may not name.
    Path,
    /// A value or a key is not in the grammar, or not of the type that its schema gives it.
    Value,
    /// A name is not declared, or `json` names a device without a type.
    Unknown,
    /// A name is declared twice, a second `datamodel` line stands, or a call names a service twice.
    Duplicate,
    /// A block is no YANG module.
    Yang,
    /// Modules make no schema.
    Schema,
    /// A block is no template.
    Template,
    /// A service's body is not one of its template's list.
    Json,
    /// The opening data is not valid, or a device doesn't accept its base.
    Opening,
}

impl fmt::Display for Rule {
    ghost use Rattle.std.specs.Prelude.{Some};
    ghost use Rattle.orc_decls.specs.Rules.{rule_word};

    ghost output = { λ rule. Some (rule_word rule) };

    fn fmt<W: fmt::Write>(&self, f: &mut fmt::Formatter<W>) -> fmt::Result {
        match self {
            Rule::Size => write!(f, "size"),
            Rule::Utf8 => write!(f, "utf8"),
            Rule::Header => write!(f, "header"),
            Rule::Line => write!(f, "line"),
            Rule::Path => write!(f, "path"),
            Rule::Value => write!(f, "value"),
            Rule::Unknown => write!(f, "unknown"),
            Rule::Duplicate => write!(f, "duplicate"),
            Rule::Yang => write!(f, "yang"),
            Rule::Schema => write!(f, "schema"),
            Rule::Template => write!(f, "template"),
            Rule::Json => write!(f, "json"),
            Rule::Opening => write!(f, "opening"),
        }
    }
}
