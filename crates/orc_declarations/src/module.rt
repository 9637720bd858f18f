//! The YANG module of a block.
ghost use Rattle.std.specs.Prelude.{◌≡◌};
ghost use Rattle.std.specs.List.{list_any};
ghost use Rattle.std.specs.Option.{option_copied};
ghost use Rattle.orc_lines.specs.Words.{is_text};
ghost use Rattle.orc_declarations.specs.Modules.{is_long_identifier, is_long_word, takes_name, node_words, other_words, is_long_head, has_long_name, module_name, module_of_statement, module_of};
ghost use Rattle.orc_lines.specs.Rules.{of_option};
ghost use Rattle.orc_declarations.specs.inside.Singles.{single};
ghost use Rattle.orc_lines.specs.Answers.{ReadsLine};
ghost use Rattle.orc_declarations.specs.inside.Faults.{of_yang};

use orc_decls::Rule;
use orc_lines::{Detail, Excess, LineFault, ModuleFault, WrongModule, breaks_by, cut_prefix};
use orc_path::{is_identifier, is_long_name};
use orc_text::{Memory, Row, Text};
use orc_yang::{Stmt, YangFault, parse};
use std::alloc::Global;

/// A module: its name, and the statement that it is.
#[derive(Drop)]
pub struct Module {
    pub name: Text,
    pub statement: Stmt,
}

// An identifier past the limit.
fn is_long_identifier(word: &str) -> bool
    ensures { result ≡ is_long_identifier word.now }
{
    is_identifier(word) && is_long_name(word)
}

// A word with a part past the limit; it may have a prefix and a colon.
fn is_long_word(word: &str) -> bool
    ensures { result ≡ is_long_word word.now }
{
    match cut_prefix(word) {
        Some((prefix, name)) => is_long_identifier(prefix) || is_long_identifier(name),
        None => is_long_identifier(word),
    }
}

// The part of a word that is past the limit; the word where it has no prefix.
fn long_part(word: &str) -> &str {
    match cut_prefix(word) {
        Some((prefix, name)) => match is_long_identifier(prefix) {
            true => prefix,
            false => name,
        },
        None => word,
    }
}

// Whether the argument of such a statement is a name. It hands on from table to table, since one
// `match` on all these words takes long to prove.
#[tactic(auto, unfolding(crate::specs::Modules::takes_name))]
fn takes_name(keyword: &str) -> bool
    ensures { result ≡ takes_name keyword.now }
{
    match keyword {
        "module"
        | "import"
        | "prefix"
        | "submodule"
        | "include"
        | "belongs-to"
        | "typedef"
        | "grouping"
        | "uses" => true,
        _ => names_node(keyword),
    }
}

// The same of the statements that make nodes, and of those below.
#[tactic(auto, unfolding(crate::specs::Modules::node_words))]
fn names_node(keyword: &str) -> bool
    ensures { result ≡ list_any (is_text keyword.now) node_words }
{
    match keyword {
        "container"
        | "list"
        | "leaf"
        | "leaf-list"
        | "type"
        | "choice"
        | "case"
        | "anydata"
        | "anyxml" => true,
        _ => names_other(keyword),
    }
}

// The same of the others.
#[tactic(auto, unfolding(crate::specs::Modules::other_words))]
fn names_other(keyword: &str) -> bool
    ensures { result ≡ list_any (is_text keyword.now) other_words }
{
    match keyword {
        "rpc"
        | "action"
        | "notification"
        | "identity"
        | "base"
        | "feature"
        | "extension"
        | "argument"
        | "bit" => true,
        _ => false,
    }
}

// Whether the keyword, or the name that the argument is, has a part past the limit.
fn is_long_head(keyword: &str, argument: &Option<Text>) -> bool
    ensures { result ≡ is_long_head keyword.now argument.now }
{
    if is_long_word(keyword) {
        return true;
    }
    match argument {
        Some(name) => takes_name(keyword) && is_long_word(name.as_str()),
        None => false,
    }
}

// Whether a name in the statement, or in one below it, is too long.
fn has_long_name(stmt: &Stmt) -> bool
    ensures { result ≡ has_long_name stmt.now }
{
    if is_long_head(stmt.keyword.as_str(), &stmt.argument) {
        return true;
    }
    for sub in stmt.subs.as_slice() {
        if has_long_name(sub) {
            return true;
        }
    }
    false
}

// The name in this statement itself that is too long, where it has one.
fn long_head<'a>(stmt: &'a Stmt) -> Option<&'a str> {
    let keyword = stmt.keyword.as_str();
    if is_long_word(keyword) {
        return Some(long_part(keyword));
    }
    match &stmt.argument {
        Some(name) => match takes_name(keyword) && is_long_word(name.as_str()) {
            true => Some(long_part(name.as_str())),
            false => None,
        },
        None => None,
    }
}

// The first name that is too long in the statement or in one below it, and where the statement stands that has it.
fn long_name_in<'a>(stmt: &'a Stmt) -> Option<(&'a str, u64)> {
    if let Some(name) = long_head(stmt) {
        return Some((name, stmt.at));
    }
    for sub in stmt.subs.as_slice() {
        if let Some(found) = long_name_in(sub) {
            return Some(found);
        }
    }
    None
}

// The same of statements.
fn first_long<'a>(statements: &'a [Stmt]) -> Option<(&'a str, u64)> {
    for stmt in statements {
        if let Some(found) = long_name_in(stmt) {
            return Some(found);
        }
    }
    None
}

// How many line feeds stand among the first bytes of a text, so many.
fn lines_above(text: &[u8], at: u64) -> u64 {
    let mut lines: u64 = 0;
    let mut left = at;
    for byte in text {
        if left == 0 {
            return lines;
        }
        left -= 1;
        if *byte == b'\n' {
            lines = lines.saturating_add(1);
        }
    }
    lines
}

// Of a name that is too long in one of the statements of a text.
fn identifier_excess(alloc: Global, text: &[u8], statements: &[Stmt]) -> Result<Detail, Memory> {
    match first_long(statements) {
        Some((name, at)) => Ok(Detail::Size(Excess::Identifier {
            name: Text::from_str(alloc, name)?,
            below: lines_above(text, at),
        })),
        None => Ok(Detail::Plain),
    }
}

// Of a text that is no module.
fn wrong_module(alloc: Global, text: &[u8], fault: ModuleFault) -> Result<Detail, Memory> {
    Ok(Detail::Yang(WrongModule {
        text: Row::of_copies(alloc, text)?,
        fault,
    }))
}

// Whether a name in one of the statements is too long.
fn have_long_name(statements: &[Stmt]) -> bool
    ensures { result ≡ list_any has_long_name statements.now }
{
    statements.iter().any(|stmt| has_long_name(stmt))
}

// The identifier of a `module` statement.
fn module_name(stmt: &Stmt) -> Option<&Text>
    ensures { option_copied result ≡ module_name stmt.now }
{
    if stmt.keyword.as_str() != "module" {
        return None;
    }
    match &stmt.argument {
        Some(name) if is_identifier(name.as_str()) => Some(name),
        _ => None,
    }
}

// The module that the only statement of a text is.
fn module_of_statement(alloc: Global, text: &[u8], statement: Stmt) -> Result<Module, LineFault>
    ensures { ReadsLine (of_option (module_of_statement statement) Rule.Yang) result }
{
    let name = match module_name(&statement) {
        Some(name) => name.copy(alloc)?,
        None => {
            return breaks_by(
                Rule::Yang,
                wrong_module(alloc, text, ModuleFault::Count(1))?,
            );
        }
    };
    Ok(Module { name, statement })
}

// The only one of statements.
fn single(statements: Vec<Stmt>) -> Option<Stmt>
    ensures { result ≡ single statements.items }
{
    if statements.len() > 1 {
        return None;
    }
    let mut statements = statements;
    statements.pop()
}

// What a fault in the statements of a block is.
fn of_yang(fault: YangFault, detail: Detail) -> LineFault
    ensures { result ≡ of_yang fault detail }
{
    match fault {
        YangFault::Memory => LineFault::Memory,
        _ => LineFault::Breaks(Rule::Yang, detail),
    }
}

/// The module that the text is.
#[tactic(auto, unfolding(crate::specs::Modules::module_of))]
pub(crate) fn module_of(alloc: Global, text: &[u8]) -> Result<Module, LineFault>
    ensures { ReadsLine (module_of text.now) result }
{
    let statements = match parse(alloc, text) {
        Ok(statements) => statements,
        Err(fault) => {
            let detail = wrong_module(alloc, text, ModuleFault::Statements(fault))?;
            return Err(of_yang(fault, detail));
        }
    };
    if have_long_name(statements.as_slice()) {
        return breaks_by(
            Rule::Size,
            identifier_excess(alloc, text, statements.as_slice())?,
        );
    }
    let count = ModuleFault::Count(statements.len() as u64);
    match single(statements) {
        Some(statement) => module_of_statement(alloc, text, statement),
        None => breaks_by(Rule::Yang, wrong_module(alloc, text, count)?),
    }
}
