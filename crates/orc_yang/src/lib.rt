//! YANG statements: the bytes of a module as a list of statements, or the first fault with its
//! exact place (RFC 7950 section 6).
//!
//! A statement is a keyword, an optional argument, and then `;` or a block of statements. The
//! meaning of the keywords is the business of the layer above.
#![tactic(auto)]

mod character;
mod comments;
mod fault;
mod keywords;
mod laws;
mod parser;
mod quoted;
mod statement;
mod statements;
mod steps;
mod strings;

pub use fault::YangFault;
pub use laws::{has_one_fault, parsing_follows_the_grammar};
pub use statement::Stmt;
pub use statements::parse;
