//! A bundle's fault in words, for the one who mends it.
//!
//! They are made of the rule that a line breaks, of the detail with which the reader refused it, and of the line's
//! text. No clause says what they are, but for how a text is shown.
#![tactic(auto)]

mod bodies;
mod cuts;
mod expressions;
mod extent;
mod fault;
mod forms;
mod imports;
mod json;
mod kinds;
mod limits;
mod lines;
mod members;
mod modules;
mod openings;
mod paths;
mod places;
mod profile;
mod quoted;
mod repeated;
mod rules;
mod schema_words;
mod schemas;
mod spacing;
mod statements;
mod templates;
mod twice;
mod values;
mod words;

pub use fault::diagnosis;
pub use repeated::repeated_findings;
