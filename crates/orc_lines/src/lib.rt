//! The lines of a bundle: how bytes are cut into lines and words, and what is read of both declarations
//! and scripts: names, numbers, items and paths, with the rule that a text breaks; and what was
//! declared so far, against which each line is read.
#![tactic(auto)]

mod declared;
mod detail;
mod fault;
mod items;
mod keyword;
mod lines;
mod lists;
mod names;
mod refusals;
mod words;

pub use declared::{Declared, Section};
pub use detail::{
    Bar, Breach, BuildPlace, Detail, Excess, ModuleFault, Passed, PathForm, WrongBody, WrongItem,
    WrongModule, WrongOpening, WrongPath, WrongSchema, WrongTemplate,
};
pub use fault::{ExplainedFault, LineFault, at_line, breaks, breaks_by, plain_fault, with_lines};
pub use items::{
    can_carry, is_long_item, is_past_path, read_data_path, read_forbidden, read_kept_path,
    read_list_path, read_path, read_put, read_service_path,
};
pub use keyword::{Keyword, keyword_of};
pub use lines::{
    LARGEST_BUNDLE, LONGEST_LINE, block_of, ends_later, first_line, is_large, is_settled,
    is_skipped, lacks_header, line_text, seen,
};
pub use lists::names_list;
pub use names::{SortedNames, repeated_name};
pub use orc_decls::Names;
pub use refusals::{
    large_excess, long_name, name_excess, no_path, path_excess, stored_path_excess, wrong_item,
    wrong_path,
};
pub use words::{cut, cut_prefix, first_word, number_of, read_text, words_of};
