//! The characters of a text, and the sorts that the grammar distinguishes.
ghost use Rattle.std.specs.Prelude.{◌≡◌};
ghost use Rattle.orc_yang.specs.Sorts.{sort_of, other_sort};

use orc_text::is_noncharacter;

/// A character as it stands in a text: the places of its first and last byte, and its column, counted
/// from 1.
#[derive(Clone, Copy)]
pub struct Character {
    pub code: char,
    pub at: u64,
    pub last: u64,
    pub column: u128,
}

/// What a character can be to the grammar.
#[derive(Clone, Copy)]
pub enum Sort {
    LineFeed,
    /// A space, a tab or a carriage return.
    Blank,
    Semicolon,
    OpenBrace,
    CloseBrace,
    DoubleQuote,
    SingleQuote,
    Slash,
    Star,
    Plus,
    Colon,
    Backslash,
    /// A character that may begin an identifier.
    Start,
    /// A character that may stand in an identifier, but not begin one.
    Inner,
    /// A character that RFC 7950 section 14 allows nowhere.
    Forbidden,
    Other,
}

// The sort of a character.
pub(crate) fn sort_of(c: char) -> Sort
    ensures { result ≡ sort_of c }
{
    match c {
        '\n' => Sort::LineFeed,
        ' ' | '\t' | '\r' => Sort::Blank,
        ';' => Sort::Semicolon,
        '{' => Sort::OpenBrace,
        '}' => Sort::CloseBrace,
        '"' => Sort::DoubleQuote,
        '\'' => Sort::SingleQuote,
        '/' => Sort::Slash,
        '*' => Sort::Star,
        '+' => Sort::Plus,
        ':' => Sort::Colon,
        '\\' => Sort::Backslash,
        'a'..='z' | 'A'..='Z' | '_' => Sort::Start,
        '0'..='9' | '-' | '.' => Sort::Inner,
        _ => other_sort(c),
    }
}

// The sort of a character that the grammar does not name: the control characters and the
// noncharacters are forbidden.
fn other_sort(c: char) -> Sort
    ensures { result ≡ other_sort c }
{
    if c < ' ' || is_noncharacter(c) {
        Sort::Forbidden
    } else {
        Sort::Other
    }
}
