//! Where a reader of an expression stands.

/// Where a reader stands.
#[derive(Clone, Copy)]
pub(crate) enum Mode {
    /// Before an expression or a term.
    Begin,
    /// After a first `.`.
    Dot,
    /// After `../`.
    Ups,
    /// After `../` and `.`.
    UpDot,
    /// After `..`.
    UpDots,
    /// After a first slash.
    Slash,
    /// In the name of a module.
    Module,
    /// After the colon.
    Colon,
    /// In a top node's name.
    RootName,
    /// In the first name of a relative path.
    FirstName,
    /// After a later slash.
    Next,
    /// In a later name.
    LaterName,
    /// After an opening bracket.
    OpenAt,
    /// In a key's name.
    KeyName,
    /// In a term in quotes.
    InQuotes,
    /// After its closing quote.
    EndQuotes,
    /// After a closing bracket.
    ClosedAt,
    /// After the space before a test.
    Spaced,
    /// After `!`.
    Bang,
    /// After `=` or `!=`.
    Sign,
    /// After the space that follows it.
    SignSpace,
    /// In the text of a test.
    InTest,
    /// After its closing quote.
    Tested,
}
