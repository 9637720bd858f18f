//! The value of a double-quoted string (RFC 7950 section 6.1.3).

ghost use Rattle.std.specs.Prelude.{◌≡◌, ◌∷◌, ◌++◌, List, ℕ, true, IfOk, OnOk, replicate};
ghost use Rattle.orc_yang.specs.Quoted.{string_value, is_space, begins_break, ends_line, escaped};
ghost use Rattle.orc_yang.specs.inside.Valuing.{spelled_with, lined_with, valued_with, KnowsBlanks};

use orc_text::{Memory, Text};
use std::alloc::Global;

// A value as far as it is made.
#[derive(Drop)]
pub(crate) struct Value {
    pub text: Text,
    // How many columns of indentation are left to drop.
    pub left: u128,
    // Whether a backslash was taken whose escape comes.
    pub escaped: bool,
    // Whether a space or a tab was taken last.
    pub blank: bool,
    // Whether that one, and those after it, stand before a line break.
    pub trailing: bool,
}

// The argument with the value of a double-quoted string after it: trailing blanks are dropped first, then the
// indentation up to the column of the opening quote, and escapes are read afterwards.
#[tactic(auto, unfolding(crate::specs::Quoted::string_value))]
pub(crate) fn with_value(
    alloc: Global,
    argument: Text,
    column: u128,
    raw: &[char],
) -> Result<Text, Memory>
    ensures { IfOk result (λ text. text ≡ argument ++ string_value column raw.now) }
{
    let mut value = Value {
        text: argument,
        left: 0,
        escaped: false,
        blank: false,
        trailing: false,
    };
    let mut rest = raw;
    while let [c, more @ ..] = rest {
        value.take(column, *c, more)?;
        rest = more;
    }
    // (a copy, since a text that grew character by character may have room for twice as many)
    Text::from_str(alloc, value.text.as_str())
}

// Whether a character is a space or a tab.
fn is_space(c: char) -> bool
    ensures { result ≡ is_space c }
{
    c == ' ' || c == '\t'
}

// Whether a character begins a line break, where these follow.
fn begins_break(c: char, rest: &[char]) -> bool
    ensures { result ≡ begins_break c rest.now }
{
    if c == '\r' {
        rest.first() == Some(&'\n')
    } else {
        c == '\n'
    }
}

// Whether spaces and tabs come, and then a line break.
fn ends_line(text: &[char]) -> bool
    ensures { result ≡ ends_line text.now }
{
    let mut rest = text;
    while let [c, more @ ..] = rest {
        if !is_space(*c) {
            return begins_break(*c, more);
        }
        rest = more;
    }
    false
}

// The character that a backslash and this one stand for.
fn escape(c: char) -> char
    ensures { result ≡ escaped c }
{
    match c {
        'n' => '\n',
        't' => '\t',
        other => other,
    }
}

impl Value {
    // Takes the next character, after which these follow.
    fn take(&mut self, column: u128, c: char, rest: &[char]) -> Result<(), Memory>
        requires { KnowsBlanks self.old (c ∷ rest.now) }
        ensures value { OnOk result
            (valued_with column self.new rest.now ≡ valued_with column self.old (c ∷ rest.now)) }
        ensures blanks { OnOk result (KnowsBlanks self.new rest.now) }
    {
        if !is_space(c) {
            self.blank = false;
            return self.keep(column, c);
        }
        self.trailing = self.is_trailing(rest);
        self.blank = true;
        if self.trailing {
            Ok(())
        } else {
            self.keep(column, c)
        }
    }

    // Whether a space or a tab that is taken, after which these follow, stands before a line break.
    fn is_trailing(&self, rest: &[char]) -> bool
        requires { self.now.blank ≡ true → self.now.trailing ≡ ends_line rest.now }
        ensures { result ≡ ends_line rest.now }
    {
        if self.blank {
            self.trailing
        } else {
            ends_line(rest)
        }
    }

    // Takes a character that no line break follows, apart from indentation.
    fn keep(&mut self, column: u128, c: char) -> Result<(), Memory>
        ensures value { OnOk result ((rest : List ℕ)
            → lined_with column self.new rest ≡ lined_with column self.old (c ∷ rest)) }
        ensures blank { self.new.blank ≡ self.old.blank }
        ensures trailing { OnOk result (self.new.trailing ≡ self.old.trailing) }
    {
        if c == '\n' {
            self.left = column;
            self.add(c)
        } else if c == ' ' && self.left > 0 {
            self.left -= 1;
            Ok(())
        } else if c == '\t' && self.left > 0 {
            let spaces = 8u128.saturating_sub(self.left);
            self.left = self.left.saturating_sub(8);
            self.add_spaces(spaces)
        } else {
            self.left = 0;
            self.add(c)
        }
    }

    // Adds spaces.
    fn add_spaces(&mut self, count: u128) -> Result<(), Memory>
        ensures value { OnOk result ((rest : List ℕ)
            → spelled_with self.new rest ≡ spelled_with self.old (replicate count 32 ++ rest)) }
        ensures left { OnOk result (self.new.left ≡ self.old.left) }
        ensures blank { self.new.blank ≡ self.old.blank }
        ensures trailing { OnOk result (self.new.trailing ≡ self.old.trailing) }
    {
        for _i in 0..count {
            self.add(' ')?;
        }
        Ok(())
    }

    // Adds a character, or what it stands for after a backslash.
    fn add(&mut self, c: char) -> Result<(), Memory>
        ensures value { OnOk result ((rest : List ℕ)
            → spelled_with self.new rest ≡ spelled_with self.old (c ∷ rest)) }
        ensures left { OnOk result (self.new.left ≡ self.old.left) }
        ensures blank { self.new.blank ≡ self.old.blank }
        ensures trailing { OnOk result (self.new.trailing ≡ self.old.trailing) }
    {
        if self.escaped {
            self.escaped = false;
            self.text.push(escape(c))
        } else if c == '\\' {
            self.escaped = true;
            Ok(())
        } else {
            self.text.push(c)
        }
    }
}
