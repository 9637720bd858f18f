//! Tables: each has lines of one kind.
ghost use Rattle.std.specs.Prelude.{◌≡◌, ◌↔◌, ◌==◌, ◌&&◌, not, length, slice_index, IsOkAnd, IsTrue};

use crate::score::Score;
use crate::undone::Undone;
use std::rt::Files;
use std::{fs, io};

/// The file of a table, its name without what stands after the last dot, and that, which says what kind of table it
/// is. Where there is no dot, all three are the same.
#[derive(Clone, Copy)]
pub(crate) struct Word<'a> {
    pub(crate) file: &'a str,
    pub(crate) name: &'a str,
    pub(crate) kind: &'a str,
}

impl<'a> Word<'a> {
    /// The table that a word names.
    pub(crate) fn of(file: &'a str) -> Word<'a> {
        let (name, kind) = file.rsplit_once('.').unwrap_or((file, file));
        Word { file, name, kind }
    }
}

/// A table, with what its lines made so far.
pub(crate) trait Table {
    /// Does a line, and says whether it holds.
    fn take(&mut self, line: &str) -> Result<bool, Undone>;
}

// Whether a line says something: it isn't empty and doesn't begin with `#`.
fn says(line: &str) -> bool
    ensures { result ≡ (not (length line.now == 0) && not (slice_index line.now 0 == 35)) }
{
    !line.is_empty() && !line.starts_with('#')
}

/// Whether what was answered so holds. What isn't done doesn't.
pub(crate) fn holds(answer: Result<bool, Undone>) -> bool
    ensures { IsTrue result ↔ IsOkAnd answer IsTrue }
{
    answer.unwrap_or(false)
}

/// Does the lines of a table from top to bottom, but for those that are empty or begin with `#`. Prints the lines that
/// don't hold and how many do, and says whether all do.
pub(crate) fn run_lines<R: Files + Print + AllocGlobal, T: Table + Drop>(
    rt: &R,
    word: Word<'_>,
    mut table: T,
) -> io::Result<bool> {
    let text = fs::read_to_string(rt, word.file)?;
    let mut score = Score::new();
    for line in text.lines() {
        if says(line) {
            let good = holds(table.take(line));
            if !good {
                println!(rt; "{}: {line} DIFFERS", word.file)?;
            }
            score.take(good);
        }
    }
    score.told(rt, word.name, "lines")
}

/// Prints what is shown, and says whether all of it could be.
pub(crate) fn tell<R: Print>(rt: &R, out: &str, done: Result<(), Undone>) -> io::Result<bool> {
    print!(rt; "{out}")?;
    if done.is_err() {
        println!(rt; "what comes next can't be done, or memory is wanting")?;
    }
    Ok(done.is_ok())
}
