//! Paths, names and values: lines that are looked at one by one, but for the order of paths. In texts `%` and two
//! digits stand for a byte.
//!
//! - `path TEXT`: it is read as a path, which is written so again, has as many bytes, is equal to its copy, and stands
//!   after the path of the `path` line before it
//! - `nopath N TEXT`, `noname N TEXT`: it is refused as a path or a name, at byte N
//! - `name TEXT`: it is read as a name, which is so again
//! - `entry LIST PATH`, `noentry LIST PATH`: the path is one of an entry of the list, or not
//! - `value TEXT -> VALUE`: it is read as this value, which is written so again
//! - `novalue TEXT`: it is no text of a value
//! - `writes PATH NAME`: a write at the path comes before one of the service
use crate::line::{first_word, text_of};
use crate::table::Table;
use crate::undone::Undone;
use orc_path::{Name, Path, PathFault, Write, push_value, read_value};
use orc_text::{Row, Text};
use std::alloc::Global;
use std::cmp::Ordering;

/// The path of the last line `path`.
#[derive(Drop)]
pub(crate) struct Paths {
    alloc: Global,
    last: Path,
}

impl Table for Paths {
    fn take(&mut self, line: &str) -> Result<bool, Undone> {
        let (word, rest) = first_word(line);
        match word {
            "path" => self.is_next(rest),
            "entry" => is_entry(self.alloc, rest),
            "noentry" => Ok(!is_entry(self.alloc, rest)?),
            "writes" => is_earlier(self.alloc, rest),
            _ => is_read(self.alloc, word, rest),
        }
    }
}

impl Paths {
    /// No line was taken.
    pub(crate) fn new(alloc: Global) -> Paths {
        let steps = Row::new(alloc);
        Paths {
            alloc,
            last: Path { steps },
        }
    }

    // Whether the path is one, and stands after the last one.
    fn is_next(&mut self, text: &str) -> Result<bool, Undone> {
        let text = text_of(self.alloc, text)?;
        let path = Path::parse(self.alloc, text.as_str())?;
        let holds = is_written(self.alloc, &path, &text)?;
        let follows = self.last.cmp(&path) == Ordering::Less || text.as_str() == "/";
        self.last = path;
        Ok(holds && follows)
    }
}

// Whether a path is written so, and is equal to its copy.
fn is_written(alloc: Global, path: &Path, text: &Text) -> Result<bool, Undone> {
    if path.text(alloc)? != *text || path.text_len() != text.as_str().len() as u64 {
        return Ok(false);
    }
    Ok(path.copy(alloc)? == *path)
}

// Whether a text is read as a line says, that looks at it alone.
fn is_read(alloc: Global, word: &str, rest: &str) -> Result<bool, Undone> {
    match word {
        "nopath" => is_no_path(alloc, rest),
        "name" => is_name(alloc, rest),
        "noname" => is_no_name(alloc, rest),
        "value" => is_value(alloc, rest),
        "novalue" => is_no_value(alloc, rest),
        _ => Err(Undone),
    }
}

// Whether a text is refused there.
fn is_refused_at<T: Drop>(read: Result<T, PathFault>, place: &str) -> Result<bool, Undone> {
    match read {
        Err(PathFault::BadPath { at }) => Ok(at == place.parse()?),
        _ => Ok(false),
    }
}

// Whether a text is refused as a path where the line says.
fn is_no_path(alloc: Global, rest: &str) -> Result<bool, Undone> {
    let (at, text) = first_word(rest);
    let text = text_of(alloc, text)?;
    is_refused_at(Path::parse(alloc, text.as_str()), at)
}

// Whether a text is refused as a name where the line says.
fn is_no_name(alloc: Global, rest: &str) -> Result<bool, Undone> {
    let (at, text) = first_word(rest);
    let text = text_of(alloc, text)?;
    is_refused_at(Name::new(alloc, text.as_str()), at)
}

// Whether a text is a name.
fn is_name(alloc: Global, text: &str) -> Result<bool, Undone> {
    let name = Name::new(alloc, text)?;
    if name.as_str() != text {
        return Ok(false);
    }
    Ok(name.copy(alloc)? == name)
}

// Whether the second path is one of an entry of the first.
fn is_entry(alloc: Global, rest: &str) -> Result<bool, Undone> {
    let (list, path) = first_word(rest);
    let list = Path::parse(alloc, list)?;
    let path = Path::parse(alloc, path)?;
    Ok(path.is_entry_of(&list))
}

// Whether a text is read as this value, and this value is written so.
fn is_value(alloc: Global, rest: &str) -> Result<bool, Undone> {
    let (text, value) = rest.split_once(" -> ").unwrap_or((rest, ""));
    let text = text_of(alloc, text)?;
    let value = text_of(alloc, value)?;
    Ok(is_value_text(alloc, &value, text.as_str())? && means(alloc, text.as_str(), value)?)
}

// Whether a value is written so.
fn is_value_text(alloc: Global, value: &Text, text: &str) -> Result<bool, Undone> {
    let mut written = String::new(alloc);
    push_value(&mut written, value.as_str())?;
    Ok(written.as_str() == text)
}

// Whether a text is read as this value.
fn means(alloc: Global, text: &str, value: Text) -> Result<bool, Undone> {
    Ok(read_value(alloc, text)? == Some(value))
}

// Whether a text is that of no value.
fn is_no_value(alloc: Global, rest: &str) -> Result<bool, Undone> {
    let text = text_of(alloc, rest)?;
    Ok(read_value(alloc, text.as_str())?.is_none())
}

// Whether a write at a path comes before one of a service.
fn is_earlier(alloc: Global, rest: &str) -> Result<bool, Undone> {
    let (path, name) = first_word(rest);
    let at = Write::At(Path::parse(alloc, path)?);
    let service = Write::Service(Text::from_str(alloc, name)?);
    if at.cmp(&service) != Ordering::Less {
        return Ok(false);
    }
    Ok(at.copy(alloc)? == at)
}
