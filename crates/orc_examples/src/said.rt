//! What is said of a run: of the fault of its bundle, and of devices and calls at its end.

use crate::run::Ran;
use orc_diagnose::diagnosis;
use orc_disk::Disk;
use orc_run::Stop;
use orc_text::{Memory, Text};
use std::alloc::{AllocError, Global};

/// What is said of the fault of a run's bundle, where it has one.
pub(crate) fn said_of<D: Disk>(
    alloc: Global,
    bundle: &[u8],
    ran: &Ran<D>,
) -> Result<Option<Text>, AllocError> {
    let Err(Stop::Bundle { line, rule }) = &ran.status else {
        return Ok(None);
    };
    let Some(detail) = &ran.notes.detail else {
        return Ok(None);
    };
    match diagnosis(alloc, bundle, *line, *rule, detail) {
        Ok(said) => Ok(Some(said)),
        Err(Memory) => Err(AllocError),
    }
}

/// What is named, where memory didn't run out.
pub(crate) fn named(names: Result<Text, Memory>) -> Result<Text, AllocError> {
    match names {
        Ok(names) => Ok(names),
        Err(Memory) => Err(AllocError),
    }
}

/// The words of a text, where there is one.
pub(crate) fn words_of(text: &Option<Text>) -> Option<&str> {
    match text {
        Some(text) => Some(text.as_str()),
        None => None,
    }
}

/// The last line of what is said.
pub(crate) fn last_line(said: &Option<Text>) -> Option<&str> {
    match said {
        Some(said) => match said.as_str().split_once('\n') {
            Some((_, last)) => Some(last),
            None => Some(said.as_str()),
        },
        None => None,
    }
}

/// The first line of what is said, where there are two.
pub(crate) fn first_line(said: &Option<Text>) -> Option<&str> {
    match said {
        Some(said) => match said.as_str().split_once('\n') {
            Some((first, _)) => Some(first),
            None => None,
        },
        None => None,
    }
}
