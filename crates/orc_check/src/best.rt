//! The least breach of the parts of a configuration that one looks at, for crates that know which parts a
//! change reaches.
ghost use Rattle.std.specs.Prelude.{◌≡◌, [], None};
ghost use Rattle.std.specs.List.{fold};
ghost use Rattle.orc_check.specs.Validity.{is_of_kind, lesser_breach, row_breaches, line_breaches, place_breaches};
ghost use Rattle.orc_check.specs.Found.{found_breach};
ghost use Rattle.orc_check.specs.Answers.{AnswersBreach};

use crate::fault::CheckFault;
use crate::found::{Found, keep_at, path_of};
use crate::places;
use crate::references::has_dangling;
use crate::rows::{has_row_keys, is_of_kind};
use crate::rules::{KEY, KIND, LEAFREF};
use orc_path::{Item, Path};
use orc_schema_nodes::{Schema, SchemaLine};
use orc_tree::Tree;
use std::alloc::Global;
use std::marker::Model;

/// The least breach that was found so far, if there is one.
#[derive(Drop)]
pub struct Best<'a> {
    found: Option<Found<'a>>,
}

impl<'a> Model for Best<'a> {
    ghost use Rattle.std.specs.Prelude.{Option};
    ghost use Rattle.orc_check.specs.Validity.{Breach};
    ghost use Rattle.orc_check.specs.Found.{found_breach};

    ghost Value = { Option Breach };

    ghost view = { λ best. found_breach best.found };
}

impl<'a> Best<'a> {
    /// Nothing was found.
    pub fn none() -> Best<'a>
        ensures { result ≡ None }
    {
        Best { found: None }
    }

    /// Ok where nothing was found, and else the breach; or that memory for its path ran out.
    pub fn answer(&self, alloc: Global) -> Result<(), CheckFault>
        ensures { AnswersBreach self.now result }
    {
        match &self.found {
            None => Ok(()),
            Some(found) => Err(CheckFault::Broken {
                path: path_of(alloc, found)?,
                rule: found.rule,
            }),
        }
    }

    /// The lesser of it and of what a row breaks. It takes no memory, so a leafref whose target no search
    /// finds looks at each row that begins with the entries that both share.
    pub fn keep_row(self, schema: &Schema, tree: &Tree, row: &'a (Path, Item)) -> Best<'a>
        ensures { result ≡ fold lesser_breach self.entry (row_breaches schema.now tree.now row.now) }
    {
        let kind = is_of_kind(schema, row);
        let keys = has_row_keys(schema, row);
        let dangling = has_dangling(schema, tree, &[], row);
        let first = keep_at(self.found, !kind, &row.0, KIND);
        let second = keep_at(first, !keys, &row.0, KEY);
        Best {
            found: keep_at(second, dangling, &row.0, LEAFREF),
        }
    }

    /// The lesser of it and of what is missing, or too many, below an entry. It searches for the lines of
    /// the schema that lead on from there.
    pub fn keep_place(self, schema: &'a Schema, tree: &Tree, place: &'a Path) -> Best<'a>
        ensures { result ≡ fold lesser_breach self.entry (place_breaches schema.now tree.now place.now) }
    {
        Best {
            found: places::keep_place(schema, tree, Some(place), self.found),
        }
    }

    /// The lesser of it and of what is missing, or too many, at a node that is reached from an entry.
    pub fn keep_line(
        self,
        schema: &Schema,
        tree: &Tree,
        place: &'a Path,
        line: &'a SchemaLine,
    ) -> Best<'a>
        ensures { result ≡ fold lesser_breach self.entry (line_breaches schema.now tree.now place.now line.now) }
    {
        Best {
            found: places::keep_line(schema, tree, Some(place), line, self.found),
        }
    }

    /// The lesser of it and of what is missing, or too many, at a node that is reached from the root.
    pub fn keep_top_line(self, schema: &Schema, tree: &Tree, line: &'a SchemaLine) -> Best<'a>
        ensures { result ≡ fold lesser_breach self.entry (line_breaches schema.now tree.now [] line.now) }
    {
        Best {
            found: places::keep_line(schema, tree, None, line, self.found),
        }
    }
}
