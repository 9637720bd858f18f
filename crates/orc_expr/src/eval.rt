//! What expressions and conditions give.
ghost use Rattle.std.specs.Prelude.{◌≡◌, IfOk};
ghost use Rattle.orc_expr.specs.Parts.{expression_of, condition_of};
ghost use Rattle.orc_expr.specs.Looks.{texts_of, nodes_of, judged, is_met, is_only, AnswersLook, listed_result};
ghost use Rattle.orc_expr.specs.Reads.{IsFixedByReads};

use crate::expr::{Cond, EvalFault, Expr, Test};
use crate::following::follow;
use crate::looked::Looked;
use crate::looks::{nodes_at, texts_at};
use crate::{Read, ReadSet};
use orc_path::{DataView, Path};
use orc_text::{Memory, Row, Text};
use std::alloc::Global;
use std::collections::LinkedList;

// The reads of a look, as a set.
fn in_set(alloc: Global, mut reads: LinkedList<Read>) -> Result<ReadSet, Memory>
    ensures { IfOk result (λ set. set.reads ≡ reads) }
{
    let mut row = Vec::with_capacity(alloc, reads.len())?;
    while let Some(read) = reads.pop_front() {
        row.push(read)?;
    }
    Ok(ReadSet {
        reads: Row::from_vec(row),
    })
}

// The answer of a look, whose reads are added.
fn answered<T: Drop>(
    alloc: Global,
    look: Looked<T>,
    reads: &mut ReadSet,
) -> Result<Vec<T>, EvalFault>
    ensures { AnswersLook look.found look.reads reads.old.reads reads.new.reads (listed_result result) }
{
    let Looked { found, reads: more } = look;
    reads.append(alloc, in_set(alloc, more)?)?;
    match found {
        Some(all) => Ok(all.into_vec()),
        None => Err(EvalFault::Many),
    }
}

impl Expr {
    // What the texts of the expression are, and what is read.
    pub(crate) fn texts<V: DataView>(
        &self,
        alloc: Global,
        view: &V,
        here: &Path,
    ) -> Result<Looked<Text>, Memory>
        ensures { IfOk result (λ look. look ≡ texts_of (expression_of self.now) here.now (V.viewed view.now)) }
    {
        let last = follow(alloc, view, here, self.parts.as_slice())?;
        texts_at(alloc, view, here, last)
    }

    // What the nodes of the expression are, and what is read.
    fn places<V: DataView>(
        &self,
        alloc: Global,
        view: &V,
        here: &Path,
    ) -> Result<Looked<Path>, Memory>
        ensures { IfOk result (λ look. look ≡ nodes_of (expression_of self.now) here.now (V.viewed view.now)) }
    {
        let last = follow(alloc, view, here, self.parts.as_slice())?;
        nodes_at(alloc, view, here, last)
    }

    // The texts, with their reads added.
    fn eval_adding<V: DataView>(
        &self,
        alloc: Global,
        view: &V,
        here: &Path,
        reads: &mut ReadSet,
    ) -> Result<Vec<Text>, EvalFault>
        ensures { AnswersLook (texts_of (expression_of self.now) here.now (V.viewed view.now)).found
            (texts_of (expression_of self.now) here.now (V.viewed view.now)).reads
            reads.old.reads reads.new.reads (listed_result result) }
    {
        answered(alloc, self.texts(alloc, view, here)?, reads)
    }

    // The nodes, with their reads added.
    fn nodes_adding<V: DataView>(
        &self,
        alloc: Global,
        view: &V,
        here: &Path,
        reads: &mut ReadSet,
    ) -> Result<Vec<Path>, EvalFault>
        ensures { AnswersLook (nodes_of (expression_of self.now) here.now (V.viewed view.now)).found
            (nodes_of (expression_of self.now) here.now (V.viewed view.now)).reads
            reads.old.reads reads.new.reads (listed_result result) }
    {
        answered(alloc, self.places(alloc, view, here)?, reads)
    }

    /// The texts that the expression gives at a context, in path order. What it read is added, also
    /// where the answer is `Many`; where memory runs out, nothing is added.
    pub fn eval<V: DataView>(
        &self,
        alloc: Global,
        view: &V,
        here: &Path,
        reads: &mut ReadSet,
    ) -> Result<Vec<Text>, EvalFault>
        ensures answer { AnswersLook (texts_of (expression_of self.now) here.now (V.viewed view.now)).found
            (texts_of (expression_of self.now) here.now (V.viewed view.now)).reads
            reads.old.reads reads.new.reads (listed_result result) }
        // A view that shares its shapes and what was read gives the same and reads the same.
        ensures sound { IsFixedByReads (texts_of (expression_of self.now) here.now) (λ look. look.reads)
            (V.viewed view.now) }
    {
        self.eval_adding(alloc, view, here, reads)
    }

    /// The nodes that the expression gives at a context, in path order: entries of a list, values of a
    /// leaf-list, or a leaf where it is present. What it read is added, also where the answer is
    /// `Many`; where memory runs out, nothing is added.
    pub fn nodes<V: DataView>(
        &self,
        alloc: Global,
        view: &V,
        here: &Path,
        reads: &mut ReadSet,
    ) -> Result<Vec<Path>, EvalFault>
        ensures answer { AnswersLook (nodes_of (expression_of self.now) here.now (V.viewed view.now)).found
            (nodes_of (expression_of self.now) here.now (V.viewed view.now)).reads
            reads.old.reads reads.new.reads (listed_result result) }
        // A view that shares its shapes and what was read gives the same and reads the same.
        ensures sound { IsFixedByReads (nodes_of (expression_of self.now) here.now) (λ look. look.reads)
            (V.viewed view.now) }
    {
        self.nodes_adding(alloc, view, here, reads)
    }
}

// Whether there is one text, and it is this one.
fn is_only(text: &Text, texts: &[Text]) -> bool
    ensures { result ≡ is_only text.now texts.now }
{
    match texts {
        [one] => one == text,
        _ => false,
    }
}

impl Test {
    // Whether texts meet the test.
    fn is_met(&self, texts: &[Text]) -> bool
        ensures { result ≡ is_met self.now texts.now }
    {
        match self {
            Test::Any => !texts.is_empty(),
            Test::Equals(text) => is_only(text, texts),
            Test::Differs(text) => !is_only(text, texts),
        }
    }
}

impl Cond {
    // Whether it holds, with its reads added.
    fn holds_adding<V: DataView>(
        &self,
        alloc: Global,
        view: &V,
        here: &Path,
        reads: &mut ReadSet,
    ) -> Result<bool, EvalFault>
        ensures { AnswersLook (judged (condition_of self.now) here.now (V.viewed view.now)).is_met
            (judged (condition_of self.now) here.now (V.viewed view.now)).reads
            reads.old.reads reads.new.reads result }
    {
        let texts = answered(alloc, self.expr.texts(alloc, view, here)?, reads)?;
        Ok(self.test.is_met(texts.as_slice()))
    }

    /// Whether the condition holds at a context. What it read is added, also where the answer is
    /// `Many`; where memory runs out, nothing is added.
    pub fn holds<V: DataView>(
        &self,
        alloc: Global,
        view: &V,
        here: &Path,
        reads: &mut ReadSet,
    ) -> Result<bool, EvalFault>
        ensures answer { AnswersLook (judged (condition_of self.now) here.now (V.viewed view.now)).is_met
            (judged (condition_of self.now) here.now (V.viewed view.now)).reads
            reads.old.reads reads.new.reads result }
        // A view that shares its shapes and what was read gives the same and reads the same.
        ensures sound { IsFixedByReads (judged (condition_of self.now) here.now) (λ made. made.reads)
            (V.viewed view.now) }
    {
        self.holds_adding(alloc, view, here, reads)
    }
}
