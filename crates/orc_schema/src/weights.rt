//! How many texts and ranges nodes keep. They bound memory alone: no clause speaks of them.

use crate::draft::{Draft, DraftNode, DraftType};
use orc_modules::text_weight;
use orc_schema_nodes::{Node, SchemaLine, Target};
use orc_statements::{Reference, StepName};
use orc_text::Text;
use orc_value::Kind;

fn texts_weight(texts: &[Text]) -> usize {
    let mut weight: usize = 0;
    for text in texts {
        weight = weight.saturating_add(text_weight(text.as_str()));
    }
    weight
}

fn option_weight(text: &Option<Text>) -> usize {
    match text {
        Some(text) => text_weight(text.as_str()),
        None => 0,
    }
}

// The names of an enumeration stand in a row and, once more, in a set by which they are found.
fn kind_weight(kind: &Kind) -> usize {
    match kind {
        Kind::Int(int) => int.ranges.as_slice().len(),
        Kind::Str(lengths) => lengths.as_slice().len(),
        Kind::Enum(names) => texts_weight(names.as_slice()).saturating_mul(2),
        Kind::Decimal(_) | Kind::Bool | Kind::Empty => 0,
    }
}

fn steps_weight(steps: &[StepName]) -> usize {
    let mut weight: usize = 0;
    for step in steps {
        weight = weight.saturating_add(option_weight(&step.owner));
        weight = weight.saturating_add(text_weight(step.name.as_str()));
    }
    weight
}

// What a leafref's path keeps beside its text, and how often it goes up.
fn reference_weight(reference: &Reference) -> usize {
    steps_weight(reference.names.as_slice()).saturating_add(reference.ups as usize)
}

fn type_weight(of_type: &DraftType) -> usize {
    match of_type {
        DraftType::Own(kind) => kind_weight(kind),
        DraftType::To(reference) => reference_weight(reference),
    }
}

/// What a node keeps before leafrefs are followed, but for the text of a leafref's path.
pub(crate) fn draft_weight(draft: &Draft) -> usize {
    let more = match &draft.node {
        DraftNode::Container => 0,
        DraftNode::List(list) => texts_weight(list.keys.as_slice()),
        DraftNode::Leaf(leaf) => {
            type_weight(&leaf.of_type).saturating_add(option_weight(&leaf.default))
        },
        DraftNode::LeafList(values) => type_weight(&values.of_type),
    };
    texts_weight(draft.names.as_slice()).saturating_add(more)
}

fn typed_weight(kind: &Kind, target: &Option<Target>) -> usize {
    match target {
        Some(target) => kind_weight(kind).saturating_add(texts_weight(target.names.as_slice())),
        None => kind_weight(kind),
    }
}

/// What a line keeps.
pub(crate) fn line_weight(line: &SchemaLine) -> usize {
    let more = match &line.node {
        Node::Container => 0,
        Node::List(list) => texts_weight(list.keys.as_slice()),
        Node::Leaf(leaf) => {
            typed_weight(&leaf.kind, &leaf.target).saturating_add(option_weight(&leaf.default))
        },
        Node::LeafList(values) => typed_weight(&values.kind, &values.target),
    };
    texts_weight(line.names.as_slice()).saturating_add(more)
}
