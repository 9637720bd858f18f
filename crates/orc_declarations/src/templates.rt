//! The line `template`, which gives a list of the data a template, so that its entries are services.
ghost use Rattle.std.specs.Prelude.{◌≡◌, not, OnOk, option_map};
ghost use Rattle.std.specs.List.{list_all, list_any};
ghost use Rattle.orc_path.specs.Steps.{has_keys};
ghost use Rattle.orc_decls.specs.Calls.{meets};
ghost use Rattle.orc_decls.specs.Declarations.{is_list_node, is_service_list};
ghost use Rattle.orc_lines.specs.Answers.{ReadsLine, Takes};
ghost use Rattle.orc_lines.specs.Lawful.{AreDeclared};
ghost use Rattle.orc_lines.specs.Lines.{lines_of};
ghost use Rattle.orc_lines.specs.Words.{cut_at};
ghost use Rattle.orc_declarations.specs.Declarations.{after_template, is_listed_already, list_template, may_be_served, template_block, template_line};
ghost use Rattle.orc_declarations.specs.inside.Faults.{of_template};
ghost use Rattle.orc_declarations.specs.inside.Templates.{is_reached, template_of};

use orc_call::Put;
use orc_decls::{Rule, is_kept, meets};
use orc_lines::{
    Bar, Declared, Detail, LineFault, PathForm, WrongPath, WrongTemplate, block_of, breaks,
    breaks_by, cut, is_past_path, long_name, no_path, number_of, path_excess, read_path,
};
use orc_path::{Path, Step, is_identifier, is_long_name};
use orc_schema::{Node, Schema};
use orc_services::ServiceList;
use orc_template::{Template, TemplateFault, the_readers_read_back};
use orc_text::{Memory, Row, Text};
use orc_typed::stand;
use std::alloc::Global;

// Whether no step has keys.
fn are_bare(steps: &[Step]) -> bool
    ensures { result ≡ list_all (λ step. not (has_keys step)) steps.now }
{
    steps.iter().all(|step| step.keys.as_slice().is_empty())
}

// Whether the node is a list.
fn is_list_node(node: Option<&Node>) -> bool
    ensures { result ≡ is_list_node (option_map (λ node. node.now) node.entry) }
{
    matches!(node, Some(Node::List(_)))
}

// Whether the path is that of a list that is reached through containers alone.
fn is_reached(schema: &Schema, list: &Path) -> bool
    ensures { result ≡ is_reached schema.now list.now }
{
    let steps = list.steps.as_slice();
    are_bare(steps)
        && (stand(schema, &steps[..steps.len().saturating_sub(1)])
            && is_list_node(schema.node(steps)))
}

// Whether it is one of the data whose entries may be services.
#[tactic(auto, using(crate::proofs::ServiceLists::service_list_parts))]
fn is_service_list(schema: &Schema, list: &Path) -> bool
    ensures { result ≡ is_service_list schema.now list.now }
{
    // Looked into, so that the proof knows that it is a path.
    let _steps = list.steps.len();
    !list.is_long() && (!is_kept(list) && is_reached(schema, list))
}

// Whether an item of the data is declared at or under it.
fn is_used(data: &[Put], list: &Path) -> bool
    ensures { result ≡ list_any (λ put. meets list.now put.path) data.now }
{
    data.iter().any(|put| meets(list.steps.as_slice(), put.path.steps.as_slice()))
}

// Whether it is such a list, and no item of the data is declared at or under it.
fn may_be_served(declared: &Declared, list: &Path) -> bool
    ensures { result ≡ may_be_served declared.now list.now }
{
    is_service_list(&declared.data_schema, list) && !is_used(declared.data.as_slice(), list)
}

// Whether the list has a template.
fn is_listed_already(declared: &Declared, list: &Path) -> bool
    ensures { result ≡ is_listed_already declared.now list.now }
{
    declared
        .services
        .as_slice()
        .iter()
        .any(|it| list.cmp(&it.list).is_eq())
}

// What a fault of a template is.
fn of_template(fault: TemplateFault, detail: Detail) -> LineFault
    ensures { result ≡ of_template fault detail }
{
    match fault {
        TemplateFault::Memory => LineFault::Memory,
        _ => LineFault::Breaks(Rule::Template, detail),
    }
}

// Of a text that is no template of the list.
fn wrong_template(
    alloc: Global,
    schema: &Schema,
    list: &Path,
    text: &[u8],
    fault: TemplateFault,
) -> Result<Detail, Memory> {
    Ok(Detail::Template(WrongTemplate {
        text: Row::of_copies(alloc, text)?,
        list: list.copy(alloc)?,
        schema: schema.copy(alloc)?,
        fault,
    }))
}

// Why no template may be one of the list, whatever the schema has.
fn list_bar(alloc: Global, declared: &Declared, list: &Path) -> Result<Bar, Memory> {
    if is_kept(list) {
        return Ok(Bar::Kept);
    }
    for put in declared.data.as_slice() {
        if meets(list.steps.as_slice(), put.path.steps.as_slice()) {
            return Ok(Bar::Used(put.path.copy(alloc)?));
        }
    }
    Ok(Bar::Free)
}

// Of a path that is none of a list which may have a template.
fn wrong_list(alloc: Global, declared: &Declared, list: &Path) -> Result<Detail, Memory> {
    Ok(Detail::Path(WrongPath {
        path: list.copy(alloc)?,
        form: PathForm::Template,
        schema: declared.data_schema.copy(alloc)?,
        bar: list_bar(alloc, declared, list)?,
    }))
}

// The template of the list that the text of a block is.
fn read_template(
    alloc: Global,
    schema: &Schema,
    list: &Path,
    text: &[u8],
) -> Result<Template, LineFault>
    ensures { ReadsLine (template_of schema.now list.now text.now) result }
{
    the_readers_read_back();
    match Template::read(alloc, text, schema, list) {
        Ok(template) => Ok(template),
        Err(fault) => {
            let detail = wrong_template(alloc, schema, list, text, fault)?;
            Err(of_template(fault, detail))
        }
    }
}

// The list gets its template: the text of the block of so many lines after the line.
fn add_template(
    alloc: Global,
    declared: &mut Declared,
    name: &str,
    count: u64,
    list: Path,
    text: &[u8],
) -> Result<(), LineFault>
    ensures takes { Takes (list_template declared.old name.now count list text.now) declared.new result }
    ensures lawful { AreDeclared declared.old → OnOk result (AreDeclared declared.new) }
{
    if !may_be_served(declared, &list) {
        return breaks_by(Rule::Path, wrong_list(alloc, declared, &list)?);
    }
    let name = Text::from_str(alloc, name)?;
    if declared.templates.has(&name) || is_listed_already(declared, &list) {
        return breaks(Rule::Duplicate);
    }
    let template = read_template(alloc, &declared.data_schema, &list, text)?;
    declared.templates.add(name)?;
    declared.services.push(ServiceList { list, template })?;
    declared.skip = count;
    Ok(())
}

// The list of a path's text, and the block of so many lines.
fn take_block(
    alloc: Global,
    declared: &mut Declared,
    name: &str,
    count: u64,
    word: &str,
    later: &[u8],
) -> Result<(), LineFault>
    ensures takes { Takes (template_block declared.old name.now count word.now (lines_of later.now))
        declared.new result }
    ensures lawful { AreDeclared declared.old → OnOk result (AreDeclared declared.new) }
{
    if word.is_empty() {
        return breaks(Rule::Line);
    }
    let list = read_path(alloc, word)?;
    if is_long_name(name) || is_past_path(&list) {
        return breaks_by(Rule::Size, path_excess(alloc, long_name(name), &list)?);
    }
    let Some(text) = block_of(alloc, later, count)? else {
        return breaks(Rule::Line);
    };
    let Some(list) = list else {
        return breaks_by(Rule::Path, no_path(alloc, word)?);
    };
    add_template(alloc, declared, name, count, list, text.as_slice())
}

// The list and the number of lines, after the template's name.
fn take_list(
    alloc: Global,
    declared: &mut Declared,
    name: &str,
    rest: &str,
    later: &[u8],
) -> Result<(), LineFault>
    ensures takes { Takes (template_line declared.old name.now (lines_of later.now) (cut_at 32 rest.now))
        declared.new result }
    ensures lawful { AreDeclared declared.old → OnOk result (AreDeclared declared.new) }
{
    let Some((word, count)) = cut(rest) else {
        return breaks(Rule::Line);
    };
    let Some(count) = number_of(count) else {
        return breaks(Rule::Line);
    };
    take_block(alloc, declared, name, count, word, later)
}

/// `template T LISTPATH N`, with the bytes after the line.
#[tactic(auto, unfolding(crate::specs::Declarations::after_template))]
pub(crate) fn take_template(
    alloc: Global,
    declared: &mut Declared,
    rest: &str,
    later: &[u8],
) -> Result<(), LineFault>
    ensures takes { Takes (after_template declared.old rest.now (lines_of later.now)) declared.new result }
    ensures lawful { AreDeclared declared.old → OnOk result (AreDeclared declared.new) }
{
    let Some((name, words)) = cut(rest) else {
        return breaks(Rule::Line);
    };
    if !is_identifier(name) {
        return breaks(Rule::Line);
    }
    take_list(alloc, declared, name, words, later)
}
