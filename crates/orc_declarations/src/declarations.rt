//! What each form of a declaration makes of what was declared so far.
ghost use Rattle.std.specs.Prelude.{◌≡◌, ◌<◌, ◌≤◌, ◌+◌, ◌^◌, IfOk, OnOk, length};
ghost use Rattle.orc_decls.specs.Devices.{names_of};
ghost use Rattle.orc_lines.specs.Lines.{lines_of};
ghost use Rattle.orc_lines.specs.Words.{cut_at};
ghost use Rattle.orc_declarations.specs.Declarations.{nothing_declared, with_base, with_forbid, with_max, after_header, after_device, after_base, after_data, after_forbid, after_max, after_rule, rule_kind, after_yang, after_script, declaration, bare_declaration, after_text, declared_at};
ghost use Rattle.orc_lines.specs.Answers.{Takes};
ghost use Rattle.orc_lines.specs.Lawful.{AreDeclared};
ghost use Rattle.orc_lines.specs.declared.lines.TheConstants.{LARGEST_BUNDLE};

use crate::module::module_of;
use crate::schemas::built_in_schema;
use crate::templates::take_template;
use crate::types::{schema_place, take_datamodel, take_devicetype};
use orc_call::Put;
use orc_decls::{Device, MOST_DEVICES, Names, Rule};
use orc_lines::{
    Declared, Detail, Excess, Keyword, LineFault, Section, SortedNames, block_of, breaks,
    breaks_by, cut, is_large, is_skipped, keyword_of, large_excess, line_text, long_name,
    name_excess, number_of, read_forbidden, read_list_path, read_put, read_text,
};
use orc_path::{Path, is_identifier, is_long_name};
use orc_schema::{Looks, Schema};
use orc_text::{Memory, Row, Text};
use orc_yang::Stmt;
use std::alloc::Global;
use std::mem::replace;

// Adds an item to the base of the device of a number.
fn push_base(devices: &mut [Device], n: usize, put: Put) -> Result<(), Memory>
    ensures { OnOk result (devices.new ≡ with_base n put devices.old) }
{
    if n < devices.len() {
        devices[n].base.push(put)
    } else {
        Ok(())
    }
}

// Adds an item to the base of the device of a number, in a row.
fn add_base(alloc: Global, devices: &mut Row<Device>, n: usize, put: Put) -> Result<(), Memory>
    ensures { OnOk result (devices.new ≡ with_base n put devices.old) }
{
    let mut items = replace(devices, Row::new(alloc)).into_vec();
    let added = push_base(items.as_mut_slice(), n, put);
    *devices = Row::from_vec(items);
    added
}

// Adds a list's path and the most entries that it may have to the device of a number.
fn push_max(devices: &mut [Device], n: usize, limit: (Path, u64)) -> Result<(), Memory>
    ensures { OnOk result (devices.new ≡ with_max n limit devices.old) }
{
    if n < devices.len() {
        devices[n].max.push(limit)
    } else {
        Ok(())
    }
}

// Adds a list's path and its most entries to the device of a number, in a row.
fn add_max(
    alloc: Global,
    devices: &mut Row<Device>,
    n: usize,
    limit: (Path, u64),
) -> Result<(), Memory>
    ensures { OnOk result (devices.new ≡ with_max n limit devices.old) }
{
    let mut items = replace(devices, Row::new(alloc)).into_vec();
    let added = push_max(items.as_mut_slice(), n, limit);
    *devices = Row::from_vec(items);
    added
}

// Adds a leaf's path and a text that it may not have to the device of a number.
fn push_forbid(devices: &mut [Device], n: usize, leaf: (Path, Text)) -> Result<(), Memory>
    ensures { OnOk result (devices.new ≡ with_forbid n leaf devices.old) }
{
    if n < devices.len() {
        devices[n].forbid.push(leaf)
    } else {
        Ok(())
    }
}

// Adds a leaf's path and a text that it may not have to the device of a number, in a row.
fn add_forbid(
    alloc: Global,
    devices: &mut Row<Device>,
    n: usize,
    leaf: (Path, Text),
) -> Result<(), Memory>
    ensures { OnOk result (devices.new ≡ with_forbid n leaf devices.old) }
{
    let mut items = replace(devices, Row::new(alloc)).into_vec();
    let added = push_forbid(items.as_mut_slice(), n, leaf);
    *devices = Row::from_vec(items);
    added
}

/// Nothing is declared, and the header is due.
pub(crate) fn nothing_declared(alloc: Global) -> Result<Declared, Memory>
    ensures nothing { IfOk result (λ declared. declared ≡ nothing_declared) }
    ensures lawful { IfOk result AreDeclared }
{
    // Made before the rest, so that little is let go where memory runs out.
    let data_schema = built_in_schema(alloc)?;
    let mut schemas = Row::new(alloc);
    schemas.push(Schema::plain(alloc))?;
    Ok(Declared {
        section: Section::Header,
        skip: 0,
        modules: SortedNames::new(alloc),
        statements: Row::new(alloc),
        has_data: false,
        types: SortedNames::new(alloc),
        schemas,
        names: Names::new(alloc),
        devices: Row::new(alloc),
        data_schema,
        data: Row::new(alloc),
        templates: SortedNames::new(alloc),
        services: Row::new(alloc),
    })
}

// `orc 1`.
#[tactic(auto, unfolding(crate::specs::Declarations::after_header))]
fn take_header(declared: &mut Declared, text: &str) -> Result<(), LineFault>
    ensures takes { Takes (after_header declared.old text.now) declared.new result }
    ensures lawful { AreDeclared declared.old → OnOk result (AreDeclared declared.new) }
{
    if text != "orc 1" {
        return breaks(Rule::Header);
    }
    declared.section = Section::Declarations;
    Ok(())
}

// Of a device more than there can be.
fn devices_excess(declared: &Declared) -> Detail {
    Detail::Size(Excess::Devices(declared.names.len() as u64))
}

// `device D plain` and `device D T`.
#[tactic(auto, unfolding(crate::specs::Declarations::after_device))]
fn take_device(alloc: Global, declared: &mut Declared, rest: &str) -> Result<(), LineFault>
    ensures takes { Takes (after_device declared.old rest.now) declared.new result }
    ensures lawful { AreDeclared declared.old → OnOk result (AreDeclared declared.new) }
{
    let Some((name, kind)) = cut(rest) else {
        return breaks(Rule::Line);
    };
    if !is_identifier(name) || !is_identifier(kind) {
        return breaks(Rule::Line);
    }
    if is_long_name(name) {
        return breaks_by(Rule::Size, name_excess(alloc, name)?);
    }
    if is_long_name(kind) {
        return breaks_by(Rule::Size, name_excess(alloc, kind)?);
    }
    let name = Text::from_str(alloc, name)?;
    let is_old = declared.names.has(&name);
    if !is_old && declared.names.len() >= MOST_DEVICES {
        return breaks_by(Rule::Size, devices_excess(declared));
    }
    let Some(schema) = schema_place(alloc, declared, kind)? else {
        return breaks(Rule::Unknown);
    };
    if is_old {
        return breaks(Rule::Duplicate);
    }
    declared.names.add(name.copy(alloc)?)?;
    declared.devices.push(Device {
        name,
        schema,
        base: Row::new(alloc),
        max: Row::new(alloc),
        forbid: Row::new(alloc),
    })?;
    Ok(())
}

// `base D ITEM`.
#[tactic(auto, unfolding(crate::specs::Declarations::after_base))]
fn take_base(alloc: Global, declared: &mut Declared, rest: &str) -> Result<(), LineFault>
    requires { declared.old.names ≡ names_of declared.old.devices }
    ensures takes { Takes (after_base declared.old rest.now) declared.new result }
    ensures lawful { AreDeclared declared.old → OnOk result (AreDeclared declared.new) }
{
    let Some((name, item)) = cut(rest) else {
        return breaks(Rule::Line);
    };
    if !is_identifier(name) {
        return breaks(Rule::Line);
    }
    let long = long_name(name);
    let name = Text::from_str(alloc, name)?;
    let plain = Schema::plain(alloc);
    let put = read_put(
        alloc,
        None,
        declared.schema_named(&name, &plain),
        long,
        item,
    )?;
    let Some(n) = declared.names.place(&name) else {
        return breaks(Rule::Unknown);
    };
    add_base(alloc, &mut declared.devices, n, put)?;
    Ok(())
}

// `rule D max LISTPATH N`, after the word `max`.
#[tactic(auto, unfolding(crate::specs::Declarations::after_max))]
fn take_max(alloc: Global, declared: &mut Declared, name: &str, rest: &str) -> Result<(), LineFault>
    requires { declared.old.names ≡ names_of declared.old.devices }
    ensures takes { Takes (after_max declared.old name.now rest.now) declared.new result }
    ensures lawful { AreDeclared declared.old → OnOk result (AreDeclared declared.new) }
{
    let Some((word, count)) = cut(rest) else {
        return breaks(Rule::Line);
    };
    let Some(count) = number_of(count) else {
        return breaks(Rule::Line);
    };
    let long = long_name(name);
    let name = Text::from_str(alloc, name)?;
    let plain = Schema::plain(alloc);
    let path = read_list_path(alloc, declared.schema_named(&name, &plain), long, word)?;
    let Some(n) = declared.names.place(&name) else {
        return breaks(Rule::Unknown);
    };
    add_max(alloc, &mut declared.devices, n, (path, count))?;
    Ok(())
}

// `rule D forbid PATH = VALUE`, after the word `forbid`.
#[tactic(auto, unfolding(crate::specs::Declarations::after_forbid))]
fn take_forbid(
    alloc: Global,
    declared: &mut Declared,
    name: &str,
    rest: &str,
) -> Result<(), LineFault>
    requires { declared.old.names ≡ names_of declared.old.devices }
    ensures takes { Takes (after_forbid declared.old name.now rest.now) declared.new result }
    ensures lawful { AreDeclared declared.old → OnOk result (AreDeclared declared.new) }
{
    let long = long_name(name);
    let name = Text::from_str(alloc, name)?;
    let plain = Schema::plain(alloc);
    let leaf = read_forbidden(alloc, declared.schema_named(&name, &plain), long, rest)?;
    let Some(n) = declared.names.place(&name) else {
        return breaks(Rule::Unknown);
    };
    add_forbid(alloc, &mut declared.devices, n, leaf)?;
    Ok(())
}

// A rule of the device of this name, by its kind.
fn take_rule_kind(
    alloc: Global,
    declared: &mut Declared,
    name: &str,
    text: &str,
) -> Result<(), LineFault>
    requires { declared.old.names ≡ names_of declared.old.devices }
    ensures takes { Takes (rule_kind declared.old name.now (cut_at 32 text.now)) declared.new result }
    ensures lawful { AreDeclared declared.old → OnOk result (AreDeclared declared.new) }
{
    match cut(text) {
        Some(("max", rest)) => take_max(alloc, declared, name, rest),
        Some(("forbid", rest)) => take_forbid(alloc, declared, name, rest),
        _ => breaks(Rule::Line),
    }
}

// `rule D max ..` and `rule D forbid ..`.
#[tactic(auto, unfolding(crate::specs::Declarations::after_rule))]
fn take_rule(alloc: Global, declared: &mut Declared, rest: &str) -> Result<(), LineFault>
    requires { declared.old.names ≡ names_of declared.old.devices }
    ensures takes { Takes (after_rule declared.old rest.now) declared.new result }
    ensures lawful { AreDeclared declared.old → OnOk result (AreDeclared declared.new) }
{
    let Some((name, text)) = cut(rest) else {
        return breaks(Rule::Line);
    };
    if !is_identifier(name) {
        return breaks(Rule::Line);
    }
    take_rule_kind(alloc, declared, name, text)
}

// `data ITEM`.
#[tactic(auto, unfolding(crate::specs::Declarations::after_data))]
fn take_data(alloc: Global, declared: &mut Declared, rest: &str) -> Result<(), LineFault>
    ensures takes { Takes (after_data declared.old rest.now) declared.new result }
    ensures lawful { AreDeclared declared.old → OnOk result (AreDeclared declared.new) }
{
    let put = read_put(
        alloc,
        Some(declared.services.as_slice()),
        &declared.data_schema,
        None,
        rest,
    )?;
    declared.data.push(put)?;
    Ok(())
}

// `yang N`, with the bytes after the line.
#[tactic(auto, unfolding(crate::specs::Declarations::after_yang))]
fn take_yang(
    alloc: Global,
    declared: &mut Declared,
    rest: &str,
    later: &[u8],
) -> Result<(), LineFault>
    ensures takes { Takes (after_yang declared.old rest.now (lines_of later.now)) declared.new result }
    ensures lawful { AreDeclared declared.old → OnOk result (AreDeclared declared.new) }
{
    let Some(count) = number_of(rest) else {
        return breaks(Rule::Line);
    };
    let Some(text) = block_of(alloc, later, count)? else {
        return breaks(Rule::Line);
    };
    let module = module_of(alloc, text.as_slice())?;
    if module.name.as_str() == "orc" || declared.modules.has(&module.name) {
        return breaks(Rule::Duplicate);
    }
    declared.modules.add(module.name)?;
    declared.statements.push(module.statement)?;
    declared.skip = count;
    Ok(())
}

// `script`.
#[tactic(auto, unfolding(crate::specs::Declarations::after_script))]
fn take_script(declared: &mut Declared) -> Result<(), LineFault>
    ensures takes { Takes (after_script declared.old) declared.new result }
    ensures lawful { AreDeclared declared.old → OnOk result (AreDeclared declared.new) }
{
    declared.section = Section::Script;
    Ok(())
}

// A declaration of more than one word.
#[tactic(auto, unfolding(crate::specs::Declarations::declaration))]
fn take_words(
    alloc: Global,
    declared: &mut Declared,
    word: Keyword,
    rest: &str,
    later: &[u8],
    looks: &Looks,
) -> Result<(), LineFault>
    requires { declared.old.names ≡ names_of declared.old.devices }
    ensures takes { Takes (declaration word declared.old rest.now (lines_of later.now)) declared.new result }
    ensures lawful { AreDeclared declared.old → OnOk result (AreDeclared declared.new) }
{
    match word {
        Keyword::Device => take_device(alloc, declared, rest),
        Keyword::Datamodel => take_datamodel(alloc, declared, rest, looks),
        Keyword::Devicetype => take_devicetype(alloc, declared, rest, looks),
        Keyword::Rule => take_rule(alloc, declared, rest),
        Keyword::Base => take_base(alloc, declared, rest),
        Keyword::Data => take_data(alloc, declared, rest),
        Keyword::Yang => take_yang(alloc, declared, rest, later),
        Keyword::Template => take_template(alloc, declared, rest, later),
        _ => breaks(Rule::Line),
    }
}

// A declaration of one word.
#[tactic(auto, unfolding(crate::specs::Declarations::bare_declaration))]
fn take_word(declared: &mut Declared, word: Keyword) -> Result<(), LineFault>
    ensures takes { Takes (bare_declaration word declared.old) declared.new result }
    ensures lawful { AreDeclared declared.old → OnOk result (AreDeclared declared.new) }
{
    match word {
        Keyword::Script => take_script(declared),
        _ => breaks(Rule::Line),
    }
}

// A line that is not skipped.
#[tactic(auto, unfolding(crate::specs::Declarations::after_text))]
fn take_text(
    alloc: Global,
    declared: &mut Declared,
    text: &str,
    later: &[u8],
    looks: &Looks,
) -> Result<(), LineFault>
    requires { declared.old.names ≡ names_of declared.old.devices }
    ensures takes { Takes (after_text declared.old text.now (lines_of later.now)) declared.new result }
    ensures lawful { AreDeclared declared.old → OnOk result (AreDeclared declared.new) }
{
    if declared.section == Section::Header {
        return take_header(declared, text);
    }
    match cut(text) {
        Some((word, rest)) => take_words(alloc, declared, keyword_of(word), rest, later, looks),
        None => take_word(declared, keyword_of(text)),
    }
}

/// A line, with the bytes after it. So many bytes stand before it.
#[tactic(auto, unfolding(crate::specs::Declarations::declared_at))]
pub(crate) fn take_line(
    alloc: Global,
    declared: &mut Declared,
    at: u64,
    line: &[u8],
    later: &[u8],
    looks: &Looks,
) -> Result<(), LineFault>
    requires room { at + length line.now < 2 ^ 63 }
    requires named { declared.old.names ≡ names_of declared.old.devices }
    ensures takes { Takes (declared_at declared.old at line.now (lines_of later.now)) declared.new result }
    ensures lawful { AreDeclared declared.old → OnOk result (AreDeclared declared.new) }
    ensures small { OnOk result (at + length line.now ≤ LARGEST_BUNDLE) }
{
    if is_large(at, line) {
        return breaks_by(Rule::Size, large_excess(line));
    }
    if declared.skip > 0 {
        declared.skip -= 1;
        return Ok(());
    }
    let Some(text) = read_text(line_text(line)) else {
        return breaks(Rule::Utf8);
    };
    if is_skipped(text.as_bytes()) {
        return Ok(());
    }
    take_text(alloc, declared, text, later, looks)
}
