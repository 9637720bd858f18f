//! Reading of a bundle's declarations.
ghost use Rattle.std.specs.Prelude.{◌≡◌, ◌<◌, ◌≤◌, ◌^◌, IfOk, length};
ghost use Rattle.orc_bundle.specs.Bundles.{IsBundle, bundle_in, bundle_of, header_rule};
ghost use Rattle.orc_lines.specs.Answers.{Explains, Gives};
ghost use Rattle.orc_lines.specs.Lines.{lines_of};

use orc_declarations::{Bundle, read_declarations_explained};
use orc_decls::{BundleFault, Rule};
use orc_lines::{
    Detail, ExplainedFault, first_line, is_large, lacks_header, large_excess, line_text,
    plain_fault, read_text, seen,
};
use std::alloc::Global;

// The rule that line 1 breaks where no line is the header.
fn header_rule(bytes: &[u8]) -> Rule
    requires { length bytes.now < 2 ^ 63 }
    ensures { result ≡ header_rule (lines_of bytes.now) }
{
    if bytes.is_empty() {
        return Rule::Header;
    }
    let (line, _) = first_line(bytes);
    if is_large(0, line) {
        return Rule::Size;
    }
    match read_text(line_text(line)) {
        Some(_) => Rule::Header,
        None => Rule::Utf8,
    }
}

// What in particular is at fault in line 1, which breaks this rule, where no line is the header.
fn header_detail(bytes: &[u8], rule: Rule) -> Detail {
    if rule == Rule::Size && !bytes.is_empty() {
        let (line, _) = first_line(bytes);
        return large_excess(line);
    }
    Detail::Plain
}

// The bundle of these bytes, all of which are looked at.
fn read_seen(alloc: Global, bytes: &[u8]) -> Result<Bundle, ExplainedFault>
    ensures gives { Explains (bundle_in bytes.now (lines_of bytes.now)) result }
    ensures lawful { IfOk result IsBundle }
    ensures within { IfOk result (λ bundle. bundle.rest ≤ length bytes.now) }
    ensures text { IfOk result (λ bundle. length bundle.decls.text ≤ length bytes.now) }
{
    if lacks_header(bytes) {
        let rule = header_rule(bytes);
        return Err(ExplainedFault::At {
            line: 1,
            rule,
            detail: header_detail(bytes, rule),
        });
    }
    read_declarations_explained(alloc, bytes)
}

/// The same as `read_bundle` answers, and of a fault what in particular it is.
pub fn read_bundle_explained(alloc: Global, bytes: &[u8]) -> Result<Bundle, ExplainedFault>
    // The one answer, unless memory runs out.
    ensures gives { Explains (bundle_of bytes.now) result }
    // What is read is lawful.
    ensures lawful { IfOk result IsBundle }
    ensures within { IfOk result (λ bundle. bundle.rest ≤ length bytes.now) }
    // The journal stores the text of the declarations, which has to be as short.
    ensures short { IfOk result (λ bundle. length bundle.decls.text < 2 ^ 32) }
{
    read_seen(alloc, seen(bytes))
}

/// What the bundle of these bytes declares, and where its script begins; or the first line at fault,
/// counted from 1, and the first rule that it breaks. The lines of the script are not looked at:
/// `read_script` of `orc_script` reads them.
///
/// Of more bytes than a bundle may have one more is looked at, as if these were all.
pub fn read_bundle(alloc: Global, bytes: &[u8]) -> Result<Bundle, BundleFault>
    // The one answer, unless memory runs out.
    ensures gives { Gives (bundle_of bytes.now) result }
    // What is read is lawful.
    ensures lawful { IfOk result IsBundle }
    ensures within { IfOk result (λ bundle. bundle.rest ≤ length bytes.now) }
    // The journal stores the text of the declarations, which has to be as short.
    ensures short { IfOk result (λ bundle. length bundle.decls.text < 2 ^ 32) }
{
    match read_bundle_explained(alloc, bytes) {
        Ok(bundle) => Ok(bundle),
        Err(fault) => Err(plain_fault(fault)),
    }
}
