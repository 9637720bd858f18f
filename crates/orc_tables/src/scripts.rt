//! Tables of scripts: of each how many steps it has, or which line is at fault and for which rule.
//!
//! In a table `|` ends a line of a text.
//!
//! - `head TEXT`: the next scripts stand after these declarations
//! - `more N TEXT`: and after this text, N times, where `#` is the number of the time
//! - `steps N SCRIPT`: the script has so many steps
//! - `fault LINE RULE SCRIPT`: this line of it is at fault, counted from the first one after the
//!   declarations, for this rule
ghost use Rattle.std.specs.Prelude.{◌≤◌, length};
ghost use Rattle.orc_bundle.specs.Bundles.{IsBundle};

use crate::line::first_word;
use crate::table::Table;
use crate::undone::Undone;
use orc_bundle::{Bundle, ScriptStep, read_bundle};
use orc_decls::BundleFault;
use orc_script::read_script;
use orc_text::Row;
use std::alloc::Global;

/// The declarations, and what stands between them and each script.
#[derive(Drop)]
pub(crate) struct Scripts {
    alloc: Global,
    head: String,
    front: String,
}

// The steps of the script of a bundle of these bytes, or its fault.
fn steps_of(alloc: Global, bytes: &[u8], bundle: Bundle) -> Result<Row<ScriptStep>, BundleFault>
    requires bundle { IsBundle bundle }
    requires within { bundle.rest ≤ length bytes.now }
{
    read_script(alloc, bytes, bundle.rest, bundle.line, &bundle.decls)
}

impl Table for Scripts {
    fn take(&mut self, line: &str) -> Result<bool, Undone> {
        let (word, rest) = first_word(line);
        match word {
            "head" => {
                self.head = rest.replace(self.alloc, "|", "\n")?;
                self.front = String::new(self.alloc);
            }
            "more" => self.more(rest)?,
            "steps" => return self.has_steps(rest),
            "fault" => return self.has_fault(rest),
            _ => return Err(Undone),
        }
        Ok(true)
    }
}

impl Scripts {
    /// No declarations, and nothing after them.
    pub(crate) fn new(alloc: Global) -> Scripts {
        Scripts {
            alloc,
            head: String::new(alloc),
            front: String::new(alloc),
        }
    }

    // `N TEXT`: so many times the text stands before each script.
    fn more(&mut self, rest: &str) -> Result<(), Undone> {
        let (count, text) = first_word(rest);
        let count: u32 = count.parse()?;
        let text = text.replace(self.alloc, "|", "\n")?;
        self.front = String::new(self.alloc);
        for time in 0..count {
            let number = time.to_string(self.alloc)?;
            let once = text.as_str().replace(self.alloc, "#", number.as_str())?;
            self.front.push_str(once.as_str())?;
        }
        Ok(())
    }

    // `N SCRIPT`.
    fn has_steps(&self, rest: &str) -> Result<bool, Undone> {
        let (count, script) = first_word(rest);
        let count: usize = count.parse()?;
        match self.read(script)? {
            Ok(steps) => Ok(steps.len() == count),
            Err(_) => Ok(false),
        }
    }

    // `LINE RULE SCRIPT`.
    fn has_fault(&self, rest: &str) -> Result<bool, Undone> {
        let (wanted, rest) = first_word(rest);
        let (named, script) = first_word(rest);
        let wanted: u64 = wanted.parse()?;
        match self.read(script)? {
            Err(BundleFault::At { line, rule }) => {
                let declared = self.head.as_str().lines().count() as u64;
                let name = format!(in self.alloc; "{rule}")?;
                Ok(line.checked_sub(declared) == Some(wanted) && name.as_str() == named)
            }
            _ => Ok(false),
        }
    }

    // The steps of a script after the declarations, or its fault.
    fn read(&self, script: &str) -> Result<Result<Row<ScriptStep>, BundleFault>, Undone> {
        let mut whole = String::from_str(self.alloc, self.head.as_str())?;
        whole.push_str(self.front.as_str())?;
        let lines = script.replace(self.alloc, "|", "\n")?;
        whole.push_str(lines.as_str())?;
        let bytes = whole.as_str().as_bytes();
        match read_bundle(self.alloc, bytes) {
            Ok(bundle) => Ok(steps_of(self.alloc, bytes, bundle)),
            Err(_) => Err(Undone),
        }
    }
}
