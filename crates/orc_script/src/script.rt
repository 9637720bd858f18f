//! The steps so far, and what each form of a script's line makes of them.
ghost use Rattle.std.specs.Prelude.{◌≡◌, ◌<◌, ◌≤◌, ◌+◌, ◌^◌, ℕ, List, IsTrue, OnOk, is_some, length};
ghost use Rattle.orc_lines.specs.Keywords.{keyword_of};
ghost use Rattle.orc_lines.specs.Lines.{lines_of};
ghost use Rattle.orc_lines.specs.Words.{first_word};
ghost use Rattle.orc_script.specs.Scripts.{no_steps, is_full, is_caller_more, after_bare, after_begin, after_on_device, after_fault, after_json, after_meta, after_stop, after_tick, after_call, after_step, a_step, bare_step, step_on_device, is_followed, step_name_of, words_at, word_at, scripted_at};
ghost use Rattle.orc_lines.specs.Answers.{ReadsLine, Takes};
ghost use Rattle.orc_decls.specs.Declarations.{AreDecls};
ghost use Rattle.orc_script.specs.inside.Lawful.{AreSteps, StaysAnywhere, StaysLawful};
ghost use Rattle.orc_decls.specs.declared.declarations.Decls.{Decls};
ghost use Rattle.orc_script.specs.Steps.{is_step, is_tick};
ghost use Rattle.orc_decls.specs.declared.lawful.TheConstants.{MOST_WRITES};
ghost use Rattle.orc_lines.specs.declared.lines.TheConstants.{LARGEST_BUNDLE};

use crate::operations::read_fault;
use crate::places::{device_number, read_device_node};
use crate::step::ScriptStep;
use orc_call::{Action, DevicePut};
use orc_decls::{Decls, Rule};
use orc_lines::{
    Detail, Excess, Keyword, LineFault, Names, breaks, breaks_by, cut, ends_later, first_word,
    is_large, is_skipped, keyword_of, large_excess, line_text, name_excess, number_of, read_text,
};
use orc_path::{is_identifier, is_long_name};
use orc_schema_nodes::Schema;
use orc_text::{Memory, Row, Text};
use std::alloc::Global;

/// The most callers of a script.
pub const MOST_CALLERS: usize = 256;

/// The most steps of a script.
pub const MOST_STEPS: usize = 100_000;

/// The most seconds of a line `tick`, a day.
pub const LONGEST_TICK: u64 = 86_400;

/// Which lines may stand.
#[derive(Clone, Copy)]
pub enum Part {
    /// Steps: no call is open.
    Steps,
    /// An action of the open call, or after one the line that ends the call.
    Call,
    /// A write of the open call's literal, or what may stand after an action.
    Literal,
}

/// The steps so far, with the callers that they name, and the parts of the open call.
#[derive(Drop)]
pub struct Script {
    pub part: Part,
    pub callers: Names,
    pub steps: Row<ScriptStep>,
    pub caller: Text,
    pub number: u64,
    /// The actions of the open call so far, but for a literal whose writes may go on.
    pub actions: Row<Action>,
    /// The name of that literal.
    pub name: Text,
    pub writes: Row<DevicePut>,
}

// Whether the lines after the one with this first word are as it needs them.
#[tactic(auto, unfolding(crate::specs::Scripts::is_followed))]
fn is_followed(word: Keyword, later: &[u8]) -> bool
    ensures { result ≡ is_followed word (lines_of later.now) }
{
    match word {
        Keyword::Call => ends_later(later),
        _ => true,
    }
}

// The step of a line with this first word that names a device and nothing more.
fn step_on_device(word: Keyword, device: u32) -> ScriptStep
    ensures { result ≡ step_on_device word device }
{
    match word {
        Keyword::Step => ScriptStep::Step(device),
        Keyword::Restart => ScriptStep::Restart(device),
        Keyword::Log => ScriptStep::Log(device),
        _ => ScriptStep::Show(device),
    }
}

// Whether so many seconds may pass in one line.
fn is_tick(seconds: u64) -> bool
    ensures { result ≡ is_tick seconds }
{
    1 <= seconds && seconds <= LONGEST_TICK
}

impl Script {
    /// No step, and no call is open.
    pub(crate) fn new(alloc: Global) -> Script
        ensures { result ≡ no_steps }
    {
        Script {
            part: Part::Steps,
            callers: Names::new(alloc),
            steps: Row::new(alloc),
            caller: Text::new(alloc),
            number: 0,
            actions: Row::new(alloc),
            name: Text::new(alloc),
            writes: Row::new(alloc),
        }
    }

    // Whether no step more can stand.
    fn is_full(&self) -> bool
        ensures { result ≡ is_full self.now }
    {
        self.steps.len() >= MOST_STEPS
    }

    // How many steps there are, where no more can stand.
    fn full(&self) -> Option<u64>
        ensures { is_some result ≡ is_full self.now }
    {
        match self.is_full() {
            true => Some(self.steps.len() as u64),
            false => None,
        }
    }

    // Of a step more than there can be.
    fn steps_excess(&self) -> Detail {
        Detail::Size(Excess::Steps(self.steps.len() as u64))
    }

    // A step of one word.
    fn take_bare(&mut self, step: ScriptStep) -> Result<(), LineFault>
        ensures takes { Takes (after_bare self.old step) self.new result }
        ensures lawful { (decls : Decls) (most : ℕ) → AreSteps decls most self.old
            → IsTrue (is_step decls step) → OnOk result (AreSteps decls most self.new) }
    {
        if self.is_full() {
            return breaks_by(Rule::Size, self.steps_excess());
        }
        self.steps.push(step)?;
        Ok(())
    }

    // Of a step that names this, where the name is too long, or else of one more than there can be.
    fn step_excess(&self, alloc: Global, name: &str) -> Result<Detail, Memory> {
        match is_long_name(name) {
            true => name_excess(alloc, name),
            false => Ok(self.steps_excess()),
        }
    }

    // `D`, the name of a device, in a step more.
    fn read_step_name(&self, alloc: Global, rest: &str) -> Result<Text, LineFault>
        ensures { ReadsLine (step_name_of self.now rest.now) result }
    {
        if !is_identifier(rest) {
            return breaks(Rule::Line);
        }
        if is_long_name(rest) || self.is_full() {
            return breaks_by(Rule::Size, self.step_excess(alloc, rest)?);
        }
        Ok(Text::from_str(alloc, rest)?)
    }

    // `step D`, `restart D`, `log D` and `show D`, by their first word.
    #[tactic(auto, unfolding(crate::specs::Scripts::after_on_device))]
    fn take_device(
        &mut self,
        alloc: Global,
        decls: &Decls,
        word: Keyword,
        rest: &str,
    ) -> Result<(), LineFault>
        requires { AreDecls decls.now }
        ensures takes { Takes (after_on_device word decls.now self.old rest.now) self.new result }
        ensures lawful { StaysLawful decls.now self.old self.new result }
    {
        let name = self.read_step_name(alloc, rest)?;
        let Some(n) = device_number(decls, &name) else {
            return breaks(Rule::Unknown);
        };
        self.steps.push(step_on_device(word, n))?;
        Ok(())
    }

    // `json D`.
    #[tactic(auto, unfolding(crate::specs::Scripts::after_json))]
    fn take_json(&mut self, alloc: Global, decls: &Decls, rest: &str) -> Result<(), LineFault>
        requires { AreDecls decls.now }
        ensures takes { Takes (after_json decls.now self.old rest.now) self.new result }
        ensures lawful { StaysLawful decls.now self.old self.new result }
    {
        let name = self.read_step_name(alloc, rest)?;
        let plain = Schema::plain(alloc);
        if decls.schema_named(&name, &plain).is_plain() {
            return breaks(Rule::Unknown);
        }
        let Some(n) = device_number(decls, &name) else {
            return breaks(Rule::Unknown);
        };
        self.steps.push(ScriptStep::Json(n))?;
        Ok(())
    }

    // `meta D PATH`.
    #[tactic(auto, unfolding(crate::specs::Scripts::after_meta))]
    fn take_meta(&mut self, alloc: Global, decls: &Decls, rest: &str) -> Result<(), LineFault>
        requires { AreDecls decls.now }
        ensures takes { Takes (after_meta decls.now self.old rest.now) self.new result }
        ensures lawful { StaysLawful decls.now self.old self.new result }
    {
        let node = read_device_node(alloc, decls, self.full(), rest)?;
        self.steps.push(ScriptStep::Meta(node.0, node.1))?;
        Ok(())
    }

    // `stop K B`.
    #[tactic(auto, unfolding(crate::specs::Scripts::after_stop))]
    fn take_stop(&mut self, rest: &str) -> Result<(), LineFault>
        ensures takes { Takes (after_stop self.old rest.now) self.new result }
        ensures lawful { (decls : Decls) → StaysLawful decls self.old self.new result }
    {
        let Some((count, bytes)) = cut(rest) else {
            return breaks(Rule::Line);
        };
        let Some(count) = number_of(count) else {
            return breaks(Rule::Line);
        };
        let Some(bytes) = number_of(bytes) else {
            return breaks(Rule::Line);
        };
        self.take_bare(ScriptStep::StopAt(count, bytes))
    }

    // `tick N`.
    #[tactic(auto, unfolding(crate::specs::Scripts::after_tick))]
    fn take_tick(&mut self, rest: &str) -> Result<(), LineFault>
        ensures takes { Takes (after_tick self.old rest.now) self.new result }
        ensures lawful { (decls : Decls) → StaysLawful decls self.old self.new result }
    {
        let Some(seconds) = number_of(rest) else {
            return breaks(Rule::Line);
        };
        if !is_tick(seconds) {
            return breaks_by(Rule::Size, Detail::Size(Excess::Seconds(seconds)));
        }
        self.take_bare(ScriptStep::Tick(seconds as u32))
    }

    // `fault D OP before` and `fault D OP after`.
    #[tactic(auto, unfolding(crate::specs::Scripts::after_fault))]
    fn take_fault(&mut self, alloc: Global, decls: &Decls, rest: &str) -> Result<(), LineFault>
        requires { AreDecls decls.now }
        ensures takes { Takes (after_fault decls.now self.old rest.now) self.new result }
        ensures lawful { StaysLawful decls.now self.old self.new result }
    {
        let Some((name, what)) = cut(rest) else {
            return breaks(Rule::Line);
        };
        let fault = read_fault(what)?;
        let name = self.read_step_name(alloc, name)?;
        let Some(n) = device_number(decls, &name) else {
            return breaks(Rule::Unknown);
        };
        self.steps.push(ScriptStep::Fault(n, fault.0, fault.1))?;
        Ok(())
    }

    // Whether this would be a caller more than can be.
    fn is_caller_more(&self, name: &Text) -> bool
        ensures { result ≡ is_caller_more self.now name.now }
    {
        !self.callers.has(name) && self.callers.len() >= MOST_CALLERS
    }

    // Of a step that names this caller, where that or the step passes a limit, or else of a caller more than there
    // can be.
    fn caller_excess(&self, alloc: Global, name: &str) -> Result<Detail, Memory> {
        match is_long_name(name) || self.is_full() {
            true => self.step_excess(alloc, name),
            false => Ok(Detail::Size(Excess::Callers(self.callers.len() as u64))),
        }
    }

    // `begin C`.
    #[tactic(auto, unfolding(crate::specs::Scripts::after_begin))]
    fn take_begin(&mut self, alloc: Global, rest: &str) -> Result<(), LineFault>
        ensures takes { Takes (after_begin self.old rest.now) self.new result }
        ensures lawful { (decls : Decls) → StaysLawful decls self.old self.new result }
    {
        if !is_identifier(rest) {
            return breaks(Rule::Line);
        }
        let name = Text::from_str(alloc, rest)?;
        if is_long_name(rest) || self.is_full() || self.is_caller_more(&name) {
            return breaks_by(Rule::Size, self.caller_excess(alloc, rest)?);
        }
        self.callers.add(name.copy(alloc)?)?;
        self.steps.push(ScriptStep::Begin(name))?;
        Ok(())
    }

    // `call C N`, followed or not.
    #[tactic(auto, unfolding(crate::specs::Scripts::after_call))]
    fn take_call(&mut self, alloc: Global, rest: &str, followed: bool) -> Result<(), LineFault>
        ensures takes { Takes (after_call self.old rest.now followed) self.new result }
        ensures lawful { (decls : Decls) → StaysLawful decls self.old self.new result }
    {
        let Some((caller, number)) = cut(rest) else {
            return breaks(Rule::Line);
        };
        let Some(number) = number_of(number) else {
            return breaks(Rule::Line);
        };
        if !is_identifier(caller) {
            return breaks(Rule::Line);
        }
        let name = Text::from_str(alloc, caller)?;
        if is_long_name(caller) || self.is_full() || self.is_caller_more(&name) {
            return breaks_by(Rule::Size, self.caller_excess(alloc, caller)?);
        }
        if !followed {
            return breaks(Rule::Line);
        }
        self.callers.add(name.copy(alloc)?)?;
        self.part = Part::Call;
        self.caller = name;
        self.number = number;
        self.actions = Row::new(alloc);
        Ok(())
    }

    // A step of more than one word.
    #[tactic(auto, unfolding(crate::specs::Scripts::a_step))]
    fn take_step(
        &mut self,
        alloc: Global,
        decls: &Decls,
        word: Keyword,
        rest: &str,
        followed: bool,
    ) -> Result<(), LineFault>
        requires { AreDecls decls.now }
        ensures takes { Takes (a_step word decls.now self.old rest.now followed) self.new result }
        ensures lawful { StaysLawful decls.now self.old self.new result }
    {
        match word {
            Keyword::Begin => self.take_begin(alloc, rest),
            Keyword::Step => self.take_device(alloc, decls, Keyword::Step, rest),
            Keyword::Tick => self.take_tick(rest),
            Keyword::Restart => self.take_device(alloc, decls, Keyword::Restart, rest),
            Keyword::Fault => self.take_fault(alloc, decls, rest),
            Keyword::Show => self.take_device(alloc, decls, Keyword::Show, rest),
            Keyword::Log => self.take_device(alloc, decls, Keyword::Log, rest),
            Keyword::Json => self.take_json(alloc, decls, rest),
            Keyword::Meta => self.take_meta(alloc, decls, rest),
            Keyword::Stop => self.take_stop(rest),
            Keyword::Call => self.take_call(alloc, rest, followed),
            _ => breaks(Rule::Line),
        }
    }

    // A step of one word.
    #[tactic(auto, unfolding(crate::specs::Scripts::bare_step))]
    fn take_bare_step(&mut self, word: Keyword) -> Result<(), LineFault>
        ensures takes { Takes (bare_step word self.old) self.new result }
        ensures lawful { (decls : Decls) → StaysLawful decls self.old self.new result }
    {
        match word {
            Keyword::Admit => self.take_bare(ScriptStep::Admit),
            Keyword::Decide => self.take_bare(ScriptStep::Decide),
            Keyword::Settle => self.take_bare(ScriptStep::Settle),
            Keyword::Stop => self.take_bare(ScriptStep::Stop),
            Keyword::Recover => self.take_bare(ScriptStep::Recover),
            Keyword::Reconcile => self.take_bare(ScriptStep::Reconcile),
            Keyword::History => self.take_bare(ScriptStep::History),
            Keyword::Data => self.take_bare(ScriptStep::ShowData),
            _ => breaks(Rule::Line),
        }
    }

    // A line of more than one word.
    #[tactic(auto, unfolding(crate::specs::Scripts::words_at))]
    fn take_words(
        &mut self,
        alloc: Global,
        decls: &Decls,
        word: Keyword,
        rest: &str,
        followed: bool,
    ) -> Result<(), LineFault>
        requires { AreDecls decls.now }
        ensures takes { Takes
            (words_at self.old.part word decls.now self.old rest.now followed)
            self.new result }
        ensures lawful { StaysAnywhere decls.now self.old self.new result }
    {
        match self.part {
            Part::Steps => self.take_step(alloc, decls, word, rest, followed),
            Part::Call => self.take_action(alloc, decls, word, rest),
            Part::Literal => self.take_behind_literal(alloc, decls, word, rest),
        }
    }

    // A line of one word.
    #[tactic(auto, unfolding(crate::specs::Scripts::word_at))]
    fn take_word(&mut self, alloc: Global, word: Keyword) -> Result<(), LineFault>
        ensures takes { Takes (word_at self.old.part word self.old) self.new result }
        ensures lawful { (decls : Decls) (most : ℕ) → AreSteps decls most self.old → most ≤ MOST_WRITES
            → OnOk result (AreSteps decls most self.new) }
    {
        match self.part {
            Part::Steps => self.take_bare_step(word),
            Part::Call => self.take_call_end(alloc, word),
            Part::Literal => {
                self.close_literal(alloc)?;
                self.take_call_end(alloc, word)
            }
        }
    }

    // A line that is not skipped, with the bytes after it.
    #[tactic(auto, unfolding(crate::specs::Scripts::after_step))]
    fn take_text(
        &mut self,
        alloc: Global,
        decls: &Decls,
        text: &str,
        later: &[u8],
    ) -> Result<(), LineFault>
        requires { AreDecls decls.now }
        ensures takes { Takes (after_step decls.now self.old text.now (lines_of later.now)) self.new result }
        ensures lawful { StaysAnywhere decls.now self.old self.new result }
    {
        let word = keyword_of(first_word(text));
        let followed = is_followed(word, later);
        match cut(text) {
            Some((_, rest)) => self.take_words(alloc, decls, word, rest, followed),
            None => self.take_word(alloc, word),
        }
    }

    /// A line, with the bytes after it. So many bytes stand before it.
    #[tactic(auto, unfolding(crate::specs::Scripts::scripted_at))]
    pub(crate) fn take(
        &mut self,
        alloc: Global,
        decls: &Decls,
        at: u64,
        line: &[u8],
        later: &[u8],
    ) -> Result<(), LineFault>
        requires room { at + length line.now < 2 ^ 63 }
        requires decls { AreDecls decls.now }
        ensures takes { Takes (scripted_at decls.now self.old at line.now (lines_of later.now)) self.new result }
        ensures lawful { StaysAnywhere decls.now self.old self.new result }
        ensures small { OnOk result (at + length line.now ≤ LARGEST_BUNDLE) }
    {
        if is_large(at, line) {
            return breaks_by(Rule::Size, large_excess(line));
        }
        let Some(text) = read_text(line_text(line)) else {
            return breaks(Rule::Utf8);
        };
        if is_skipped(text.as_bytes()) {
            return Ok(());
        }
        self.take_text(alloc, decls, text, later)
    }
}
