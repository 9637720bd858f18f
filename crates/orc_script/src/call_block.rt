//! What each line of a call block makes of the open call.
ghost use Rattle.std.specs.Prelude.{◌≡◌, ◌≤◌, ◌+◌, ◌||◌, ℕ, IfOk, IsTrue, OnOk, false};
ghost use Rattle.orc_decls.specs.declared.declarations.Decls.{Decls};
ghost use Rattle.orc_decls.specs.declared.lawful.TheConstants.{MOST_WRITES};
ghost use Rattle.orc_script.specs.Scripts.{after_base_put, after_base_remove, after_delete, after_end, after_literal, after_bodied, after_redeploy, after_set, after_unset, after_write, an_action, named_or_listed, new_name_of, service_body_of, service_id_of, behind_literal, call_end, is_call_full, with_literal, bodied_action};
ghost use Rattle.orc_decls.specs.Declarations.{AreDecls};
ghost use Rattle.orc_script.specs.inside.Lawful.{AreSteps, StaysInCall};
ghost use Rattle.orc_lines.specs.Answers.{ReadsLine, Takes};
ghost use Rattle.orc_decls.specs.Calls.{is_service_among};
ghost use Rattle.orc_decls.specs.Calls.{has_body, is_lawful_name, is_service};

use crate::bodies::{begins_as_path, body_excess, is_long_body, keep_body, read_body};
use crate::places::{read_device_item, read_device_path};
use crate::script::{Part, Script};
use crate::step::ScriptStep;
use orc_call::{Action, Call, MOST_ACTIONS, Put};
use orc_decls::{Decls, Rule, is_service_among};
use orc_lines::{
    Keyword, LineFault, breaks, breaks_by, cut, name_excess, read_data_path, read_put,
    read_service_path,
};
use orc_path::{is_identifier, is_long_name};
use orc_text::{Memory, Row, Text};
use std::alloc::Global;
use std::mem::replace;

// The action of a line with this first word that names a service and its body.
fn bodied_action(word: Keyword, id: Text, body: Row<Put>) -> Action
    ensures { result ≡ bodied_action word id body }
{
    match word {
        Keyword::Modify => Action::Modify(id, body),
        _ => Action::Create(id, body),
    }
}

impl Script {
    // Whether no action more can stand in the open call.
    fn is_call_full(&self) -> bool
        ensures { result ≡ is_call_full self.now }
    {
        self.actions.len() >= MOST_ACTIONS
    }

    // `NAME`, the id of a service that no other action of the call names.
    fn read_new_name(&self, alloc: Global, name: &str) -> Result<Text, LineFault>
        ensures reads { ReadsLine (new_name_of self.now name.now) result }
        ensures lawful { IfOk result (λ id. IsTrue (is_lawful_name id)) }
        ensures new { IfOk result (λ id. is_service_among self.now.actions id ≡ false) }
        ensures room { OnOk result (is_call_full self.now ≡ false) }
    {
        if !is_identifier(name) || self.is_call_full() {
            return breaks(Rule::Line);
        }
        if is_long_name(name) {
            return breaks_by(Rule::Size, name_excess(alloc, name)?);
        }
        let name = Text::from_str(alloc, name)?;
        if is_service_among(self.actions.as_slice(), &name) {
            return breaks(Rule::Duplicate);
        }
        Ok(name)
    }

    // `literal NAME`, whose writes are to come.
    #[tactic(auto, unfolding(crate::specs::Scripts::after_literal))]
    fn take_literal(&mut self, alloc: Global, name: &str) -> Result<(), LineFault>
        ensures takes { Takes (after_literal self.old name.now) self.new result }
        ensures lawful { (decls : Decls) → StaysInCall decls self.old self.new result }
    {
        let name = self.read_new_name(alloc, name)?;
        self.part = Part::Literal;
        self.name = name;
        self.writes = Row::new(alloc);
        Ok(())
    }

    // `PATH`, that of a service that no other action of the call names; the text is the path's.
    fn read_service(&self, alloc: Global, decls: &Decls, rest: &str) -> Result<Text, LineFault>
        ensures reads { ReadsLine (service_id_of decls.now self.now rest.now) result }
        ensures lawful { IfOk result (λ id. IsTrue (is_service decls.now id)) }
        ensures new { IfOk result (λ id. is_service_among self.now.actions id ≡ false) }
        ensures room { OnOk result (is_call_full self.now ≡ false) }
    {
        if self.is_call_full() || cut(rest).is_some() {
            return breaks(Rule::Line);
        }
        let lists = decls.services();
        let schema = decls.data_schema();
        let path = read_service_path(alloc, lists, schema, rest)?;
        let id = path.text(alloc)?;
        if is_service_among(self.actions.as_slice(), &id) {
            return breaks(Rule::Duplicate);
        }
        Ok(id)
    }

    // `redeploy PATH`.
    #[tactic(auto, unfolding(crate::specs::Scripts::after_redeploy))]
    fn take_redeploy(&mut self, alloc: Global, decls: &Decls, rest: &str) -> Result<(), LineFault>
        ensures takes { Takes (after_redeploy decls.now self.old rest.now) self.new result }
        ensures lawful { StaysInCall decls.now self.old self.new result }
    {
        let id = self.read_service(alloc, decls, rest)?;
        self.actions.push(Action::Redeploy(id))?;
        Ok(())
    }

    // `NAME` or `PATH`, the id of a service that no other action of the call names.
    fn read_any_service(&self, alloc: Global, decls: &Decls, rest: &str) -> Result<Text, LineFault>
        ensures reads { ReadsLine (named_or_listed decls.now self.now rest.now) result }
        ensures lawful { IfOk result (λ id. IsTrue (is_lawful_name id || is_service decls.now id)) }
        ensures new { IfOk result (λ id. is_service_among self.now.actions id ≡ false) }
        ensures room { OnOk result (is_call_full self.now ≡ false) }
    {
        if begins_as_path(rest.as_bytes()) {
            return self.read_service(alloc, decls, rest);
        }
        self.read_new_name(alloc, rest)
    }

    // `delete ID`.
    #[tactic(auto, unfolding(crate::specs::Scripts::after_delete))]
    fn take_delete(&mut self, alloc: Global, decls: &Decls, rest: &str) -> Result<(), LineFault>
        ensures takes { Takes (after_delete decls.now self.old rest.now) self.new result }
        ensures lawful { StaysInCall decls.now self.old self.new result }
    {
        let id = self.read_any_service(alloc, decls, rest)?;
        self.actions.push(Action::Delete(id))?;
        Ok(())
    }

    // `PATH JSON`: the id of a service that no other action of the call names, and its body.
    fn read_bodied(
        &self,
        alloc: Global,
        decls: &Decls,
        rest: &str,
    ) -> Result<(Text, Row<Put>), LineFault>
        ensures reads { ReadsLine (service_body_of decls.now self.now rest.now) result }
        ensures lawful { IfOk result (λ made. IsTrue (is_service decls.now made.0)) }
        ensures bodied { IfOk result (λ made. IsTrue (has_body decls.now made.0 made.1)) }
        ensures new { IfOk result (λ made. is_service_among self.now.actions made.0 ≡ false) }
        ensures room { OnOk result (is_call_full self.now ≡ false) }
    {
        if self.is_call_full() {
            return breaks(Rule::Line);
        }
        let Some((word, text)) = cut(rest) else {
            return breaks(Rule::Line);
        };
        if text.is_empty() {
            return breaks(Rule::Line);
        }
        let lists = decls.services();
        let schema = decls.data_schema();
        let path = read_service_path(alloc, lists, schema, word)?;
        let found = read_body(alloc, schema, &path, text.as_bytes())?;
        if is_long_body(&found.body) {
            return breaks_by(Rule::Size, body_excess(alloc, &found.body)?);
        }
        let id = path.text(alloc)?;
        if is_service_among(self.actions.as_slice(), &id) {
            return breaks(Rule::Duplicate);
        }
        let body = keep_body(alloc, schema, &path, text, found)?;
        Ok((id, body))
    }

    // `create PATH JSON` and `modify PATH JSON`, by their first word.
    #[tactic(auto, unfolding(crate::specs::Scripts::after_bodied))]
    fn take_bodied(
        &mut self,
        alloc: Global,
        decls: &Decls,
        word: Keyword,
        rest: &str,
    ) -> Result<(), LineFault>
        ensures takes { Takes (after_bodied word decls.now self.old rest.now) self.new result }
        ensures lawful { StaysInCall decls.now self.old self.new result }
    {
        let (id, body) = self.read_bodied(alloc, decls, rest)?;
        self.actions.push(bodied_action(word, id, body))?;
        Ok(())
    }

    // `set ITEM`.
    #[tactic(auto, unfolding(crate::specs::Scripts::after_set))]
    fn take_set(&mut self, alloc: Global, decls: &Decls, rest: &str) -> Result<(), LineFault>
        ensures takes { Takes (after_set decls.now self.old rest.now) self.new result }
        ensures lawful { StaysInCall decls.now self.old self.new result }
    {
        if self.is_call_full() {
            return breaks(Rule::Line);
        }
        let lists = decls.services();
        let schema = decls.data_schema();
        let put = read_put(alloc, Some(lists), schema, None, rest)?;
        self.actions.push(Action::Set(put))?;
        Ok(())
    }

    // `unset PATH`.
    #[tactic(auto, unfolding(crate::specs::Scripts::after_unset))]
    fn take_unset(&mut self, alloc: Global, decls: &Decls, rest: &str) -> Result<(), LineFault>
        ensures takes { Takes (after_unset decls.now self.old rest.now) self.new result }
        ensures lawful { StaysInCall decls.now self.old self.new result }
    {
        if self.is_call_full() || cut(rest).is_some() {
            return breaks(Rule::Line);
        }
        let lists = decls.services();
        let schema = decls.data_schema();
        let path = read_data_path(alloc, lists, schema, rest)?;
        self.actions.push(Action::Unset(path))?;
        Ok(())
    }

    // `base D ITEM`.
    #[tactic(auto, unfolding(crate::specs::Scripts::after_base_put))]
    fn take_base_put(&mut self, alloc: Global, decls: &Decls, rest: &str) -> Result<(), LineFault>
        requires { AreDecls decls.now }
        ensures takes { Takes (after_base_put decls.now self.old rest.now) self.new result }
        ensures lawful { StaysInCall decls.now self.old self.new result }
    {
        if self.is_call_full() {
            return breaks(Rule::Line);
        }
        let put = read_device_item(alloc, decls, rest)?;
        self.actions.push(Action::BasePut(put))?;
        Ok(())
    }

    // `unbase D PATH`.
    #[tactic(auto, unfolding(crate::specs::Scripts::after_base_remove))]
    fn take_base_remove(
        &mut self,
        alloc: Global,
        decls: &Decls,
        rest: &str,
    ) -> Result<(), LineFault>
        requires { AreDecls decls.now }
        ensures takes { Takes (after_base_remove decls.now self.old rest.now) self.new result }
        ensures lawful { StaysInCall decls.now self.old self.new result }
    {
        if self.is_call_full() {
            return breaks(Rule::Line);
        }
        let named = read_device_path(alloc, decls, rest)?;
        self.actions.push(Action::BaseRemove(named.0, named.1))?;
        Ok(())
    }

    // `write D ITEM`.
    #[tactic(auto, unfolding(crate::specs::Scripts::after_write))]
    fn take_write(&mut self, alloc: Global, decls: &Decls, rest: &str) -> Result<(), LineFault>
        requires { AreDecls decls.now }
        ensures takes { Takes (after_write decls.now self.old rest.now) self.new result }
        ensures lawful { (most : ℕ) → AreSteps decls.now most self.old → self.old.part ≡ Part.Literal
            → OnOk result (AreSteps decls.now (most + 1) self.new) }
    {
        let write = read_device_item(alloc, decls, rest)?;
        self.writes.push(write)?;
        Ok(())
    }

    // An action of the open call.
    #[tactic(auto, unfolding(crate::specs::Scripts::an_action))]
    pub(crate) fn take_action(
        &mut self,
        alloc: Global,
        decls: &Decls,
        word: Keyword,
        rest: &str,
    ) -> Result<(), LineFault>
        requires { AreDecls decls.now }
        ensures takes { Takes (an_action word decls.now self.old rest.now) self.new result }
        ensures lawful { StaysInCall decls.now self.old self.new result }
    {
        match word {
            Keyword::Create => self.take_bodied(alloc, decls, word, rest),
            Keyword::Modify => self.take_bodied(alloc, decls, word, rest),
            Keyword::Redeploy => self.take_redeploy(alloc, decls, rest),
            Keyword::Literal => self.take_literal(alloc, rest),
            Keyword::Delete => self.take_delete(alloc, decls, rest),
            Keyword::Set => self.take_set(alloc, decls, rest),
            Keyword::Unset => self.take_unset(alloc, decls, rest),
            Keyword::Base => self.take_base_put(alloc, decls, rest),
            Keyword::Unbase => self.take_base_remove(alloc, decls, rest),
            _ => breaks(Rule::Line),
        }
    }

    // The open literal gets its writes, and becomes an action of the call.
    pub(crate) fn close_literal(&mut self, alloc: Global) -> Result<(), Memory>
        ensures closed { OnOk result (self.new ≡ with_literal self.old) }
        ensures lawful { (decls : Decls) (most : ℕ) → AreSteps decls most self.old
            → self.old.part ≡ Part.Literal → most ≤ MOST_WRITES → OnOk result (AreSteps decls most self.new) }
    {
        let name = replace(&mut self.name, Text::new(alloc));
        let writes = replace(&mut self.writes, Row::new(alloc));
        self.actions.push(Action::Literal(name, writes))?;
        self.part = Part::Call;
        Ok(())
    }

    // A line of more than one word of a literal, or the action after it.
    #[tactic(auto, unfolding(crate::specs::Scripts::behind_literal))]
    pub(crate) fn take_behind_literal(
        &mut self,
        alloc: Global,
        decls: &Decls,
        word: Keyword,
        rest: &str,
    ) -> Result<(), LineFault>
        requires { AreDecls decls.now }
        ensures takes { Takes (behind_literal word decls.now self.old rest.now) self.new result }
        ensures lawful { (most : ℕ) → AreSteps decls.now most self.old → self.old.part ≡ Part.Literal
            → most ≤ MOST_WRITES → OnOk result (AreSteps decls.now (most + 1) self.new) }
    {
        match word {
            Keyword::Write => self.take_write(alloc, decls, rest),
            _ => {
                self.close_literal(alloc)?;
                self.take_action(alloc, decls, word, rest)
            }
        }
    }

    // `end`, after at least one action.
    #[tactic(auto, unfolding(crate::specs::Scripts::after_end))]
    fn take_end(&mut self, alloc: Global) -> Result<(), LineFault>
        ensures takes { Takes (after_end self.old) self.new result }
        ensures lawful { (decls : Decls) → StaysInCall decls self.old self.new result }
    {
        if self.actions.len() == 0 {
            return breaks(Rule::Line);
        }
        let caller = replace(&mut self.caller, Text::new(alloc));
        let actions = replace(&mut self.actions, Row::new(alloc));
        self.steps.push(ScriptStep::Call(Call {
            caller,
            number: self.number,
            actions,
        }))?;
        self.part = Part::Steps;
        Ok(())
    }

    // The line that ends the open call.
    #[tactic(auto, unfolding(crate::specs::Scripts::call_end))]
    pub(crate) fn take_call_end(&mut self, alloc: Global, word: Keyword) -> Result<(), LineFault>
        ensures takes { Takes (call_end word self.old) self.new result }
        ensures lawful { (decls : Decls) → StaysInCall decls self.old self.new result }
    {
        match word {
            Keyword::End => self.take_end(alloc),
            _ => breaks(Rule::Line),
        }
    }
}
