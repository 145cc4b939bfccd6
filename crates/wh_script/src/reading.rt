ghost use Rattle.def_built.specs.Commands.{commands_are_built};
ghost use Rattle.def_built.specs.Form.{draft_is_built, sections_are_built, views_are_built};
ghost use Rattle.def_grammar.specs.Script.{line_at, sections_of, take_directive, take_load, take_statement, text_elements, where_built};
ghost use Rattle.std.specs.List.{list_all};
ghost use Rattle.std.specs.Prelude.{◌≡◌, ◌<◌, ◌≤◌, ◌-◌, ◌^◌, ◌++◌, ◌∷◌, [], IfOk, Ok, drop, length, take, true};
ghost use Rattle.wh_lex.specs.Lex.{token_fits};
ghost use Rattle.wh_script.specs.Built.{IsBuiltBefore, but_last, may_stand, parts_are_built, shorter_section};
ghost use Rattle.wh_script.specs.Drafts.{stated};
ghost use Rattle.wh_script.specs.Pieces.{IsTaken};
ghost use Rattle.wh_script.specs.Sections.{Gives, HasFewBytes, meant};

use crate::built::command_is_built;
use crate::draft::{Draft, bad};
use crate::fault::ScriptFault;
use crate::lines::{Directive, LineMark};
use crate::text::TextAt;
use def_built::forms::{Form, is_built};
use std::alloc::Global;
use wh_base::statements::{ScriptKind, Section};
use wh_base::txt::Txt;
use wh_lex::lex::StatementTokens;

impl Draft {
    /// The draft behind the statements of the text that runs from a mark up to `end`, without what stands behind it, where the
    /// first `valid` bytes are UTF-8.
    ///
    /// `Bad` is the first fault of the text, as `TextAt::next` has it. `Memory` says that memory ran out. The time is that of
    /// the text: each statement is lexed once, and the one before a byte that can't be read twice.
    pub fn read_text(
        self,
        alloc: Global,
        bytes: &[u8],
        valid: usize,
        mark: LineMark,
        end: usize,
    ) -> Result<Draft, ScriptFault>
        requires few { length bytes.now < 2 ^ 32 }
        requires line { mark.line ≡ line_at bytes.now mark.place }
        requires later { mark.place ≤ end }
        requires within { end ≤ length bytes.now }
        requires built { draft_is_built self ≡ true }
        ensures taken { IsTaken bytes.now self (text_elements valid mark.place (take (end - mark.place) (drop mark.place bytes.now))) result }
        ensures built { IfOk result (λ d. draft_is_built d ≡ true) }
    {
        let mut text = TextAt {
            draft: self,
            mark,
            at: mark.place,
        };
        while text.at < end {
            text = text.next(alloc, bytes, valid, end)?;
        }
        Ok(text.draft)
    }

    /// The draft behind a statement, given with the line on which its first token stands, or its semicolon where it has no
    /// token.
    ///
    /// `Bad` is the fault of the statement, as `take_statement` has it, and then `NotBuilt` on that line where what it makes
    /// isn't built. `Memory` says that memory ran out.
    #[tactic(auto, using(crate::proofs::Steps::steps))]
    pub fn read_statement(
        self,
        alloc: Global,
        line: u64,
        statement: &StatementTokens,
    ) -> Result<Draft, ScriptFault>
        requires numbers { list_all token_fits statement.now.tokens ≡ true }
        requires built { draft_is_built self ≡ true }
        ensures gives { Gives result (where_built draft_is_built line (take_statement self line (stated statement.now))) }
        ensures built { IfOk result (λ d. draft_is_built d ≡ true) }
    {
        match self.take_statement(alloc, line, statement) {
            Ok(draft) => draft.where_built(line),
            Err(fault) => Err(fault),
        }
    }

    /// The draft behind a directive on this line.
    ///
    /// `Bad` is the fault of the directive, as `take_directive` has it, and then `NotBuilt` on its line where what it makes
    /// isn't built. `Memory` says that memory ran out.
    #[tactic(auto, using(crate::proofs::Steps::steps))]
    pub fn read_directive(
        self,
        alloc: Global,
        line: u64,
        directive: &Directive<'_>,
    ) -> Result<Draft, ScriptFault>
        requires few { HasFewBytes directive.now }
        requires built { draft_is_built self ≡ true }
        ensures gives { Gives result (where_built draft_is_built line (take_directive self line (meant directive.now))) }
        ensures built { IfOk result (λ d. draft_is_built d ≡ true) }
    {
        match self.take_directive(alloc, line, directive) {
            Ok(draft) => draft.where_built(line),
            Err(fault) => Err(fault),
        }
    }

    /// The draft behind a LOAD block, whose `@load` is on this line.
    ///
    /// `Bad` is the fault of the block, as `take_load` has it, and then `NotBuilt` on that line where LOAD isn't built.
    /// `Memory` says that memory ran out.
    #[tactic(auto, using(crate::proofs::Steps::steps))]
    pub fn read_load(
        self,
        alloc: Global,
        line: u64,
        name: Txt,
        block: &[u8],
        closed: bool,
    ) -> Result<Draft, ScriptFault>
        requires few { length block.now < 2 ^ 32 }
        requires built { draft_is_built self ≡ true }
        ensures gives { Gives result (where_built draft_is_built line (take_load self line name block.now closed)) }
        ensures built { IfOk result (λ d. draft_is_built d ≡ true) }
    {
        match self.take_load(alloc, line, name, block, closed) {
            Ok(draft) => draft.where_built(line),
            Err(fault) => Err(fault),
        }
    }

    // The draft, or NotBuilt, where all before its last command or section is built.
    fn where_built(self, line: u64) -> Result<Draft, ScriptFault>
        requires { IsBuiltBefore self }
        ensures gives { Gives result (where_built draft_is_built line (Ok self)) }
        ensures built { IfOk result (λ d. draft_is_built d ≡ true) }
    {
        if self.is_built() {
            Ok(self)
        } else {
            Err(bad(line, ScriptKind::NotBuilt))
        }
    }

    fn is_built(&self) -> bool
        requires { IsBuiltBefore self.now }
        ensures { result ≡ draft_is_built self.entry.now }
    {
        self.are_sections_built() && self.are_views_built() && self.are_parts_built()
    }

    // Whether no view may stand over a view where that isn't built.
    #[tactic(auto, using(crate::proofs::Nesting::built))]
    fn are_views_built(&self) -> bool
        ensures { result ≡ views_are_built (sections_of self.entry.now) }
    {
        !self.views.nest || is_built(Form::Nested)
    }

    // Whether its block, its order and its workers are built where they are there.
    fn are_parts_built(&self) -> bool
        ensures { result ≡ parts_are_built self.entry.now }
    {
        (self.block.is_none() || is_built(Form::Block))
            && (self.order.is_none() || is_built(Form::Order))
            && (self.workers.is_none() || is_built(Form::Workers))
    }

    #[tactic(auto, using(crate::proofs::Steps::sections))]
    fn are_sections_built(&self) -> bool
        requires { IsBuiltBefore self.now }
        ensures { result ≡ sections_are_built (sections_of self.entry.now) }
    {
        match &self.now {
            Some(section) => is_last_built(self.before.as_slice(), section),
            None => true,
        }
    }
}

// Whether a section is built behind these.
#[tactic(auto, using(crate::proofs::Steps::sections))]
fn is_last_built(before: &[Section], section: &Section) -> bool
    requires { sections_are_built (before.now ++ shorter_section section.now.session section.now.commands) ≡ true }
    ensures { result ≡ sections_are_built (before.now ++ section.now ∷ []) }
{
    may_stand(before, section.session) && are_commands_built(section)
}

fn may_stand(before: &[Section], session: u32) -> bool
    ensures { result ≡ may_stand before.now session }
{
    (before.is_empty() && session == 0) || is_built(Form::Session)
}

// Whether a section's commands are built, where those before the last one are. The time is that of a test on the last one
// alone.
#[tactic(auto, using(crate::proofs::LastCommands::commands))]
fn are_commands_built(section: &Section) -> bool
    requires { commands_are_built (but_last section.now.commands) ≡ true }
    ensures { result ≡ commands_are_built section.now.commands }
{
    match section.commands.as_slice().split_last() {
        Some((last, _)) => command_is_built(last.get()),
        None => true,
    }
}
