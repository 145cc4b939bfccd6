ghost use Rattle.def_grammar.specs.Lines.{words_in};
ghost use Rattle.def_grammar.specs.Lines as defs;
ghost use Rattle.def_grammar.specs.Script.{begin_section, begin_session, is_later, last_number, may_have_workers, order_by, order_fault, sections_of, session_number, take_directive, with_order, with_workers, word_fault, words_fault, worker_number};
ghost use Rattle.std.specs.Prelude.{◌≡◌, ◌++◌, ◌<◌, ◌^◌, [], IfOk, Ok, is_none, length, map, option_to_list, unwrap_or};
ghost use Rattle.wh_base.specs.Lists.{unless};
ghost use Rattle.wh_script.specs.Drafts.{are_setups, is_first, last_session};
ghost use Rattle.wh_script.specs.Known.{Knows};
ghost use Rattle.wh_script.specs.Sections.{Gives, HasFewBytes, meant};

use crate::draft::{Draft, bad};
use crate::fault::ScriptFault;
use crate::lines::{Directive, session_number, word_fault, worker_number};
use crate::order::{order_fault, order_numbers};
use crate::view_names::ViewNames;
use std::alloc::{AllocError, Global};
use wh_base::seq::Seq;
use wh_base::statements::{Script, ScriptKind, Section};

impl Draft {
    // All sections so far, and the names of their views. An error says that memory ran out.
    #[tactic(auto, using(crate::proofs::Nesting::known))]
    fn into_sections(self) -> Result<(Seq<Section>, ViewNames), AllocError>
        ensures sections { IfOk result (λ p. p.0 ≡ sections_of self) }
        ensures names { IfOk result (λ p. Knows p.1 (sections_of self)) }
    {
        let Draft {
            before,
            now,
            block: _,
            open_at: _,
            order: _,
            workers: _,
            views,
        } = self;
        Ok((sections_with(before, now)?, views))
    }

    /// What was read so far as a script: its sections, its order and how many workers it has. An error says that memory ran
    /// out.
    pub(crate) fn into_script(self, alloc: Global) -> Result<Script, AllocError>
        ensures { IfOk result (λ s. s ≡ record { sections = sections_of self; order = unwrap_or self.order []; workers = unwrap_or self.workers 0 }) }
    {
        let Draft {
            before,
            now,
            block: _,
            open_at: _,
            order,
            workers,
            views: _,
        } = self;
        Ok(Script {
            sections: sections_with(before, now)?,
            order: order_or_none(alloc, order),
            workers: workers.unwrap_or(0),
        })
    }

    // A new section of this session.
    #[tactic(auto, using(crate::proofs::Nesting::known))]
    fn begin_section(self, alloc: Global, session: u32) -> Result<Draft, ScriptFault>
        ensures { Gives result (Ok (begin_section self session)) }
    {
        let workers = self.workers;
        match self.into_sections() {
            Ok((before, views)) => Ok(Draft {
                before,
                now: Some(Section {
                    session,
                    commands: Seq::new(alloc),
                }),
                block: None,
                open_at: None,
                order: None,
                workers,
                views,
            }),
            Err(_) => Err(ScriptFault::Memory),
        }
    }

    // Whether no section, no order and no workers were read.
    fn is_first(&self) -> bool
        ensures { result ≡ is_first self.entry.now }
    {
        self.before.is_empty()
            && self.now.is_none()
            && self.order.is_none()
            && self.workers.is_none()
    }

    // Whether no session was read.
    #[tactic(auto, using(crate::proofs::Setups::setups))]
    fn has_no_session(&self) -> bool
        ensures { result ≡ are_setups (sections_of self.entry.now) }
    {
        are_setups(self.before.as_slice()) && is_setup_or_none(&self.now)
    }

    fn may_have_workers(&self) -> bool
        ensures { result ≡ may_have_workers self.entry.now }
    {
        self.workers.is_none() && self.order.is_none() && self.has_no_session()
    }

    fn has_no_order(&self) -> bool
        ensures { result ≡ is_none self.entry.now.order }
    {
        self.order.is_none()
    }

    // The number of the last section so far.
    #[tactic(auto, using(crate::proofs::Lasts::lasts))]
    fn last_number(&self) -> Option<u32>
        ensures { result ≡ last_number self.entry.now }
    {
        match &self.now {
            Some(section) => Some(section.session),
            None => last_session(self.before.as_slice()),
        }
    }

    // `@session` of a word, where no order was read and nothing is open.
    fn begin_session(self, alloc: Global, line: u64, word: &[u8]) -> Result<Draft, ScriptFault>
        ensures { Gives result (begin_session self line (word_fault word.now) (session_number word.now)) }
    {
        let Some(session) = session_number(word) else {
            drop(self);
            return Err(bad(line, word_fault(word)));
        };
        if !is_later(self.last_number(), session) {
            drop(self);
            return Err(bad(line, ScriptKind::SessionNumber));
        }
        self.begin_section(alloc, session)
    }

    fn take_setup(self, alloc: Global, line: u64) -> Result<Draft, ScriptFault>
        ensures { Gives result (take_directive self line defs.Setup) }
    {
        if !self.is_first() {
            drop(self);
            return Err(bad(line, ScriptKind::Misplaced));
        }
        self.begin_section(alloc, 0)
    }

    fn take_session(self, alloc: Global, line: u64, word: &[u8]) -> Result<Draft, ScriptFault>
        ensures { Gives result (take_directive self line (defs.SessionAt word.now)) }
    {
        if !self.has_no_order() {
            drop(self);
            return Err(bad(line, ScriptKind::Misplaced));
        }
        match self.open_fault() {
            Some(open) => {
                drop(self);
                Err(ScriptFault::Bad(open))
            }
            None => self.begin_session(alloc, line, word),
        }
    }

    // The order of these sessions.
    #[tactic(auto, using(crate::proofs::Nesting::known))]
    fn with_order(self, line: u64, numbers: Seq<u32>) -> Result<Draft, ScriptFault>
        ensures { Gives result (unless (order_fault (sections_of self) line numbers) (with_order self numbers)) }
    {
        let workers = self.workers;
        let Ok((before, views)) = self.into_sections() else {
            return Err(ScriptFault::Memory);
        };
        match order_fault(before.as_slice(), line, numbers.as_slice()) {
            Some(fault) => Err(ScriptFault::Bad(fault)),
            None => Ok(Draft {
                before,
                now: None,
                block: None,
                open_at: None,
                order: Some(numbers),
                workers,
                views,
            }),
        }
    }

    // `@order` of the words in these bytes, where no order was read and nothing is open.
    #[tactic(auto, using(crate::proofs::Orders::orders))]
    fn order_by(self, alloc: Global, line: u64, words: &[u8]) -> Result<Draft, ScriptFault>
        requires { length words.now < 2 ^ 32 }
        ensures { Gives result (order_by self line (words_fault (words_in words.now)) (map session_number (words_in words.now))) }
    {
        match order_numbers(alloc, line, words) {
            Ok(numbers) => self.with_order(line, numbers),
            Err(fault) => {
                drop(self);
                Err(fault)
            }
        }
    }

    fn take_order(self, alloc: Global, line: u64, words: &[u8]) -> Result<Draft, ScriptFault>
        requires { length words.now < 2 ^ 32 }
        ensures { Gives result (take_directive self line (defs.Order (words_in words.now))) }
    {
        if !self.has_no_order() {
            return Err(bad(line, ScriptKind::Misplaced));
        }
        match self.open_fault() {
            Some(fault) => Err(ScriptFault::Bad(fault)),
            None => self.order_by(alloc, line, words),
        }
    }

    // So many workers, behind the setup.
    #[tactic(auto, using(crate::proofs::Nesting::known))]
    fn with_workers(self, line: u64, word: &[u8]) -> Result<Draft, ScriptFault>
        ensures { Gives result (with_workers self line (word_fault word.now) (worker_number word.now)) }
    {
        let Some(workers) = worker_number(word) else {
            drop(self);
            return Err(bad(line, word_fault(word)));
        };
        match self.into_sections() {
            Ok((before, views)) => Ok(Draft {
                before,
                now: None,
                block: None,
                open_at: None,
                order: None,
                workers: Some(workers),
                views,
            }),
            Err(_) => Err(ScriptFault::Memory),
        }
    }

    fn take_workers(self, line: u64, word: &[u8]) -> Result<Draft, ScriptFault>
        ensures { Gives result (take_directive self line (defs.WorkersAt word.now)) }
    {
        if !self.may_have_workers() {
            drop(self);
            return Err(bad(line, ScriptKind::Misplaced));
        }
        match self.open_fault() {
            Some(open) => {
                drop(self);
                Err(ScriptFault::Bad(open))
            }
            None => self.with_workers(line, word),
        }
    }

    /// The draft behind a directive on this line.
    ///
    /// `Bad`, on that line or that of what is open: `UnknownDirective` for what the grammar doesn't have; `Misplaced` where
    /// the directive may not stand, as `@setup` behind a section or `@workers`, `@workers` behind a session or another one,
    /// `@session` or `@order` behind `@order`, and `@load`, `@endload` and `@end` here; then `OpenStatement` and `OpenBlock`,
    /// at their own lines, for what is open at `@workers`, `@session` or `@order`; then, for a word that is no number of 1 to
    /// 64, and at `@workers` of 1 to 8, `NotUtf8` where it begins with a byte that is no UTF-8 and else `SessionNumber`, and
    /// that too for a session that isn't above the last; then, at `@order`, `OrderUnknown` for a session that isn't there and
    /// `OrderTooLong` for one that is named more often than it has parts. `Memory` says that memory ran out. The directives
    /// are this project's own.
    pub fn take_directive(
        self,
        alloc: Global,
        line: u64,
        directive: &Directive<'_>,
    ) -> Result<Draft, ScriptFault>
        requires { HasFewBytes directive.now }
        ensures { Gives result (take_directive self line (meant directive.now)) }
    {
        match directive {
            Directive::Setup => self.take_setup(alloc, line),
            Directive::Session(word) => self.take_session(alloc, line, word),
            Directive::Order(words) => self.take_order(alloc, line, words),
            Directive::Workers(word) => self.take_workers(line, word),
            Directive::Load(_) => Err(bad(line, ScriptKind::Misplaced)),
            Directive::EndLoad => Err(bad(line, ScriptKind::Misplaced)),
            Directive::EndScript => Err(bad(line, ScriptKind::Misplaced)),
            Directive::Unknown => Err(bad(line, ScriptKind::UnknownDirective)),
        }
    }
}

// The sections before and the one that goes on.
fn sections_with(before: Seq<Section>, now: Option<Section>) -> Result<Seq<Section>, AllocError>
    ensures { IfOk result (λ all. all ≡ before ++ option_to_list now) }
{
    let mut all = before;
    match now {
        Some(section) => all.push(section)?,
        None => {}
    }
    Ok(all)
}

fn order_or_none(alloc: Global, order: Option<Seq<u32>>) -> Seq<u32>
    ensures { result ≡ unwrap_or order [] }
{
    match order {
        Some(order) => order,
        None => Seq::new(alloc),
    }
}

fn are_setups(sections: &[Section]) -> bool
    ensures { result ≡ are_setups sections.now }
{
    for section in sections {
        if section.session != 0 {
            return false;
        }
    }
    true
}

#[tactic(auto, using(crate::proofs::Setups::setups))]
fn is_setup_or_none(section: &Option<Section>) -> bool
    ensures { result ≡ are_setups (option_to_list section.now) }
{
    match section {
        Some(section) => section.session == 0,
        None => true,
    }
}

fn is_later(last: Option<u32>, session: u32) -> bool
    ensures { result ≡ is_later last session }
{
    match last {
        Some(number) => number < session,
        None => true,
    }
}

#[tactic(auto, using(crate::proofs::Lasts::lasts))]
fn last_session(sections: &[Section]) -> Option<u32>
    ensures { result ≡ last_session sections.now }
{
    match sections.split_last() {
        Some((section, _)) => Some(section.session),
        None => None,
    }
}
