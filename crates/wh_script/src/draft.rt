ghost use Rattle.def_grammar.specs.Forms.{statement_of};
ghost use Rattle.def_grammar.specs.Script.{bad, command_by, first_draft, in_section, in_setup, is_dml, is_inner, is_never_inner, is_only_word, open_fault, take_closed, take_command, take_inner, take_own, take_statement, with_command, with_inner};
ghost use Rattle.std.specs.List.{list_all};
ghost use Rattle.std.specs.Prelude.{◌≡◌, Err, IfOk, None, Ok, Some, [], cond, option_map, true};
ghost use Rattle.wh_base.specs.Lists.{option_case};
ghost use Rattle.wh_base.specs.declared.statements.ScriptKind.TheVariants as kinds;
ghost use Rattle.wh_lex.specs.Lex.{token_fits};
ghost use Rattle.wh_script.specs.Drafts.{one_more, stated};
ghost use Rattle.wh_script.specs.Known.{AreMore};
ghost use Rattle.wh_script.specs.Sections.{Gives};

use crate::fault::ScriptFault;
use crate::view_names::ViewNames;
use std::alloc::{AllocError, Global};
use std::marker::Model;
use wh_base::seq::Seq;
use wh_base::shared::Shared;
use wh_base::statements::{
    BadScript, Block, ChangeStatement, Command, ScriptKind, Section, Statement,
};
use wh_base::tokens::Token;
use wh_ddl_text::statements::{whole_statement, whole_submit};
use wh_lex::lex::StatementTokens;
use wh_query_text::parser::{ParseFault, Parser};

/// A block that is open: the line of its BEGIN and its statements so far.
#[derive(Drop)]
pub struct OpenBlock {
    line: u64,
    statements: Seq<Statement>,
}

impl Model for OpenBlock {
    ghost use Rattle.def_grammar.specs.Script.{OpenBlockAt};

    ghost Value = { OpenBlockAt };

    ghost view = { λ b. record { line = b.line; statements = b.statements } };
}

/// How far a script has been read: the sections before, the section that goes on, its open block, the line of a statement
/// that isn't closed, what `@order` named, and how many workers `@workers` names. Contracts see these. Beside them are the
/// names of the views of all these sections, so that a view over a view is found without going over the statements before.
#[derive(Drop)]
pub struct Draft {
    pub(crate) before: Seq<Section>,
    pub(crate) now: Option<Section>,
    pub(crate) block: Option<OpenBlock>,
    pub(crate) open_at: Option<u64>,
    pub(crate) order: Option<Seq<u32>>,
    pub(crate) workers: Option<u32>,
    pub(crate) views: ViewNames,
}

impl Model for Draft {
    ghost use Rattle.def_grammar.specs.Script as script;
    ghost use Rattle.std.specs.Prelude.{◌++◌, option_to_list};
    ghost use Rattle.wh_script.specs.Known.{Knows};

    ghost Value = { script.Draft };

    ghost view = { λ d. record { before = d.before; now = d.now; block = d.block; open_at = d.open_at; order = d.order; workers = d.workers } };

    ghost invariant = { λ d. Knows d.views (d.before ++ option_to_list d.now) };
}

/// A fault on a line, counted from 1.
pub(crate) fn bad(line: u64, kind: ScriptKind) -> ScriptFault
    ensures { result ≡ ScriptFault.Bad (bad line kind) }
{
    ScriptFault::Bad(BadScript { line, kind })
}

impl Draft {
    /// Nothing read. Takes no memory.
    #[tactic(auto, using(crate::proofs::Nesting::known))]
    pub fn new(alloc: Global) -> Draft
        ensures { result ≡ first_draft }
    {
        Draft {
            before: Seq::new(alloc),
            now: None,
            block: None,
            open_at: None,
            order: None,
            workers: None,
            views: ViewNames::new(alloc),
        }
    }

    /// Whether a section goes on.
    pub fn in_section(&self) -> bool
        ensures { result ≡ in_section self.entry.now }
    {
        self.now.is_some()
    }

    // The same with this block, or with none.
    fn with_block(self, block: Option<OpenBlock>) -> Draft
        ensures { result ≡ record self { block = block } }
    {
        let Draft {
            before,
            now,
            block: _,
            open_at,
            order,
            workers,
            views,
        } = self;
        Draft {
            before,
            now,
            block,
            open_at,
            order,
            workers,
            views,
        }
    }

    fn with_open_statement(self, line: u64) -> Draft
        ensures { result ≡ record self { open_at = Some line } }
    {
        let Draft {
            before,
            now,
            block,
            open_at: _,
            order,
            workers,
            views,
        } = self;
        Draft {
            before,
            now,
            block,
            open_at: Some(line),
            order,
            workers,
            views,
        }
    }

    /// One command more in the section. An error says that memory ran out.
    #[tactic(auto, using(crate::proofs::Nesting::known))]
    pub(crate) fn with_command(self, alloc: Global, command: Command) -> Result<Draft, AllocError>
        ensures { IfOk result (λ d. d ≡ with_command self command) }
    {
        let Draft {
            before,
            now,
            block,
            open_at,
            order,
            workers,
            views,
        } = self;
        let (now, views) = longer(alloc, now, views, command)?;
        Ok(Draft {
            before,
            now,
            block,
            open_at,
            order,
            workers,
            views,
        })
    }

    // The same, as a step of the reading.
    pub(crate) fn step_with(self, alloc: Global, command: Command) -> Result<Draft, ScriptFault>
        ensures { Gives result (Ok (with_command self command)) }
    {
        match self.with_command(alloc, command) {
            Ok(draft) => Ok(draft),
            Err(_) => Err(ScriptFault::Memory),
        }
    }

    // A closed statement outside blocks that submits nothing.
    fn take_own(self, alloc: Global, line: u64, tokens: &[Token]) -> Result<Draft, ScriptFault>
        requires { list_all token_fits tokens.now ≡ true }
        ensures { Gives result (take_own self line tokens.now) }
    {
        if is_only_word(alloc, tokens, b"BEGIN") {
            let statements = Seq::new(alloc);
            return Ok(self.with_block(Some(OpenBlock { line, statements })));
        }
        match whole_statement(alloc, tokens) {
            Ok(statement) => match command_by(alloc, statement) {
                Ok(command) => self.step_with(alloc, command),
                Err(_) => {
                    drop(self);
                    Err(ScriptFault::Memory)
                }
            },
            Err(ParseFault::Memory) => {
                drop(self);
                Err(ScriptFault::Memory)
            }
            Err(ParseFault::Syntax) => {
                drop(self);
                Err(bad(line, ScriptKind::Syntax))
            }
        }
    }

    // Whether the section that goes on is the setup.
    fn in_setup(&self) -> bool
        ensures { result ≡ in_setup self.entry.now }
    {
        match &self.now {
            Some(section) => section.session == 0,
            None => false,
        }
    }

    // A refresh that is submitted, which may not stand in the setup.
    fn submit(self, alloc: Global, line: u64, refresh: Statement) -> Result<Draft, ScriptFault>
        ensures { Gives result (cond (in_setup self) (Err (bad line kinds.Misplaced)) (Ok (with_command self (Command.Submit refresh)))) }
    {
        if self.in_setup() {
            drop(self);
            drop(refresh);
            return Err(bad(line, ScriptKind::Misplaced));
        }
        self.step_with(alloc, Command::Submit(refresh))
    }

    // A closed statement outside blocks.
    #[tactic(auto, using(crate::proofs::Drafts::submits))]
    fn take_command(self, alloc: Global, line: u64, tokens: &[Token]) -> Result<Draft, ScriptFault>
        requires { list_all token_fits tokens.now ≡ true }
        ensures { Gives result (take_command self line tokens.now) }
    {
        match whole_submit(alloc, tokens) {
            Ok(refresh) => self.submit(alloc, line, refresh),
            Err(ParseFault::Syntax) => self.take_own(alloc, line, tokens),
            Err(ParseFault::Memory) => {
                drop(self);
                Err(ScriptFault::Memory)
            }
        }
    }

    // One statement more in the block.
    fn with_inner(
        self,
        block: OpenBlock,
        line: u64,
        statement: Statement,
    ) -> Result<Draft, ScriptFault>
        ensures { Gives result (with_inner self block line statement) }
    {
        if !is_inner(&statement) {
            drop(self);
            drop(block);
            drop(statement);
            return Err(bad(line, ScriptKind::Misplaced));
        }
        let OpenBlock {
            line,
            mut statements,
        } = block;
        match statements.push(statement) {
            Ok(()) => Ok(self.with_block(Some(OpenBlock { line, statements }))),
            Err(_) => {
                drop(self);
                Err(ScriptFault::Memory)
            }
        }
    }

    // The block, closed, as a command.
    fn close(self, alloc: Global, block: OpenBlock) -> Result<Draft, ScriptFault>
        ensures { Gives result (Ok (with_command (record self { block = None }) (Command.Block (record { statements = block.statements })))) }
    {
        let OpenBlock {
            line: _,
            statements,
        } = block;
        self.with_block(None)
            .step_with(alloc, Command::Block(Block { statements }))
    }

    // A closed statement in a block that neither ends it nor may never stand there.
    fn take_part(
        self,
        alloc: Global,
        block: OpenBlock,
        line: u64,
        tokens: &[Token],
    ) -> Result<Draft, ScriptFault>
        requires { list_all token_fits tokens.now ≡ true }
        ensures { Gives result (option_case (statement_of tokens.now) (Err (bad line kinds.Syntax)) (with_inner self block line)) }
    {
        match whole_statement(alloc, tokens) {
            Ok(statement) => self.with_inner(block, line, statement),
            Err(ParseFault::Memory) => {
                drop(self);
                drop(block);
                Err(ScriptFault::Memory)
            }
            Err(ParseFault::Syntax) => {
                drop(self);
                drop(block);
                Err(bad(line, ScriptKind::Syntax))
            }
        }
    }

    // A closed statement in a block.
    fn take_inner(
        self,
        alloc: Global,
        block: OpenBlock,
        line: u64,
        tokens: &[Token],
    ) -> Result<Draft, ScriptFault>
        requires { list_all token_fits tokens.now ≡ true }
        ensures { Gives result (take_inner self block line tokens.now) }
    {
        if is_only_word(alloc, tokens, b"COMMIT") {
            return self.close(alloc, block);
        }
        match is_never_inner(alloc, tokens) {
            Ok(true) => {
                drop(self);
                drop(block);
                Err(bad(line, ScriptKind::Misplaced))
            }
            Ok(false) => self.take_part(alloc, block, line, tokens),
            Err(_) => {
                drop(self);
                drop(block);
                Err(ScriptFault::Memory)
            }
        }
    }

    // The draft without its block, and the block.
    fn split_block(self) -> (Draft, Option<OpenBlock>)
        ensures draft { result.0 ≡ record self { block = None } }
        ensures block { result.1 ≡ self.block }
    {
        let Draft {
            before,
            now,
            block,
            open_at,
            order,
            workers,
            views,
        } = self;
        (
            Draft {
                before,
                now,
                block: None,
                open_at,
                order,
                workers,
                views,
            },
            block,
        )
    }

    // A closed statement.
    #[tactic(auto, using(crate::proofs::Drafts::blocks))]
    fn take_closed(self, alloc: Global, line: u64, tokens: &[Token]) -> Result<Draft, ScriptFault>
        requires { list_all token_fits tokens.now ≡ true }
        ensures { Gives result (take_closed self line tokens.now) }
    {
        let (draft, block) = self.split_block();
        match block {
            Some(block) => draft.take_inner(alloc, block, line, tokens),
            None => draft.take_command(alloc, line, tokens),
        }
    }

    /// The draft behind a statement, given with the line on which its first token stands, or its semicolon where it has no
    /// token. A statement that isn't closed stays open until its section ends.
    ///
    /// `Bad`: `Misplaced` outside every section, for SUBMIT in the setup and in a block, and in a block for BEGIN and for what
    /// is no query, INSERT, UPDATE or DELETE; `Syntax` for what no form of statement reads. `Memory` says that memory ran
    /// out. The kinds of fault are this project's own.
    pub fn take_statement(
        self,
        alloc: Global,
        line: u64,
        statement: &StatementTokens,
    ) -> Result<Draft, ScriptFault>
        requires { list_all token_fits statement.now.tokens ≡ true }
        ensures { Gives result (take_statement self line (stated statement.now)) }
    {
        if !self.in_section() {
            drop(self);
            return Err(bad(line, ScriptKind::Misplaced));
        }
        if statement.closed.is_none() {
            return Ok(self.with_open_statement(line));
        }
        self.take_closed(alloc, line, statement.tokens.as_slice())
    }

    /// The fault where a section ends here while a statement is open, and then while a block is.
    pub fn open_fault(&self) -> Option<BadScript>
        ensures { result ≡ open_fault self.entry.now }
    {
        match self.open_at {
            Some(line) => Some(BadScript {
                line,
                kind: ScriptKind::OpenStatement,
            }),
            None => block_fault(&self.block),
        }
    }
}

// The section that goes on with one command more, and the names with those of the command, where a section does. An error
// says that memory ran out.
fn longer(
    alloc: Global,
    now: Option<Section>,
    views: ViewNames,
    command: Command,
) -> Result<(Option<Section>, ViewNames), AllocError>
    ensures section { IfOk result (λ p. p.0 ≡ option_map (one_more command) now) }
    ensures names { IfOk result (λ p. AreMore now command views p.1) }
{
    match now {
        Some(section) => match views.with(alloc, &command) {
            Ok(views) => {
                let section = section_with(alloc, section, command)?;
                Ok((Some(section), views))
            }
            Err(fault) => {
                drop(section);
                drop(command);
                Err(fault)
            }
        },
        None => {
            drop(command);
            Ok((None, views))
        }
    }
}

// The section with one command more. An error says that memory ran out.
fn section_with(alloc: Global, section: Section, command: Command) -> Result<Section, AllocError>
    ensures { IfOk result (λ s. s ≡ one_more command section) }
{
    let Section {
        session,
        mut commands,
    } = section;
    commands.push(Shared::new(alloc, command)?)?;
    Ok(Section { session, commands })
}

fn block_fault(block: &Option<OpenBlock>) -> Option<BadScript>
    ensures { result ≡ option_map (λ b. bad b.line kinds.OpenBlock) block.now }
{
    match block {
        Some(block) => Some(BadScript {
            line: block.line,
            kind: ScriptKind::OpenBlock,
        }),
        None => None,
    }
}

fn is_only_word(alloc: Global, tokens: &[Token], word: &[u8]) -> bool
    requires fits { list_all token_fits tokens.now ≡ true }
    ensures { result ≡ is_only_word word.now tokens.now }
{
    let mut parser = Parser::new(alloc, tokens);
    match parser.word(word) {
        Ok(()) => parser.len() == 0,
        Err(_) => false,
    }
}

// Whether the tokens may stand in no block though they are in the grammar: BEGIN, or a refresh that is submitted. An error
// says that memory ran out.
fn is_never_inner(alloc: Global, tokens: &[Token]) -> Result<bool, AllocError>
    requires { list_all token_fits tokens.now ≡ true }
    ensures { IfOk result (λ b. b ≡ is_never_inner tokens.now) }
{
    if is_only_word(alloc, tokens, b"BEGIN") {
        return Ok(true);
    }
    match whole_submit(alloc, tokens) {
        Ok(refresh) => {
            drop(refresh);
            Ok(true)
        }
        Err(ParseFault::Syntax) => Ok(false),
        Err(ParseFault::Memory) => Err(AllocError),
    }
}

fn is_dml(statement: &Statement) -> bool
    ensures { result ≡ is_dml statement.now }
{
    match statement {
        Statement::Change(ChangeStatement::Load(_)) => false,
        Statement::Change(_) => true,
        _ => false,
    }
}

fn is_inner(statement: &Statement) -> bool
    ensures { result ≡ is_inner statement.now }
{
    match statement {
        Statement::Select(_) => true,
        _ => is_dml(statement),
    }
}

// A statement that changes rows is a block of one statement.
fn command_by(alloc: Global, statement: Statement) -> Result<Command, AllocError>
    ensures { IfOk result (λ c. c ≡ command_by statement) }
{
    if !is_dml(&statement) {
        return Ok(Command::Other(statement));
    }
    Ok(Command::Block(Block {
        statements: Seq::one(alloc, statement)?,
    }))
}
