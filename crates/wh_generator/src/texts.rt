ghost use Rattle.def_grammar.specs.Forms.{statement_of, text_tokens};
ghost use Rattle.def_grammar.specs.Script.{command_by, is_dml};
ghost use Rattle.def_output.specs.Generator.{insert_text};
ghost use Rattle.std.specs.List.{list_all};
ghost use Rattle.std.specs.Prelude.{◌≡◌, ◌++◌, IfOk, OnOk, option_map, true};
ghost use Rattle.wh_generator.specs.Parts.{told};
ghost use Rattle.wh_lex.specs.Lex.{token_fits};

use crate::series::Series;
use std::alloc::{AllocError, Global};
use wh_base::seq::Seq;
use wh_base::shared::Shared;
use wh_base::statements::{Block, ChangeStatement, Command, Statement};
use wh_base::tokens::Token;
use wh_ddl_text::statements::whole_statement;
use wh_lex::lex::{LexFault, tokens};
use wh_query_text::parser::ParseFault;

/// How many bytes a text has at the most.
const MOST: usize = 0xffff_ffff;

// The tokens of a text, and none where it isn't read as tokens. An error says that memory ran out, or that there are 2^32
// bytes or more.
fn text_tokens(alloc: Global, text: &str) -> Result<Seq<Token>, AllocError>
    ensures tokens { IfOk result (λ all. all ≡ text_tokens text.now) }
    ensures fits { IfOk result (λ all. list_all token_fits all ≡ true) }
{
    if text.len() > MOST {
        return Err(AllocError);
    }
    match tokens(alloc, text) {
        Ok(all) => Ok(all),
        Err(LexFault::Memory) => Err(AllocError),
        Err(LexFault::BadCharacter { place: _ }) => Ok(Seq::new(alloc)),
        Err(LexFault::OpenQuote { place: _ }) => Ok(Seq::new(alloc)),
    }
}

fn is_dml(statement: &Statement) -> bool
    ensures { result ≡ is_dml statement.now }
{
    match statement {
        Statement::Change(ChangeStatement::Load(_)) => false,
        Statement::Change(_) => true,
        _ => false,
    }
}

// A statement that changes rows is a block of one statement. An error says that memory ran out.
fn command_by(alloc: Global, statement: Statement) -> Result<Command, AllocError>
    ensures { IfOk result (λ c. c ≡ command_by statement) }
{
    if !is_dml(&statement) {
        return Ok(Command::Other(statement));
    }
    let mut statements = Seq::new(alloc);
    statements.push(statement)?;
    Ok(Command::Block(Block { statements }))
}

// The command that a statement's text stands for; `None` where it is none. An error as of `text_tokens`.
fn command_of(alloc: Global, text: &str) -> Result<Option<Command>, AllocError>
    ensures { IfOk result (λ c. c ≡ option_map command_by (statement_of (text_tokens text.now))) }
{
    let all = text_tokens(alloc, text)?;
    match whole_statement(alloc, all.as_slice()) {
        Ok(statement) => Ok(Some(command_by(alloc, statement)?)),
        Err(ParseFault::Syntax) => Ok(None),
        Err(ParseFault::Memory) => Err(AllocError),
    }
}

/// The command that a statement's text stands for at the end of the commands. An error as of `text_tokens`.
#[tactic(auto, unfolding(crate::specs::Parts::told))]
pub(crate) fn push_text(
    alloc: Global,
    text: &str,
    commands: &mut Seq<Shared<Command>>,
) -> Result<(), AllocError>
    ensures { OnOk result (commands.new ≡ commands.old ++ told text.now) }
{
    match command_of(alloc, text)? {
        Some(command) => commands.push(Shared::new(alloc, command)?),
        None => Ok(()),
    }
}

/// An INSERT of one sale on the day of a number.
pub(crate) struct Inserts;

impl Series for Inserts {
    type Item = Shared<Command>;

    ghost items = { λ inserts day. told (insert_text day) };

    fn push_items(
        &self,
        alloc: Global,
        number: u32,
        all: &mut Seq<Shared<Command>>,
    ) -> Result<(), AllocError> {
        let text = format!(in alloc; "INSERT INTO SALES VALUES ({number}, 0, 1)")?;
        push_text(alloc, text.as_str(), all)?;
        Ok(())
    }
}
