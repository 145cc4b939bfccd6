ghost use Rattle.def_grammar.specs.Forms.{asked, statement, statement_of, submit_of};
ghost use Rattle.def_grammar.specs.Reading.{mapped};
ghost use Rattle.std.specs.List.{list_all};
ghost use Rattle.std.specs.Prelude.{◌≡◌, true};
ghost use Rattle.wh_base.specs.Lists.{is_empty, where_true};
ghost use Rattle.wh_base.specs.declared.statements.Statement.TheVariants as about;
ghost use Rattle.wh_ddl_text.specs.Words.{GivesWhole};
ghost use Rattle.wh_lex.specs.Lex.{token_fits};
ghost use Rattle.wh_query_text.specs.Parse.{Gives};

use crate::asked::AskedQuery;
use crate::changes::Change;
use crate::dimensions::Dimension;
use crate::logs::Log;
use crate::partitions::AlterTableRule;
use crate::refreshes::{RefreshRule, SubmitRule, is_at_end};
use crate::sessions::Other;
use crate::tables::CreateTableRule;
use crate::views::View;
use std::alloc::Global;
use wh_base::statements::Statement;
use wh_base::tokens::Token;
use wh_query_text::parser::{ParseFault, Parser};
use wh_query_text::rule::{Either, Rule, boxed};

/// A query as a statement.
pub struct SelectRule;

impl Rule for SelectRule {
    type Output = Statement;

    ghost reads = { mapped about.Select asked };

    fn read(parser: &mut Parser<'_>) -> Result<Statement, ParseFault> {
        let asked = AskedQuery::read(parser)?;
        Ok(Statement::Select(boxed(parser.alloc(), asked)?))
    }
}

/// A statement on objects, a refresh, or one of the others.
pub type OfObjects = Either<Log, Either<View, Either<Dimension, Either<RefreshRule, Other>>>>;

/// A statement of any form.
pub type AnyStatement = Either<
    SelectRule,
    Either<Change, Either<CreateTableRule, Either<AlterTableRule, OfObjects>>>,
>;

/// The statement that stands next, of any form that this project reads: queries, changes of rows, tables, materialized
/// view logs, materialized views, dimensions, refreshes, purges, what shows something, transactions and settings, after
/// the SQL language and the Data Warehousing Guide. The place is then behind its last token.
///
/// `Syntax` says that no statement stands there, and `Memory` that memory ran out. After either the place is any.
pub fn read_statement(parser: &mut Parser<'_>) -> Result<Statement, ParseFault>
    ensures { Gives result parser.new (statement parser.old) }
{
    AnyStatement::read(parser)
}

// The statement that was read up to here, where no token is left.
fn at_end(parser: &Parser<'_>, statement: Statement) -> Result<Statement, ParseFault>
    ensures { GivesWhole result (where_true (is_empty parser.now) statement) }
{
    if is_at_end(parser) {
        Ok(statement)
    } else {
        drop(statement);
        Err(ParseFault::Syntax)
    }
}

/// The statement that all of these tokens are, each number of which is below 10 ^ 38.
///
/// `Syntax` says that they aren't one, and `Memory` that memory ran out.
pub fn whole_statement(alloc: Global, tokens: &[Token]) -> Result<Statement, ParseFault>
    requires { list_all token_fits tokens.now ≡ true }
    ensures { GivesWhole result (statement_of tokens.now) }
{
    let mut parser = Parser::new(alloc, tokens);
    let statement = read_statement(&mut parser)?;
    at_end(&parser, statement)
}

/// The refresh of one view that all of these tokens submit, each number of which is below 10 ^ 38.
///
/// `Syntax` says that they submit none, and `Memory` that memory ran out.
pub fn whole_submit(alloc: Global, tokens: &[Token]) -> Result<Statement, ParseFault>
    requires { list_all token_fits tokens.now ≡ true }
    ensures { GivesWhole result (submit_of tokens.now) }
{
    let mut parser = Parser::new(alloc, tokens);
    let refresh = SubmitRule::read(&mut parser)?;
    at_end(&parser, refresh)
}
