ghost use Rattle.def_grammar.specs.Forms.{create_log, log_options, named_form};
ghost use Rattle.def_grammar.specs.Reading.{◌>>◌, ◌or◌, gives, word};
ghost use Rattle.std.specs.List.{list_any};
ghost use Rattle.std.specs.Prelude.{[], ◌≡◌, ◌∷◌, codes, count_by, false, true};
ghost use Rattle.wh_base.specs.declared.statements.LogStatement.TheVariants as logs;
ghost use Rattle.wh_base.specs.declared.statements.Statement.TheVariants as about;
ghost use Rattle.wh_ddl_text.specs.Pieces.{is_option};

use crate::words::{maybe_one_of_both, take_words};
use wh_base::seq::Seq;
use wh_base::statements::{LogStatement, NewLog, Statement};
use wh_query_text::parser::{ParseFault, Parser};
use wh_query_text::query::pieces::OptionalList;
use wh_query_text::rule::{Bracketed, Either, Listed, Rule};
use wh_query_text::rules::PlainName;

/// ROWID, for which it gives true, or SEQUENCE.
pub struct LogOption;

impl Rule for LogOption {
    type Output = bool;

    ghost reads = { (word (codes "ROWID") >> gives true) or (word (codes "SEQUENCE") >> gives false) };

    fn read(parser: &mut Parser<'_>) -> Result<bool, ParseFault> {
        if parser.word(b"ROWID").is_ok() {
            return Ok(true);
        }
        parser.word(b"SEQUENCE")?;
        Ok(false)
    }
}

fn is_wanted(option: bool, wanted: bool) -> bool
    ensures { result ≡ is_option wanted option }
{
    if wanted { option } else { !option }
}

// How often an option is there: ROWID for true, SEQUENCE for false.
fn count_of(options: &[bool], wanted: bool) -> usize
    ensures { result ≡ count_by (is_option wanted) options.now }
{
    let mut count = 0;
    for option in options {
        if is_wanted(*option, wanted) {
            count += 1;
        }
    }
    count
}

// Whether an option is there.
fn has_option(options: &[bool], wanted: bool) -> bool
    ensures { result ≡ list_any (is_option wanted) options.now }
{
    for option in options {
        if is_wanted(*option, wanted) {
            return true;
        }
    }
    false
}

/// The options of a log, each at most once.
pub struct LogOptions;

impl Rule for LogOptions {
    type Output = Seq<bool>;

    ghost reads = { log_options };

    fn read(parser: &mut Parser<'_>) -> Result<Seq<bool>, ParseFault> {
        let options = Listed::<LogOption>::read(parser)?;
        if count_of(options.as_slice(), true) <= 1 && count_of(options.as_slice(), false) <= 1 {
            Ok(options)
        } else {
            Err(ParseFault::Syntax)
        }
    }
}

/// WITH and the options of a log.
pub struct WithOptions;

impl Rule for WithOptions {
    type Output = Seq<bool>;

    ghost reads = { word (codes "WITH") >> log_options };

    fn read(parser: &mut Parser<'_>) -> Result<Seq<bool>, ParseFault> {
        parser.word(b"WITH")?;
        LogOptions::read(parser)
    }
}

/// CREATE MATERIALIZED VIEW LOG.
pub struct CreateLogRule;

impl Rule for CreateLogRule {
    type Output = Statement;

    ghost reads = { create_log };

    fn read(parser: &mut Parser<'_>) -> Result<Statement, ParseFault> {
        take_words(
            parser,
            ["CREATE", "MATERIALIZED", "VIEW", "LOG", "ON"].as_slice(),
        )?;
        let table = parser.name()?;
        let options = OptionalList::<WithOptions>::read(parser)?;
        let columns = OptionalList::<Bracketed<Listed<PlainName>>>::read(parser)?;
        let new_values = maybe_one_of_both(
            parser,
            ["INCLUDING", "NEW", "VALUES"].as_slice(),
            ["EXCLUDING", "NEW", "VALUES"].as_slice(),
        );
        Ok(Statement::Log(LogStatement::CreateLog(NewLog {
            table,
            rowid: has_option(options.as_slice(), true),
            sequence: has_option(options.as_slice(), false),
            columns,
            new_values,
        })))
    }
}

/// DROP MATERIALIZED VIEW LOG.
pub struct DropLogRule;

impl Rule for DropLogRule {
    type Output = Statement;

    ghost reads = { named_form (codes "DROP" ∷ codes "MATERIALIZED" ∷ codes "VIEW" ∷ codes "LOG" ∷ codes "ON" ∷ []) (λ n. about.Log (logs.DropLog n)) };

    fn read(parser: &mut Parser<'_>) -> Result<Statement, ParseFault> {
        take_words(
            parser,
            ["DROP", "MATERIALIZED", "VIEW", "LOG", "ON"].as_slice(),
        )?;
        let table = parser.name()?;
        Ok(Statement::Log(LogStatement::DropLog(table)))
    }
}

/// A statement on a log.
pub type Log = Either<CreateLogRule, DropLogRule>;
