ghost use Rattle.def_grammar.specs.Forms.{all_words, asked, level_setting, named_form, on_or_off, session_setting};
ghost use Rattle.def_grammar.specs.Reading.{◌>>◌, mapped, mark, number, word};
ghost use Rattle.std.specs.Prelude.{[], ◌∷◌, codes, pos};
ghost use Rattle.wh_base.specs.declared.statements.PurgeStatement.TheVariants as purges;
ghost use Rattle.wh_base.specs.declared.statements.SessionStatement.TheVariants as sessions;
ghost use Rattle.wh_base.specs.declared.statements.ShowStatement.TheVariants as shows;
ghost use Rattle.wh_base.specs.declared.statements.Statement.TheVariants as about;

use crate::asked::AskedQuery;
use crate::words::take_words;
use wh_base::statements::{Level, PurgeStatement, SessionStatement, ShowStatement, Statement};
use wh_query_text::parser::{ParseFault, Parser};
use wh_query_text::rule::{Either, Rule, boxed};

/// PURGE LOG.
pub struct PurgeLogRule;

impl Rule for PurgeLogRule {
    type Output = Statement;

    ghost reads = { named_form (codes "PURGE" ∷ codes "LOG" ∷ codes "ON" ∷ []) (λ n. about.Purge (purges.PurgeLog n)) };

    fn read(parser: &mut Parser<'_>) -> Result<Statement, ParseFault> {
        take_words(parser, ["PURGE", "LOG", "ON"].as_slice())?;
        let table = parser.name()?;
        Ok(Statement::Purge(PurgeStatement::PurgeLog(table)))
    }
}

/// PURGE UNDO.
pub struct PurgeUndoRule;

impl Rule for PurgeUndoRule {
    type Output = Statement;

    ghost reads = { mapped (λ n. about.Purge (purges.PurgeUndo (pos n))) (all_words (codes "PURGE" ∷ codes "UNDO" ∷ codes "TO" ∷ codes "SCN" ∷ []) >> number) };

    fn read(parser: &mut Parser<'_>) -> Result<Statement, ParseFault> {
        take_words(parser, ["PURGE", "UNDO", "TO", "SCN"].as_slice())?;
        let scn = parser.number()?;
        Ok(Statement::Purge(PurgeStatement::PurgeUndo(scn as i128)))
    }
}

/// SHOW VIEW.
pub struct ShowViewRule;

impl Rule for ShowViewRule {
    type Output = Statement;

    ghost reads = { named_form (codes "SHOW" ∷ codes "VIEW" ∷ []) (λ n. about.Show (shows.ShowView n)) };

    fn read(parser: &mut Parser<'_>) -> Result<Statement, ParseFault> {
        take_words(parser, ["SHOW", "VIEW"].as_slice())?;
        let name = parser.name()?;
        Ok(Statement::Show(ShowStatement::ShowView(name)))
    }
}

/// SHOW LOG.
pub struct ShowLogRule;

impl Rule for ShowLogRule {
    type Output = Statement;

    ghost reads = { named_form (codes "SHOW" ∷ codes "LOG" ∷ []) (λ n. about.Show (shows.ShowLog n)) };

    fn read(parser: &mut Parser<'_>) -> Result<Statement, ParseFault> {
        take_words(parser, ["SHOW", "LOG"].as_slice())?;
        let table = parser.name()?;
        Ok(Statement::Show(ShowStatement::ShowLog(table)))
    }
}

/// EXPLAIN MVIEW.
pub struct ExplainViewRule;

impl Rule for ExplainViewRule {
    type Output = Statement;

    ghost reads = { named_form (codes "EXPLAIN" ∷ codes "MVIEW" ∷ []) (λ n. about.Show (shows.ExplainView n)) };

    fn read(parser: &mut Parser<'_>) -> Result<Statement, ParseFault> {
        take_words(parser, ["EXPLAIN", "MVIEW"].as_slice())?;
        let name = parser.name()?;
        Ok(Statement::Show(ShowStatement::ExplainView(name)))
    }
}

/// EXPLAIN REWRITE of a query.
pub struct ExplainQueryRule;

impl Rule for ExplainQueryRule {
    type Output = Statement;

    ghost reads = { mapped about.ExplainQuery (all_words (codes "EXPLAIN" ∷ codes "REWRITE" ∷ []) >> asked) };

    fn read(parser: &mut Parser<'_>) -> Result<Statement, ParseFault> {
        take_words(parser, ["EXPLAIN", "REWRITE"].as_slice())?;
        let asked = AskedQuery::read(parser)?;
        Ok(Statement::ExplainQuery(boxed(parser.alloc(), asked)?))
    }
}

/// SET TRANSACTION READ ONLY.
pub struct ReadOnlyRule;

impl Rule for ReadOnlyRule {
    type Output = Statement;

    ghost reads = { mapped (λ t. about.Session sessions.ReadOnly) (all_words (codes "SET" ∷ codes "TRANSACTION" ∷ codes "READ" ∷ codes "ONLY" ∷ [])) };

    fn read(parser: &mut Parser<'_>) -> Result<Statement, ParseFault> {
        take_words(parser, ["SET", "TRANSACTION", "READ", "ONLY"].as_slice())?;
        Ok(Statement::Session(SessionStatement::ReadOnly))
    }
}

/// COMMIT, which ends a read-only transaction.
pub struct EndReadOnlyRule;

impl Rule for EndReadOnlyRule {
    type Output = Statement;

    ghost reads = { mapped (λ t. about.Session sessions.EndReadOnly) (word (codes "COMMIT")) };

    fn read(parser: &mut Parser<'_>) -> Result<Statement, ParseFault> {
        parser.word(b"COMMIT")?;
        Ok(Statement::Session(SessionStatement::EndReadOnly))
    }
}

/// What QUERY_REWRITE_INTEGRITY is set to.
pub struct LevelSetting;

impl Rule for LevelSetting {
    type Output = Level;

    ghost reads = { level_setting };

    fn read(parser: &mut Parser<'_>) -> Result<Level, ParseFault> {
        if parser.word(b"ENFORCED").is_ok() {
            return Ok(Level::Enforced);
        }
        if parser.word(b"TRUSTED").is_ok() {
            return Ok(Level::Trusted);
        }
        parser.word(b"STALE_TOLERATED")?;
        Ok(Level::StaleTolerated)
    }
}

/// TRUE or FALSE.
pub struct OnOrOff;

impl Rule for OnOrOff {
    type Output = bool;

    ghost reads = { on_or_off };

    fn read(parser: &mut Parser<'_>) -> Result<bool, ParseFault> {
        if parser.word(b"TRUE").is_ok() {
            return Ok(true);
        }
        parser.word(b"FALSE")?;
        Ok(false)
    }
}

/// QUERY_REWRITE_INTEGRITY and its level.
pub struct SetLevelRule;

impl Rule for SetLevelRule {
    type Output = Statement;

    ghost reads = { mapped (λ l. about.Session (sessions.SetLevel l)) (word (codes "QUERY_REWRITE_INTEGRITY") >> mark (codes "=") >> level_setting) };

    fn read(parser: &mut Parser<'_>) -> Result<Statement, ParseFault> {
        parser.word(b"QUERY_REWRITE_INTEGRITY")?;
        parser.mark(b"=")?;
        let level = LevelSetting::read(parser)?;
        Ok(Statement::Session(SessionStatement::SetLevel(level)))
    }
}

/// QUERY_REWRITE_ENABLED and its switch.
pub struct SetRewriteRule;

impl Rule for SetRewriteRule {
    type Output = Statement;

    ghost reads = { mapped (λ on. about.Session (sessions.SetRewrite on)) (word (codes "QUERY_REWRITE_ENABLED") >> mark (codes "=") >> on_or_off) };

    fn read(parser: &mut Parser<'_>) -> Result<Statement, ParseFault> {
        parser.word(b"QUERY_REWRITE_ENABLED")?;
        parser.mark(b"=")?;
        let on = OnOrOff::read(parser)?;
        Ok(Statement::Session(SessionStatement::SetRewrite(on)))
    }
}

/// ALTER SESSION.
pub struct SessionSetting;

impl Rule for SessionSetting {
    type Output = Statement;

    ghost reads = { session_setting };

    fn read(parser: &mut Parser<'_>) -> Result<Statement, ParseFault> {
        take_words(parser, ["ALTER", "SESSION", "SET"].as_slice())?;
        Either::<SetLevelRule, SetRewriteRule>::read(parser)
    }
}

/// EXPLAIN REWRITE, a transaction's begin or end, or a setting.
pub type OfSession = Either<
    ExplainQueryRule,
    Either<ReadOnlyRule, Either<EndReadOnlyRule, SessionSetting>>,
>;

/// A purge, something to show, or a statement on the session.
pub type Other = Either<
    PurgeLogRule,
    Either<
        PurgeUndoRule,
        Either<ShowViewRule, Either<ShowLogRule, Either<ExplainViewRule, OfSession>>>,
    >,
>;
