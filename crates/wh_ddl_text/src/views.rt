ghost use Rattle.def_grammar.specs.Forms.{alter_view, create_view, definition, fast_or_other, is_deferred, named_form, rewrite_clause};
ghost use Rattle.def_grammar.specs.Reading.{gives};
ghost use Rattle.std.specs.Prelude.{[], ◌∷◌, codes, false};
ghost use Rattle.wh_base.specs.declared.statements.Method.TheVariants.{Force};
ghost use Rattle.wh_base.specs.declared.statements.Statement.TheVariants as about;
ghost use Rattle.wh_base.specs.declared.statements.ViewStatement.TheVariants as views;
ghost use Rattle.wh_ddl_text.specs.Pieces.{written_refresh};

use crate::asked::AskedQuery;
use crate::words::{maybe_one_of_both, one_of_both, take_words, takes_all};
use wh_base::statements::{Asked, Method, NewView, Statement, ViewStatement, ViewSwitch};
use wh_query_text::parser::{ParseFault, Parser};
use wh_query_text::rule::{Either, Rule, boxed};

/// FAST, COMPLETE or FORCE, which may be left out.
pub struct ViewMethod;

impl Rule for ViewMethod {
    type Output = Method;

    ghost reads = { fast_or_other };

    fn read(parser: &mut Parser<'_>) -> Result<Method, ParseFault> {
        if parser.word(b"FAST").is_ok() {
            return Ok(Method::Fast);
        }
        if parser.word(b"COMPLETE").is_ok() {
            return Ok(Method::Complete);
        }
        if parser.word(b"FORCE").is_ok() {
            return Ok(Method::Force);
        }
        Ok(Method::Force)
    }
}

/// REFRESH with its method, and whether it is ON COMMIT.
pub struct WrittenRefresh;

impl Rule for WrittenRefresh {
    type Output = (Method, bool);

    ghost reads = { written_refresh };

    fn read(parser: &mut Parser<'_>) -> Result<(Method, bool), ParseFault> {
        parser.word(b"REFRESH")?;
        let method = ViewMethod::read(parser)?;
        let on_commit = maybe_one_of_both(
            parser,
            ["ON", "COMMIT"].as_slice(),
            ["ON", "DEMAND"].as_slice(),
        );
        Ok((method, on_commit))
    }
}

/// No REFRESH: by FORCE, on demand.
pub struct NoRefresh;

impl Rule for NoRefresh {
    type Output = (Method, bool);

    ghost reads = { gives (Force, false) };

    fn read(_parser: &mut Parser<'_>) -> Result<(Method, bool), ParseFault> {
        Ok((Method::Force, false))
    }
}

/// REFRESH, which may be left out.
pub type RefreshClause = Either<WrittenRefresh, NoRefresh>;

/// ENABLE or DISABLE QUERY REWRITE.
pub struct RewriteClause;

impl Rule for RewriteClause {
    type Output = bool;

    ghost reads = { rewrite_clause };

    fn read(parser: &mut Parser<'_>) -> Result<bool, ParseFault> {
        one_of_both(
            parser,
            ["ENABLE", "QUERY", "REWRITE"].as_slice(),
            ["DISABLE", "QUERY", "REWRITE"].as_slice(),
        )
    }
}

/// No clause on rewrite, which is disabled then.
pub struct NoRewrite;

impl Rule for NoRewrite {
    type Output = bool;

    ghost reads = { gives false };

    fn read(_parser: &mut Parser<'_>) -> Result<bool, ParseFault> {
        Ok(false)
    }
}

/// BUILD DEFERRED, or BUILD IMMEDIATE, which may be left out.
pub struct Deferred;

impl Rule for Deferred {
    type Output = bool;

    ghost reads = { is_deferred };

    fn read(parser: &mut Parser<'_>) -> Result<bool, ParseFault> {
        if takes_all(parser, ["BUILD", "IMMEDIATE"].as_slice()) {
            return Ok(false);
        }
        if takes_all(parser, ["BUILD", "DEFERRED"].as_slice()) {
            return Ok(true);
        }
        Ok(false)
    }
}

/// The query of a view, which has no AS OF.
pub struct Definition;

impl Rule for Definition {
    type Output = Asked;

    ghost reads = { definition };

    fn read(parser: &mut Parser<'_>) -> Result<Asked, ParseFault> {
        let asked = AskedQuery::read(parser)?;
        if asked.query.as_of.is_none() {
            Ok(asked)
        } else {
            drop(asked);
            Err(ParseFault::Syntax)
        }
    }
}

/// CREATE MATERIALIZED VIEW.
pub struct CreateViewRule;

impl Rule for CreateViewRule {
    type Output = Statement;

    ghost reads = { create_view };

    fn read(parser: &mut Parser<'_>) -> Result<Statement, ParseFault> {
        take_words(parser, ["CREATE", "MATERIALIZED", "VIEW"].as_slice())?;
        let name = parser.name()?;
        let deferred = Deferred::read(parser)?;
        let (method, on_commit) = RefreshClause::read(parser)?;
        let rewrite = Either::<RewriteClause, NoRewrite>::read(parser)?;
        parser.word(b"AS")?;
        let asked = boxed(parser.alloc(), Definition::read(parser)?)?;
        Ok(Statement::View(ViewStatement::CreateView(NewView {
            name,
            deferred,
            method,
            on_commit,
            rewrite,
            asked,
        })))
    }
}

/// ALTER MATERIALIZED VIEW.
pub struct AlterViewRule;

impl Rule for AlterViewRule {
    type Output = Statement;

    ghost reads = { alter_view };

    fn read(parser: &mut Parser<'_>) -> Result<Statement, ParseFault> {
        take_words(parser, ["ALTER", "MATERIALIZED", "VIEW"].as_slice())?;
        let name = parser.name()?;
        let rewrite = RewriteClause::read(parser)?;
        Ok(Statement::View(ViewStatement::AlterView(ViewSwitch { name, rewrite })))
    }
}

/// DROP MATERIALIZED VIEW.
pub struct DropViewRule;

impl Rule for DropViewRule {
    type Output = Statement;

    ghost reads = { named_form (codes "DROP" ∷ codes "MATERIALIZED" ∷ codes "VIEW" ∷ []) (λ n. about.View (views.DropView n)) };

    fn read(parser: &mut Parser<'_>) -> Result<Statement, ParseFault> {
        take_words(parser, ["DROP", "MATERIALIZED", "VIEW"].as_slice())?;
        let name = parser.name()?;
        Ok(Statement::View(ViewStatement::DropView(name)))
    }
}

/// UNREGISTER MATERIALIZED VIEW.
pub struct UnregisterRule;

impl Rule for UnregisterRule {
    type Output = Statement;

    ghost reads = { named_form (codes "UNREGISTER" ∷ codes "MATERIALIZED" ∷ codes "VIEW" ∷ []) (λ n. about.View (views.Unregister n)) };

    fn read(parser: &mut Parser<'_>) -> Result<Statement, ParseFault> {
        take_words(parser, ["UNREGISTER", "MATERIALIZED", "VIEW"].as_slice())?;
        let name = parser.name()?;
        Ok(Statement::View(ViewStatement::Unregister(name)))
    }
}

/// A statement on a materialized view.
pub type View = Either<CreateViewRule, Either<AlterViewRule, Either<DropViewRule, UnregisterRule>>>;
