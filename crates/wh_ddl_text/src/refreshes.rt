ghost use Rattle.def_grammar.specs.Forms.{method_in, method_letter, method_text, name_in, name_list_token, name_text_token, refresh_of, submit};
ghost use Rattle.def_grammar.specs.Reading.{◌>>◌, mapped, mark};
ghost use Rattle.std.specs.List.{list_all};
ghost use Rattle.std.specs.Prelude.{[], ◌≡◌, ◌<◌, ◌^◌, codes, length, true};
ghost use Rattle.wh_base.specs.Lists.{is_empty};
ghost use Rattle.wh_ddl_text.specs.Names.{execute_word, only_name};
ghost use Rattle.wh_lex.specs.Lex.{token_fits};
ghost use Rattle.wh_query_text.specs.Parse.{Takes};
ghost use Rattle.wh_query_text.specs.Pieces.{Makes};

use crate::name_lists::list_in;
use std::alloc::Global;
use std::marker::PhantomData;
use wh_base::seq::Seq;
use wh_base::statements::{Method, RefreshView, Statement};
use wh_base::txt::Txt;
use wh_lex::lex::{LexFault, StatementTokens, statement_tokens};
use wh_query_text::parser::{ParseFault, Parser};
use wh_query_text::rule::{Maybe, Rule};

fn method_letter(byte: u8) -> Option<Method>
    ensures { result ≡ method_letter byte }
{
    match byte {
        b'F' | b'f' => Some(Method::Fast),
        b'C' | b'c' => Some(Method::Complete),
        b'P' | b'p' => Some(Method::Partition),
        b'?' => Some(Method::Force),
        _ => None,
    }
}

fn method_in(text: &[u8]) -> Option<Method>
    ensures { result ≡ method_in text.now }
{
    match text {
        [letter] => method_letter(*letter),
        _ => None,
    }
}

/// The letter of a method in quotes.
pub struct MethodText;

impl Rule for MethodText {
    type Output = Method;

    ghost reads = { method_text };

    fn read(parser: &mut Parser<'_>) -> Result<Method, ParseFault> {
        let text = parser.quoted()?;
        method_in(text.as_slice()).ok_or(ParseFault::Syntax)
    }
}

/// A comma and the letter of a method.
pub struct MethodPart;

impl Rule for MethodPart {
    type Output = Method;

    ghost reads = { mark (codes ",") >> method_text };

    fn read(parser: &mut Parser<'_>) -> Result<Method, ParseFault> {
        parser.mark(b",")?;
        MethodText::read(parser)
    }
}

#[tactic(auto, using(crate::proofs::TextNames::empties))]
pub(crate) fn is_at_end(parser: &Parser<'_>) -> bool
    ensures { result ≡ is_empty parser.now }
{
    parser.len() == 0
}

// The name that the tokens of a statement without a semicolon are, where it is as long as this.
fn only_name(
    alloc: Global,
    statement: &StatementTokens,
    len: usize,
) -> Result<Option<Txt>, ParseFault>
    requires { list_all token_fits statement.now.tokens ≡ true }
    ensures { Makes result (only_name statement.now len) }
{
    if statement.closed.is_some() {
        return Ok(None);
    }
    let mut parser = Parser::new(alloc, statement.tokens.as_slice());
    match parser.name() {
        Ok(name) => if is_at_end(&parser) && name.len() == len {
            Ok(Some(name))
        } else {
            Ok(None)
        },
        Err(ParseFault::Syntax) => Ok(None),
        Err(ParseFault::Memory) => Err(ParseFault::Memory),
    }
}

/// The name that a text is, from its first byte to its last, and `None` where it is none.
///
/// `Memory` says that memory ran out; there is no other error.
pub fn name_in(alloc: Global, text: &[u8]) -> Result<Option<Txt>, ParseFault>
    requires { length text.now < 2 ^ 32 }
    ensures { Makes result (name_in text.now) }
{
    match statement_tokens(alloc, text, 0) {
        Ok(statement) => only_name(alloc, &statement, text.len()),
        Err(LexFault::Memory) => Err(ParseFault::Memory),
        Err(LexFault::BadCharacter { .. }) => Ok(None),
        Err(LexFault::OpenQuote { .. }) => Ok(None),
    }
}

/// A name in quotes.
pub struct NameText;

impl Rule for NameText {
    type Output = Txt;

    ghost reads = { name_text_token };

    fn read(parser: &mut Parser<'_>) -> Result<Txt, ParseFault> {
        let text = parser.quoted()?;
        match name_in(parser.alloc(), text.as_slice())? {
            Some(name) => Ok(name),
            None => Err(ParseFault::Syntax),
        }
    }
}

/// A name in quotes, with none behind it.
pub struct OneName;

impl Rule for OneName {
    type Output = (Txt, Seq<Txt>);

    ghost reads = { mapped (λ n. (n, [])) name_text_token };

    fn read(parser: &mut Parser<'_>) -> Result<(Txt, Seq<Txt>), ParseFault> {
        let name = NameText::read(parser)?;
        Ok((name, Seq::new(parser.alloc())))
    }
}

/// A list of names in quotes: the first, and those behind it.
pub struct NameList;

impl Rule for NameList {
    type Output = (Txt, Seq<Txt>);

    ghost reads = { name_list_token };

    fn read(parser: &mut Parser<'_>) -> Result<(Txt, Seq<Txt>), ParseFault> {
        let text = parser.quoted()?;
        match list_in(parser.alloc(), text.as_slice())? {
            Some(list) => Ok(list),
            None => Err(ParseFault::Syntax),
        }
    }
}

// Takes EXECUTE or its short form.
fn take_execute(parser: &mut Parser<'_>) -> Result<(), ParseFault>
    ensures { Takes result parser.old parser.new (execute_word parser.old) }
{
    match parser.word(b"EXECUTE") {
        Ok(()) => Ok(()),
        Err(_) => parser.word(b"EXEC"),
    }
}

/// DBMS_MVIEW.REFRESH, where this rule reads the name and those behind it.
pub struct RefreshOf<N> {
    names: PhantomData<N>,
}

impl<N: Rule<Output = (Txt, Seq<Txt>)>> Rule for RefreshOf<N> {
    type Output = Statement;

    ghost reads = { refresh_of N.reads };

    fn read(parser: &mut Parser<'_>) -> Result<Statement, ParseFault> {
        take_execute(parser)?;
        parser.word(b"DBMS_MVIEW")?;
        parser.mark(b".")?;
        parser.word(b"REFRESH")?;
        parser.mark(b"(")?;
        let (name, more) = N::read(parser)?;
        let method = Maybe::<MethodPart>::read(parser)?;
        parser.mark(b")")?;
        Ok(Statement::Refresh(RefreshView { name, method, more }))
    }
}

/// DBMS_MVIEW.REFRESH of one view, or of a list of them.
pub type RefreshRule = RefreshOf<NameList>;

/// SUBMIT of a refresh of one view.
pub struct SubmitRule;

impl Rule for SubmitRule {
    type Output = Statement;

    ghost reads = { submit };

    fn read(parser: &mut Parser<'_>) -> Result<Statement, ParseFault> {
        parser.word(b"SUBMIT")?;
        RefreshOf::<OneName>::read(parser)
    }
}
