ghost use Rattle.def_grammar.specs.Reading.{◌>>◌, ◌or◌, bracketed, listed, many, mark, maybe};
ghost use Rattle.std.specs.Prelude.{◌∷◌, List, Option, codes};
ghost use Rattle.wh_base.specs.declared.tokens.Token.{Token};
ghost use Rattle.wh_query_text.specs.Parse.{Gives};
ghost use Rattle.wh_query_text.specs.Pieces.{Makes};

use crate::parser::{ParseFault, Parser};
use std::alloc::Global;
use std::marker::PhantomData;
use wh_base::boxed::Boxed;
use wh_base::seq::Seq;

/// A rule of the grammar. It is a type without values, so that a rule of rules is a type of types.
pub trait Rule {
    /// What the rule reads.
    type Output;

    /// What the rule reads from the front of some tokens, and the tokens after it; none where it doesn't read.
    ghost reads: { List Token → Option (Self.Output × List Token) };

    /// Reads by the rule. After a syntax fault the place is any, so go back to one that was kept.
    fn read(parser: &mut Parser<'_>) -> Result<Self::Output, ParseFault>
        ensures { Gives result parser.new (reads parser.old) };
}

/// One rule, or the other where the first doesn't read.
pub struct Either<R, S> {
    first: PhantomData<R>,
    second: PhantomData<S>,
}

impl<R: Rule, S: Rule<Output = R::Output>> Rule for Either<R, S> {
    type Output = R::Output;

    ghost reads = { R.reads or S.reads };

    fn read(parser: &mut Parser<'_>) -> Result<R::Output, ParseFault> {
        let place = parser.place();
        match R::read(parser) {
            Ok(x) => Ok(x),
            Err(ParseFault::Memory) => Err(ParseFault::Memory),
            Err(ParseFault::Syntax) => {
                *parser = place;
                S::read(parser)
            }
        }
    }
}

/// What a rule reads, or `None` where it doesn't read.
pub struct Maybe<R> {
    rule: PhantomData<R>,
}

impl<R: Rule> Rule for Maybe<R> {
    type Output = Option<R::Output>;

    ghost reads = { maybe R.reads };

    fn read(parser: &mut Parser<'_>) -> Result<Option<R::Output>, ParseFault> {
        let place = parser.place();
        match R::read(parser) {
            Ok(x) => Ok(Some(x)),
            Err(ParseFault::Memory) => Err(ParseFault::Memory),
            Err(ParseFault::Syntax) => {
                *parser = place;
                Ok(None)
            }
        }
    }
}

/// What a rule reads again and again, up to where it doesn't read.
pub struct Many<R> {
    rule: PhantomData<R>,
}

impl<R: Rule> Rule for Many<R>
where
    R::Output: Drop,
{
    type Output = Seq<R::Output>;

    ghost reads = { many R.reads };

    fn read(parser: &mut Parser<'_>) -> Result<Seq<R::Output>, ParseFault> {
        let mut items = Seq::new(parser.alloc());
        for turn in 0..parser.len() {
            let place = parser.place();
            match R::read(parser) {
                Ok(item) => {
                    let Ok(()) = items.push(item) else {
                        return Err(ParseFault::Memory);
                    };
                }
                Err(ParseFault::Memory) => return Err(ParseFault::Memory),
                Err(ParseFault::Syntax) => {
                    *parser = place;
                    return Ok(items);
                }
            }
        }
        Ok(items)
    }
}

/// A comma, and what a rule reads behind it.
pub struct BehindComma<R> {
    rule: PhantomData<R>,
}

impl<R: Rule> Rule for BehindComma<R> {
    type Output = R::Output;

    ghost reads = { mark (codes ",") >> R.reads };

    fn read(parser: &mut Parser<'_>) -> Result<R::Output, ParseFault> {
        parser.mark(b",")?;
        R::read(parser)
    }
}

/// The item, and the others behind it, in no more memory than they take: a script may have many short lists. The one
/// fault is want of memory.
pub fn with_first<T: Drop>(alloc: Global, first: T, more: Seq<T>) -> Result<Seq<T>, ParseFault>
    ensures { Makes result (first ∷ more) }
{
    let mut more = more.into_vec();
    let Ok(mut items) = Vec::with_capacity(alloc, 1 + more.len()) else {
        return Err(ParseFault::Memory);
    };
    let Ok(()) = items.push(first) else {
        return Err(ParseFault::Memory);
    };
    let Ok(()) = items.append(&mut more) else {
        return Err(ParseFault::Memory);
    };
    match Seq::from_vec(items) {
        Ok(items) => Ok(items),
        Err(_) => Err(ParseFault::Memory),
    }
}

/// The value in a block of its own. The one fault is want of memory.
pub fn boxed<T: Drop>(alloc: Global, value: T) -> Result<Boxed<T>, ParseFault>
    ensures { Makes result value }
{
    match Boxed::new(alloc, value) {
        Ok(boxed) => Ok(boxed),
        Err(_) => Err(ParseFault::Memory),
    }
}

/// What a rule reads at least once, with commas between.
pub struct Listed<R> {
    rule: PhantomData<R>,
}

impl<R: Rule> Rule for Listed<R>
where
    R::Output: Drop,
{
    type Output = Seq<R::Output>;

    ghost reads = { listed R.reads };

    fn read(parser: &mut Parser<'_>) -> Result<Seq<R::Output>, ParseFault> {
        let first = R::read(parser)?;
        let more = Many::<BehindComma<R>>::read(parser)?;
        with_first(parser.alloc(), first, more)
    }
}

/// What a rule reads between parentheses.
pub struct Bracketed<R> {
    rule: PhantomData<R>,
}

impl<R: Rule> Rule for Bracketed<R>
where
    R::Output: Drop,
{
    type Output = R::Output;

    ghost reads = { bracketed R.reads };

    fn read(parser: &mut Parser<'_>) -> Result<R::Output, ParseFault> {
        parser.mark(b"(")?;
        let inner = R::read(parser)?;
        parser.mark(b")")?;
        Ok(inner)
    }
}
