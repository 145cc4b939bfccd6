ghost use Rattle.def_grammar.specs.Query.{all_of};
ghost use Rattle.def_grammar.specs.Reading.{◌>>◌, maybe, optional_list, word};
ghost use Rattle.std.specs.Prelude.{◌≡◌, Some, codes};
ghost use Rattle.wh_query_text.specs.Pieces.{word_there};

use crate::parser::{ParseFault, Parser};
use crate::rule::{Many, Maybe, Rule, with_first};
use std::marker::PhantomData;
use wh_base::seq::Seq;

/// Takes this keyword where it is next.
pub fn skip_word(parser: &mut Parser<'_>, text: &[u8])
    ensures { maybe (word text.now) parser.old ≡ Some (word_there text.now parser.old, parser.new) }
{
    match parser.word(text) {
        Ok(()) => {}
        Err(_) => {}
    }
}

/// AND, and what a rule reads behind it.
pub struct BehindAnd<R> {
    rule: PhantomData<R>,
}

impl<R: Rule> Rule for BehindAnd<R> {
    type Output = R::Output;

    ghost reads = { word (codes "AND") >> R.reads };

    fn read(parser: &mut Parser<'_>) -> Result<R::Output, ParseFault> {
        parser.word(b"AND")?;
        R::read(parser)
    }
}

/// What a rule reads at least once, with AND between.
pub struct AllOf<R> {
    rule: PhantomData<R>,
}

impl<R: Rule> Rule for AllOf<R>
where
    R::Output: Drop,
{
    type Output = Seq<R::Output>;

    ghost reads = { all_of R.reads };

    fn read(parser: &mut Parser<'_>) -> Result<Seq<R::Output>, ParseFault> {
        let first = R::read(parser)?;
        let more = Many::<BehindAnd<R>>::read(parser)?;
        with_first(parser.alloc(), first, more)
    }
}

/// A list that may be left out, and is empty then.
pub struct OptionalList<R> {
    rule: PhantomData<R>,
}

impl<R: Rule<Output = Seq<T>>, T: Drop> Rule for OptionalList<R> {
    type Output = Seq<T>;

    ghost reads = { optional_list R.reads };

    fn read(parser: &mut Parser<'_>) -> Result<Seq<T>, ParseFault> {
        match Maybe::<R>::read(parser)? {
            Some(items) => Ok(items),
            None => Ok(Seq::new(parser.alloc())),
        }
    }
}
