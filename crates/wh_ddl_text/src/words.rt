ghost use Rattle.def_grammar.specs.Forms.{all_words};
ghost use Rattle.std.specs.Prelude.{◌≡◌, Some, map};
ghost use Rattle.wh_ddl_text.specs.Words.{TakesAll, TakesWords, maybe_one_of_both, one_of_both};
ghost use Rattle.wh_query_text.specs.Parse.{Gives};

use wh_query_text::parser::{ParseFault, Parser};

/// Takes these keywords where all of them are next, and says whether they are. Else the place is as it was.
pub fn takes_all(parser: &mut Parser<'_>, words: &[&str]) -> bool
    ensures { TakesAll result parser.old parser.new (all_words (map (λ w. w.now) words.now) parser.old) }
{
    let place = parser.place();
    for word in words {
        if parser.word(word.as_bytes()).is_err() {
            *parser = place;
            return false;
        }
    }
    true
}

/// Takes these keywords. `Syntax` says that they aren't next.
pub fn take_words(parser: &mut Parser<'_>, words: &[&str]) -> Result<(), ParseFault>
    ensures { TakesWords result parser.new (all_words (map (λ w. w.now) words.now) parser.old) }
{
    if takes_all(parser, words) {
        Ok(())
    } else {
        Err(ParseFault::Syntax)
    }
}

/// Whether the first keywords or the second are next. `Syntax` says that neither are.
pub fn one_of_both(
    parser: &mut Parser<'_>,
    first: &[&str],
    second: &[&str],
) -> Result<bool, ParseFault>
    ensures { Gives result parser.new (one_of_both (map (λ w. w.now) first.now) (map (λ w. w.now) second.now) parser.old) }
{
    if takes_all(parser, first) {
        return Ok(true);
    }
    if takes_all(parser, second) {
        return Ok(false);
    }
    Err(ParseFault::Syntax)
}

/// Whether the first keywords are next. The second ones, which say the contrary, may be left out.
pub fn maybe_one_of_both(parser: &mut Parser<'_>, first: &[&str], second: &[&str]) -> bool
    ensures { maybe_one_of_both (map (λ w. w.now) first.now) (map (λ w. w.now) second.now) parser.old ≡ Some (result, parser.new) }
{
    if takes_all(parser, first) {
        return true;
    }
    if takes_all(parser, second) {
        return false;
    }
    false
}
