ghost use Rattle.std.specs.Prelude.{◌≡◌, ◌⊎◌, IfErr, IfOk, None, map, option_map, true};
ghost use Rattle.std.specs.List.{list_all};
ghost use Rattle.clap.specs.Values.{kind_of};
ghost use Rattle.wh_words.specs.Words.{is_plain, one_or_two, words_at, words_in};

use clap::error::ErrorKind;
use clap::{Arg, ArgMatches, Command, Error};
use std::alloc::{AllocError, Global};

/// The words by their place.
#[derive(Drop)]
pub(crate) struct Placed<'a> {
    /// The first word.
    pub(crate) form: &'a str,
    /// The second word: behind `order` the version of the transcript, behind `gen` the number of sales.
    pub(crate) number: Option<&'a str>,
}

/// What clap finds in the words: a first word, which must be there, and a second one that may be missing. An error says that
/// memory ran out, or that there are no words or more than two.
fn parsed<'a>(alloc: Global, words: &'a [&'a str]) -> Result<ArgMatches<'a>, Error>
    requires { list_all is_plain (map (λ t. t.now) words.now) ≡ true }
    ensures ok { IfOk result (λ m. words_in m ≡ one_or_two (map (λ t. t.now) words.now)) }
    ensures err { IfErr result (λ e. (kind_of e ≡ ErrorKind.OutOfMemory) ⊎ (one_or_two (map (λ t. t.now) words.now) ≡ None)) }
{
    let form = Arg::new(alloc, "form").required(true);
    let number = Arg::new(alloc, "number");
    let command = Command::new(alloc, "mviewdb")
        .no_binary_name(true)
        .arg(form)?
        .arg(number)?;
    command.try_get_matches_from(words)
}

/// What was found, by its place.
fn by_place<'a>(matches: &ArgMatches<'a>) -> Option<Placed<'a>>
    ensures { option_map words_at result ≡ words_in matches.now }
{
    let form = matches.get_str("form")?;
    Some(Placed {
        form,
        number: matches.get_str("number"),
    })
}

/// The words by their place, where there are one or two of them. An error says that memory ran out.
pub(crate) fn places<'a>(
    alloc: Global,
    words: &'a [&'a str],
) -> Result<Option<Placed<'a>>, AllocError>
    requires { list_all is_plain (map (λ t. t.now) words.now) ≡ true }
    ensures { IfOk result (λ r. option_map words_at r ≡ one_or_two (map (λ t. t.now) words.now)) }
{
    match parsed(alloc, words) {
        Ok(matches) => Ok(by_place(&matches)),
        Err(error) if error.kind() == ErrorKind::OutOfMemory => Err(AllocError),
        Err(_) => Ok(None),
    }
}
