ghost use Rattle.def_grammar.specs.Forms.{name_in, without_spaces_before, without_spaces_behind};
ghost use Rattle.std.specs.Prelude.{[], ◌∷◌, ◌≡◌, ◌++◌, ◌<◌, ◌≤◌, ◌^◌, length, option_map, take_while};
ghost use Rattle.wh_ddl_text.specs.NameLists.{Pushes, comma_place, is_space, list_in, names_behind, with_names};
ghost use Rattle.wh_query_text.specs.Pieces.{Makes};

use crate::refreshes::name_in;
use std::alloc::Global;
use wh_base::seq::Seq;
use wh_base::txt::Txt;
use wh_query_text::parser::ParseFault;

/// How many names a list has at most behind its first.
const MORE_NAMES: usize = 63;

// How many spaces are in front.
fn spaces(text: &[u8]) -> usize
    ensures count { result ≡ length (take_while is_space text.now) }
    ensures within { result ≤ length text.now }
{
    text.iter().take_while(|b| **b == b' ').count()
}

#[tactic(auto, using(crate::proofs::Commas::spaces))]
fn without_spaces_before(text: &[u8]) -> &[u8]
    ensures is { result.now ≡ without_spaces_before text.now }
    ensures within { length result.now ≤ length text.now }
{
    text.split_at(spaces(text)).1
}

#[tactic(auto, using(crate::proofs::Commas::spaces))]
fn without_spaces_behind(text: &[u8]) -> &[u8]
    ensures is { result.now ≡ without_spaces_behind text.now }
    ensures within { length result.now ≤ length text.now }
{
    let mut rest = text;
    while let Some((last, front)) = rest.split_last() {
        if *last != b' ' {
            return rest;
        }
        rest = front;
    }
    rest
}

// How many bytes are before the first comma; all where there is none.
fn comma_place(text: &[u8]) -> usize
    ensures count { result ≡ comma_place text.now }
    ensures within { result ≤ length text.now }
{
    text.iter().take_while(|b| **b != b',').count()
}

// Pushes the name that a text is, and says whether it is one. The one fault is want of memory.
fn push_name(alloc: Global, text: &[u8], names: &mut Seq<Txt>) -> Result<bool, ParseFault>
    requires { length text.now < 2 ^ 32 }
    ensures { Pushes result names.new (option_map (λ n. names.old ++ n ∷ []) (name_in text.now)) }
{
    match name_in(alloc, text)? {
        Some(name) => match names.push(name) {
            Ok(()) => Ok(true),
            Err(_) => Err(ParseFault::Memory),
        },
        None => Ok(false),
    }
}

// The names that a text behind a comma lists; `None` where a piece is no name, or where they are too many.
#[tactic(auto, using(crate::proofs::Commas::pieces))]
fn names_behind(alloc: Global, text: &[u8]) -> Result<Option<Seq<Txt>>, ParseFault>
    requires { length text.now < 2 ^ 32 }
    ensures { Makes result (with_names [] (names_behind text.now)) }
{
    let mut names = Seq::new(alloc);
    let mut rest = text;
    for turn in 0..MORE_NAMES {
        let place = comma_place(rest);
        if place == rest.len() {
            return if push_name(alloc, without_spaces_before(rest), &mut names)? {
                Ok(Some(names))
            } else {
                Ok(None)
            };
        }
        let piece = without_spaces_behind(without_spaces_before(rest.split_at(place).0));
        if !push_name(alloc, piece, &mut names)? {
            return Ok(None);
        }
        rest = rest.split_at(place + 1).1;
    }
    Ok(None)
}

// The name that a text is, as a list of it alone.
fn one_name(alloc: Global, text: &[u8]) -> Result<Option<(Txt, Seq<Txt>)>, ParseFault>
    requires { length text.now < 2 ^ 32 }
    ensures { Makes result (option_map (λ n. (n, [])) (name_in text.now)) }
{
    match name_in(alloc, text)? {
        Some(name) => Ok(Some((name, Seq::new(alloc)))),
        None => Ok(None),
    }
}

// The name and those that a text behind a comma lists.
fn with_first(alloc: Global, first: Txt, text: &[u8]) -> Result<Option<(Txt, Seq<Txt>)>, ParseFault>
    requires { length text.now < 2 ^ 32 }
    ensures { Makes result (option_map (λ names. (first, names)) (with_names [] (names_behind text.now))) }
{
    match names_behind(alloc, text)? {
        Some(more) => Ok(Some((first, more))),
        None => Ok(None),
    }
}

/// The names that a text lists, with commas between and with spaces around these: the first, and the others. `None` where
/// what stands between two commas is no name, or where there are more than 64.
///
/// `Memory` says that memory ran out; there is no other error.
#[tactic(auto, using(crate::proofs::Commas::lists))]
pub fn list_in(alloc: Global, text: &[u8]) -> Result<Option<(Txt, Seq<Txt>)>, ParseFault>
    requires { length text.now < 2 ^ 32 }
    ensures { Makes result (list_in text.now) }
{
    let place = comma_place(text);
    if place == text.len() {
        return one_name(alloc, text);
    }
    let piece = without_spaces_behind(text.split_at(place).0);
    match name_in(alloc, piece)? {
        Some(first) => with_first(alloc, first, text.split_at(place + 1).1),
        None => Ok(None),
    }
}
