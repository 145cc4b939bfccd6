ghost use Rattle.std.specs.Prelude.{◌≡◌, IfOk, map, option_map};
ghost use Rattle.std.specs.List.{list_all};
ghost use Rattle.std.specs.Str.{is_utf8};
ghost use Rattle.wh_base.specs.Lists.{where_true};
ghost use Rattle.wh_words.specs.Words.{has_hyphen, is_plain};

use std::alloc::{AllocError, Global};
use wh_base::txt::Txt;

/// Whether the word begins with a hyphen, as a flag does.
fn has_hyphen(word: &[u8]) -> bool
    ensures { result ≡ has_hyphen word.now }
{
    word.first() == Some(&b'-')
}

/// The word as text, where it is UTF-8.
#[tactic(auto, using(crate::proofs::Utf8::texts))]
fn text_in(word: &[u8]) -> Option<&str>
    ensures { option_map (λ t. t.now) result ≡ where_true (is_utf8 word.now) word.now }
{
    match std::str::from_utf8(word) {
        Ok(text) => Some(text),
        Err(_) => None,
    }
}

/// The word as text, where it is UTF-8 and no flag.
fn plain_text(word: &[u8]) -> Option<&str>
    ensures { option_map (λ t. t.now) result ≡ where_true (is_plain word.now) word.now }
{
    if has_hyphen(word) {
        return None;
    }
    text_in(word)
}

/// The words as texts, where each is UTF-8 and no flag. An error says that memory ran out.
#[tactic(auto, using(crate::proofs::Walked::walks))]
pub(crate) fn plain_texts(alloc: Global, words: &[Txt]) -> Result<Option<Vec<&str>>, AllocError>
    ensures { IfOk result (λ r. option_map (λ v. map (λ t. t.now) v.items) r
        ≡ where_true (list_all is_plain words.now) words.now) }
{
    let mut texts = Vec::new(alloc);
    for word in words {
        let Some(text) = plain_text(word.as_slice()) else {
            return Ok(None);
        };
        texts.push(text)?;
    }
    Ok(Some(texts))
}
