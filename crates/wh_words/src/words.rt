ghost use Rattle.std.specs.Prelude.{◌≡◌, IfOk, option_map};
ghost use Rattle.wh_words.specs.Words.{built_form, form_meant};

use crate::named::named;
use crate::places::places;
use crate::plain::plain_texts;
use std::alloc::{AllocError, Global};
use wh_base::txt::Txt;
use wh_base::values::Version;

/// A form of words that the program runs.
#[derive(Debug, Drop, Clone, Copy)]
pub enum Words {
    /// `order`: the script of the input, in its own order, and its transcript in the second version; in the first under
    /// `order 1`.
    Order(Version),
    /// `gen N`: the generated script with this many sales, from 1 to 100000.
    Generate(u32),
}

/// The form that the words after the program's name stand for: `order`, `order 1`, or `gen` and a number from 1 to 100000 in
/// decimal without a sign or a leading zero. Nothing where they name none of these: `check` doesn't run so far. The forms are
/// this project's own. An error says that memory ran out.
#[tactic(auto, using(crate::proofs::Forms::forms))]
pub fn form(alloc: Global, words: &[Txt]) -> Result<Option<Words>, AllocError>
    ensures { IfOk result (λ f. option_map form_meant f ≡ built_form words.now) }
{
    let Some(texts) = plain_texts(alloc, words)? else {
        return Ok(None);
    };
    let Some(placed) = places(alloc, texts.as_slice())? else {
        return Ok(None);
    };
    Ok(named(placed))
}
