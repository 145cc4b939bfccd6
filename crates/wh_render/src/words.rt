ghost use Rattle.std.specs.Prelude.{◌≡◌, ◌++◌, OnOk, map};
ghost use Rattle.def_transcript.specs.Texts.{point_text, yes_or_no};
ghost use Rattle.wh_render.specs.Pieces.{spaced, more_words};

use crate::fields::Printed;
use itoa::{Buffer, Integer};
use std::alloc::AllocError;

/// A number in decimal.
pub fn push_number<N: Integer>(out: &mut Vec<u8>, number: N) -> Result<(), AllocError>
    ensures { OnOk result (out.new.items ≡ out.old.items ++ N.text number) }
{
    let mut buffer = Buffer::new();
    out.extend_from_slice(buffer.format(number).as_bytes())
}

/// A word behind a space, and nothing for an empty one.
#[tactic(auto, unfolding(crate::specs::Pieces::spaced))]
pub fn push_word(out: &mut Vec<u8>, word: &[u8]) -> Result<(), AllocError>
    ensures { OnOk result (out.new.items ≡ out.old.items ++ spaced word.now) }
{
    if word.is_empty() {
        return Ok(());
    }
    out.push(b' ')?;
    out.extend_from_slice(word)
}

/// A name and a word.
pub fn push_named(out: &mut Vec<u8>, name: &[u8], word: &[u8]) -> Result<(), AllocError>
    ensures { OnOk result (out.new.items ≡ out.old.items ++ (spaced name.now ++ spaced word.now)) }
{
    push_word(out, name)?;
    push_word(out, word)?;
    Ok(())
}

/// A number as a word.
pub fn push_number_word<N: Integer>(out: &mut Vec<u8>, number: N) -> Result<(), AllocError>
    ensures { OnOk result (out.new.items ≡ out.old.items ++ spaced (N.text number)) }
{
    let mut buffer = Buffer::new();
    push_word(out, buffer.format(number).as_bytes())
}

/// A name and a number.
pub fn push_count<N: Integer>(out: &mut Vec<u8>, name: &[u8], number: N) -> Result<(), AllocError>
    ensures { OnOk result (out.new.items
        ≡ out.old.items ++ (spaced name.now ++ spaced (N.text number))) }
{
    push_word(out, name)?;
    push_number_word(out, number)?;
    Ok(())
}

/// A point, or a dash where there is none.
pub fn push_point(out: &mut Vec<u8>, point: Option<u64>) -> Result<(), AllocError>
    ensures { OnOk result (out.new.items ≡ out.old.items ++ spaced (point_text point)) }
{
    match point {
        Some(scn) => push_number_word(out, scn),
        None => push_word(out, b"-"),
    }
}

/// YES or NO.
pub fn yes_or_no(holds: bool) -> &'static str
    ensures { result.now ≡ yes_or_no holds }
{
    if holds { "YES" } else { "NO" }
}

/// The text of an item as a word.
pub fn push_printed<T: Printed>(out: &mut Vec<u8>, item: &T) -> Result<(), AllocError>
    ensures { OnOk result (out.new.items ≡ out.old.items ++ spaced (T.text item.now)) }
{
    let before = out.len();
    out.push(b' ')?;
    let bare = out.len();
    item.push_text(out)?;
    // An empty word takes no space.
    if out.len() == bare {
        out.truncate(before);
    }
    Ok(())
}

/// The texts of the items as words.
pub fn push_all_printed<T: Printed>(out: &mut Vec<u8>, items: &[T]) -> Result<(), AllocError>
    ensures { OnOk result (out.new.items ≡ out.old.items ++ more_words (map T.text items.now)) }
{
    for item in items {
        push_printed(out, item)?;
    }
    Ok(())
}
