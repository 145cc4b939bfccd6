ghost use Rattle.def_grammar.specs.Canonical.{is_joined, laid, laid_behind, quoted_text, written_token};
ghost use Rattle.def_grammar.specs.Reading.{doubled, is_token, same_token_kind};
ghost use Rattle.std.specs.Prelude.{◌≡◌, ◌++◌, OnOk, flat_map, map};
ghost use Rattle.wh_query_print.specs.Pieces.{piece_token};

use crate::pieces::Piece;
use itoa::Buffer;
use std::alloc::AllocError;
use wh_base::tokens::TokenKind;

// The piece is this mark.
fn is_mark(piece: &Piece<'_>, text: &[u8]) -> bool
    ensures { result ≡ is_token TokenKind.Mark text.now (piece_token piece.now) }
{
    match piece {
        Piece::Spelled(TokenKind::Mark, mark) => *mark == text,
        _ => false,
    }
}

// The piece is this name.
fn is_word(piece: &Piece<'_>, text: &[u8]) -> bool
    ensures { result ≡ is_token TokenKind.Name text.now (piece_token piece.now) }
{
    match piece {
        Piece::Spelled(TokenKind::Name, word) => *word == text,
        _ => false,
    }
}

fn is_name(piece: &Piece<'_>) -> bool
    ensures { result ≡ same_token_kind (piece_token piece.now).kind TokenKind.Name }
{
    match piece {
        Piece::Spelled(TokenKind::Name, _) => true,
        _ => false,
    }
}

fn is_number(piece: &Piece<'_>) -> bool
    ensures { result ≡ same_token_kind (piece_token piece.now).kind TokenKind.Number }
{
    match piece {
        Piece::Spelled(TokenKind::Number, _) => true,
        Piece::Number(_) => true,
        _ => false,
    }
}

// No space stands between these two.
fn is_joined(left: &Piece<'_>, right: &Piece<'_>) -> bool
    ensures { result ≡ is_joined (piece_token left.now) (piece_token right.now) }
{
    is_mark(left, b"(")
        || is_mark(left, b".")
        || is_mark(right, b",")
        || is_mark(right, b".")
        || is_mark(right, b")")
        || is_mark(right, b"(") && is_name(left) && !is_word(left, b"IN")
        || is_mark(left, b"-") && is_number(right)
}

// The byte, or a quote twice.
fn push_byte(out: &mut Vec<u8>, byte: u8) -> Result<(), AllocError>
    ensures { OnOk result (out.new.items ≡ out.old.items ++ doubled byte) }
{
    if byte == b'\'' {
        out.extend_from_slice(b"''")?;
        return Ok(());
    }
    out.push(byte)?;
    Ok(())
}

// The text with each quote doubled, as it stands between the quotes of a literal.
fn push_doubled(out: &mut Vec<u8>, text: &[u8]) -> Result<(), AllocError>
    ensures { OnOk result (out.new.items ≡ out.old.items ++ flat_map doubled text.now) }
{
    for byte in text {
        push_byte(out, *byte)?;
    }
    Ok(())
}

fn push_quoted(out: &mut Vec<u8>, text: &[u8]) -> Result<(), AllocError>
    ensures { OnOk result (out.new.items ≡ out.old.items ++ quoted_text text.now) }
{
    out.push(b'\'')?;
    push_doubled(out, text)?;
    out.push(b'\'')?;
    Ok(())
}

fn push_piece(out: &mut Vec<u8>, piece: &Piece<'_>) -> Result<(), AllocError>
    ensures { OnOk result (out.new.items ≡ out.old.items ++ written_token (piece_token piece.now)) }
{
    match piece {
        Piece::Spelled(TokenKind::Text, text) => push_quoted(out, text),
        Piece::Spelled(_, text) => out.extend_from_slice(text),
        Piece::Number(number) => {
            let mut buffer = Buffer::new();
            out.extend_from_slice(buffer.format(*number).as_bytes())
        }
        Piece::Day(text) => push_quoted(out, text.as_slice()),
    }
}

// The pieces behind a first one.
fn push_behind(out: &mut Vec<u8>, first: &Piece<'_>, rest: &[Piece<'_>]) -> Result<(), AllocError>
    ensures { OnOk result (out.new.items
        ≡ out.old.items ++ laid_behind (piece_token first.now) (map piece_token rest.now)) }
{
    let mut last = *first;
    for piece in rest {
        if !is_joined(&last, piece) {
            out.push(b' ')?;
        }
        push_piece(out, piece)?;
        last = *piece;
    }
    Ok(())
}

/// The tokens as a text, with a space where SQL is usually written with one, at the end of `out`. An error says that
/// memory ran out.
pub fn push_laid(out: &mut Vec<u8>, pieces: &[Piece<'_>]) -> Result<(), AllocError>
    ensures { OnOk result (out.new.items ≡ out.old.items ++ laid (map piece_token pieces.now)) }
{
    let Some((first, rest)) = pieces.split_first() else {
        return Ok(());
    };
    push_piece(out, first)?;
    push_behind(out, first, rest)?;
    Ok(())
}
