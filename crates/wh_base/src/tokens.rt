use crate::copied::Copied;
use crate::txt::Txt;
use std::alloc::{AllocError, Global};

/// The kinds of tokens: a name or a keyword, a number without a sign, a text in quotes, and a mark.
#[derive(Clone, Copy, Debug, PartialEq, Eq)]
pub enum TokenKind {
    Name,
    Number,
    Text,
    Mark,
}

/// A token, with the text that it stands for, and the part of the source that it is.
#[derive(Debug, Drop)]
pub struct Token {
    pub kind: TokenKind,
    pub text: Txt,
    pub start: u32,
    pub end: u32,
}

impl Copied for Token {
    fn copied(&self, alloc: Global) -> Result<Token, AllocError> {
        Ok(Token {
            kind: self.kind,
            text: self.text.copy(alloc)?,
            start: self.start,
            end: self.end,
        })
    }
}
