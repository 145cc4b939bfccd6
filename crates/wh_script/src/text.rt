ghost use Rattle.def_built.specs.Form.{draft_is_built};
ghost use Rattle.def_grammar.specs.Script.{line_at};
ghost use Rattle.std.specs.List.{list_all};
ghost use Rattle.std.specs.Prelude.{◌≡◌, ◌<◌, ◌≤◌, ◌^◌, Err, IfOk, IfSome, length, nat_lt, take, take_while, true, unwrap_or};
ghost use Rattle.wh_lex.specs.Lex.{token_fits, tokens_at};
ghost use Rattle.wh_script.specs.Pieces.{IsTaken};
ghost use Rattle.wh_script.specs.Texts.{IsMark, IsNext, IsOpen, cut, draft_of, elements_up_to, first_place, statement_elements, unreadable};

use crate::draft::{Draft, bad};
use crate::fault::ScriptFault;
use crate::lines::{LineMark, mark_at};
use std::alloc::Global;
use wh_base::statements::ScriptKind;
use wh_base::tokens::Token;
use wh_lex::lex::{LexFault, StatementTokens, statement_tokens};

/// How far a text has been read: the draft of what stands before a place, and the mark of a place no later.
#[derive(Drop)]
pub struct TextAt {
    pub draft: Draft,
    pub mark: LineMark,
    pub at: usize,
}

impl TextAt {
    /// The same behind the next statement of a text that ends at `end`, or what is left of it where no semicolon follows,
    /// where the first `valid` bytes are UTF-8.
    ///
    /// `Bad` is the fault of the statement, at the line of its first token, or of its semicolon where it has none:
    /// `Misplaced`, `Syntax` or `NotBuilt`. Where no token begins at a place before its semicolon, or the byte behind the
    /// first `valid` stands before that place or before the statement's end, what begins before the first of these two places
    /// is a statement that isn't closed, and then `BadCharacter`, `OpenQuote` or `NotUtf8` is the fault, at the line of that
    /// place. `Memory` says that memory ran out.
    pub fn next(
        self,
        alloc: Global,
        bytes: &[u8],
        valid: usize,
        end: usize,
    ) -> Result<TextAt, ScriptFault>
        requires few { length bytes.now < 2 ^ 32 }
        requires within { end ≤ length bytes.now }
        requires before { self.at < end }
        requires mark { IsMark bytes.now self.at self.mark }
        requires built { draft_is_built self.draft ≡ true }
        ensures next { IsNext bytes.now valid end self result }
        ensures later { IfOk result (λ t. self.at < t.at) }
        ensures within { IfOk result (λ t. t.at ≤ end) }
        ensures mark { IfOk result (λ t. IsMark bytes.now t.at t.mark) }
        ensures built { IfOk result (λ t. draft_is_built t.draft ≡ true) }
    {
        match statement_tokens(alloc, &bytes[..end], self.at) {
            Ok(statement) => {
                if self.at <= valid && valid < statement.next {
                    let front = cut(statement, valid);
                    return Err(self.stop_at(alloc, bytes, &front, valid, ScriptKind::NotUtf8));
                }
                self.behind(alloc, bytes, &statement)
            }
            Err(LexFault::BadCharacter { place }) => Err(self.fault_at(
                alloc,
                bytes,
                valid,
                place as usize,
                ScriptKind::BadCharacter,
            )),
            Err(LexFault::OpenQuote { place }) => Err(self.fault_at(
                alloc,
                bytes,
                valid,
                place as usize,
                ScriptKind::OpenQuote,
            )),
            Err(LexFault::Memory) => Err(ScriptFault::Memory),
        }
    }

    // What is behind a statement.
    fn behind(
        self,
        alloc: Global,
        bytes: &[u8],
        statement: &StatementTokens,
    ) -> Result<TextAt, ScriptFault>
        requires few { length bytes.now < 2 ^ 32 }
        requires line { self.mark.line ≡ line_at bytes.now self.mark.place }
        requires later { IfSome (first_place statement.now) (λ p. self.mark.place ≤ p) }
        requires within { IfSome (first_place statement.now) (λ p. p ≤ length bytes.now) }
        requires numbers { list_all token_fits statement.now.tokens ≡ true }
        requires built { draft_is_built self.draft ≡ true }
        ensures taken { IsTaken bytes.now self.draft (statement_elements statement.now) (draft_of result) }
        ensures at { IfOk result (λ t. t.at ≡ statement.now.next) }
        ensures line { IfOk result (λ t. t.mark.line ≡ line_at bytes.now t.mark.place) }
        ensures place { IfOk result (λ t. t.mark.place ≡ unwrap_or (first_place statement.now) self.mark.place) }
        ensures built { IfOk result (λ t. draft_is_built t.draft ≡ true) }
    {
        let TextAt { draft, mark, at: _ } = self;
        let at = statement.next;
        let Some(place) = first_place(statement) else {
            return Ok(TextAt { draft, mark, at });
        };
        let mark = mark_at(bytes, mark, place as usize);
        match draft.read_statement(alloc, mark.line, statement) {
            Ok(draft) => Ok(TextAt { draft, mark, at }),
            Err(fault) => Err(fault),
        }
    }

    // The fault of a statement, or else of the byte that can't be read at a place behind its first.
    fn stop_at(
        self,
        alloc: Global,
        bytes: &[u8],
        statement: &StatementTokens,
        place: usize,
        kind: ScriptKind,
    ) -> ScriptFault
        requires few { length bytes.now < 2 ^ 32 }
        requires line { self.mark.line ≡ line_at bytes.now self.mark.place }
        requires later { IfSome (first_place statement.now) (λ p. self.mark.place ≤ p) }
        requires before { IfSome (first_place statement.now) (λ p. p ≤ place) }
        requires marked { self.mark.place ≤ place }
        requires within { place ≤ length bytes.now }
        requires numbers { list_all token_fits statement.now.tokens ≡ true }
        requires built { draft_is_built self.draft ≡ true }
        ensures { IsTaken bytes.now self.draft (unreadable statement.now kind place) (Err result) }
    {
        match self.behind(alloc, bytes, statement) {
            Ok(text) => bad(mark_at(bytes, text.mark, place).line, kind),
            Err(fault) => fault,
        }
    }

    // The fault of a statement that goes up to a byte that can't be read, or that byte's; or both of the byte that is no
    // UTF-8, where that stands no later.
    fn fault_at(
        self,
        alloc: Global,
        bytes: &[u8],
        valid: usize,
        place: usize,
        kind: ScriptKind,
    ) -> ScriptFault
        requires few { length bytes.now < 2 ^ 32 }
        requires within { place ≤ length bytes.now }
        requires later { self.at ≤ place }
        requires mark { IsMark bytes.now self.at self.mark }
        requires open { IsOpen (tokens_at (take place bytes.now) self.at) }
        requires built { draft_is_built self.draft ≡ true }
        ensures { IsTaken bytes.now self.draft (elements_up_to bytes.now valid kind place self.at) (Err result) }
    {
        let Ok(statement) = statement_tokens(alloc, &bytes[..place], self.at) else {
            return ScriptFault::Memory;
        };
        if self.at <= valid && valid <= place {
            let front = cut(statement, valid);
            return self.stop_at(alloc, bytes, &front, valid, ScriptKind::NotUtf8);
        }
        self.stop_at(alloc, bytes, &statement, place, kind)
    }
}

fn first_place(statement: &StatementTokens) -> Option<u32>
    ensures { result ≡ first_place statement.now }
{
    match statement.tokens.as_slice() {
        [first, ..] => Some(first.start),
        [] => match &statement.closed {
            Some(semicolon) => Some(semicolon.start),
            None => None,
        },
    }
}

// How many tokens begin before a place.
fn count_before(tokens: &[Token], place: usize) -> usize
    ensures { result ≡ length (take_while (λ t. nat_lt t.start place) tokens.now) }
{
    tokens
        .iter()
        .take_while(|token| (token.start as usize) < place)
        .count()
}

// What of a statement begins before a place, where its semicolon doesn't.
#[tactic(auto, using(crate::proofs::Texts::cut_tokens))]
fn cut(statement: StatementTokens, place: usize) -> StatementTokens
    ensures { result ≡ cut statement place }
{
    let StatementTokens {
        mut tokens,
        closed: _,
        next,
    } = statement;
    let count = count_before(tokens.as_slice(), place);
    tokens.truncate(count);
    StatementTokens {
        tokens,
        closed: None,
        next,
    }
}
