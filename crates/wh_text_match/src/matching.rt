ghost use Rattle.def_rewriting.specs.Matching.{before_order, from_on, is_word, same_kind, same_token, same_tokens};
ghost use Rattle.def_rewriting.specs.Matching as defs;
ghost use Rattle.std.specs.Prelude.{◌≡◌, ◌≤◌, length, not, take_while};
ghost use Rattle.wh_text_match.specs.Match.{meant};

use wh_base::tokens::{Token, TokenKind};

/// How the text of a query matches the text of a view's definition.
#[derive(Clone, Copy, Debug, PartialEq, Eq)]
pub enum TextMatch {
    /// The tokens are equal up to ORDER BY.
    Full,
    /// They are equal from FROM on, up to ORDER BY.
    Partial,
    /// Neither.
    None,
}

/// How the tokens of a query match those of a view's definition: names and keywords whatever their letters' case, texts as they
/// are, and neither's ORDER BY. As in the Data Warehousing Guide, text match of query rewrite. Takes no memory.
pub fn match_text(query: &[Token], view: &[Token]) -> TextMatch
    ensures { meant result ≡ defs.match_text query.now view.now }
{
    let query = before_order(query);
    let view = before_order(view);
    if same_tokens(query, view) {
        TextMatch::Full
    } else if same_tokens(from_on(query), from_on(view)) {
        TextMatch::Partial
    } else {
        TextMatch::None
    }
}

// How many tokens stand before the first one that is this word.
fn count_before(tokens: &[Token], word: &[u8]) -> usize
    ensures count { result ≡ length (take_while (λ t. not (is_word word.now t)) tokens.now) }
    ensures within { result ≤ length tokens.now }
{
    tokens
        .iter()
        .take_while(|token| !is_word(token, word))
        .count()
}

// The tokens in front of ORDER BY.
#[tactic(auto, using(crate::proofs::Fronts::fronts))]
fn before_order(tokens: &[Token]) -> &[Token]
    ensures { result.now ≡ before_order tokens.now }
{
    &tokens[..count_before(tokens, b"ORDER")]
}

// The tokens from FROM on.
fn from_on(tokens: &[Token]) -> &[Token]
    ensures { result.now ≡ from_on tokens.now }
{
    tokens.split_at(count_before(tokens, b"FROM")).1
}

fn is_word(token: &Token, word: &[u8]) -> bool
    ensures { result ≡ is_word word.now token.now }
{
    same_kind(token.kind, TokenKind::Name) && token.text.as_slice() == word
}

fn same_kind(one: TokenKind, other: TokenKind) -> bool
    ensures { result ≡ same_kind one other }
{
    one == other
}

fn same_token(one: &Token, other: &Token) -> bool
    ensures { result ≡ same_token one.now other.now }
{
    same_kind(one.kind, other.kind) && one.text.as_slice() == other.text.as_slice()
}

#[tactic(auto, using(crate::proofs::Fronts::lists))]
fn same_tokens(some: &[Token], others: &[Token]) -> bool
    ensures { result ≡ same_tokens some.now others.now }
{
    if some.len() != others.len() {
        return false;
    }
    for at in 0..some.len() {
        if !same_token(&some[at], &others[at]) {
            return false;
        }
    }
    true
}
