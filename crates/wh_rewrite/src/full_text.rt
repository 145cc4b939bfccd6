ghost use Rattle.std.specs.Prelude.{◌≡◌};
ghost use Rattle.wh_rewrite.specs.Served.{is_full_text};

use wh_base::tokens::Token;
use wh_text_match::{TextMatch, match_text};

/// Whether the tokens of a query are those of a view's query up to ORDER BY.
pub fn is_full_text(query: &[Token], view: &[Token]) -> bool
    ensures { result ≡ is_full_text query.now view.now }
{
    match match_text(query, view) {
        TextMatch::Full => true,
        TextMatch::Partial => false,
        TextMatch::None => false,
    }
}
