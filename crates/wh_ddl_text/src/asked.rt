ghost use Rattle.def_grammar.specs.Forms.{asked};

use wh_base::statements::Asked;
use wh_query_text::parser::{ParseFault, Parser};
use wh_query_text::query::clauses::Select;
use wh_query_text::rule::Rule;

/// A query with its tokens.
pub struct AskedQuery;

impl Rule for AskedQuery {
    type Output = Asked;

    ghost reads = { asked };

    fn read(parser: &mut Parser<'_>) -> Result<Asked, ParseFault> {
        let place = parser.place();
        let query = Select::read(parser)?;
        match parser.tokens_since(&place) {
            Ok(tokens) => Ok(Asked { query, tokens }),
            Err(fault) => {
                drop(query);
                Err(fault)
            }
        }
    }
}
