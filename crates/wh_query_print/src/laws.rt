ghost use Rattle.def_grammar.specs.Canonical.{query_text};
ghost use Rattle.def_grammar.specs.Query.{select};
ghost use Rattle.def_grammar.specs.Written.{Each, IsSpelled, IsWritten, ReadsAs};
ghost use Rattle.std.specs.Prelude.{◌≡◌, List, Ok, Some, ℕ};
ghost use Rattle.wh_base.specs.declared.queries.RawQuery.{RawQuery};
ghost use Rattle.wh_base.specs.declared.tokens.Token.{Token};
ghost use Rattle.wh_lex.specs.Lex.{tokens_of};

/// Each query that the grammar gives for tokens with texts that tokens may have, and so for the tokens of a text, can be written.
pub fn what_reads_can_be_written()
    ensures spelled { (tokens rest : List Token) (query : RawQuery)
        → Each IsSpelled tokens → select tokens ≡ Some (query, rest) → IsWritten query }
    ensures text { (text : List ℕ) (tokens rest : List Token) (query : RawQuery)
        → tokens_of text ≡ Ok tokens → select tokens ≡ Some (query, rest) → IsWritten query }
{}

/// The canonical text of a query that can be written has tokens, and they are that query and nothing more.
#[tactic(auto, using(crate::proofs::Back::laws))]
pub fn what_is_written_reads_back()
    ensures { (query : RawQuery) → IsWritten query → ReadsAs (query_text query) query }
{}

/// Two queries that can be written with the same canonical text are one query.
pub fn a_text_is_of_one_query()
    ensures { (query other : RawQuery) → IsWritten query → IsWritten other
        → query_text query ≡ query_text other → query ≡ other }
{}
