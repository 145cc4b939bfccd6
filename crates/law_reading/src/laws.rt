ghost use Rattle.def_built.specs.Form.{built_script};
ghost use Rattle.def_grammar.specs.Forms.{asked, statement_of};
ghost use Rattle.def_grammar.specs.Script.{Draft, script_where};
ghost use Rattle.std.specs.List.{All, AllPairs};
ghost use Rattle.std.specs.Prelude.{◌<◌, ◌≡◌, ◌≤◌, [], Bool, List, Ok, Some, ℕ};
ghost use Rattle.wh_base.specs.declared.statements.Asked.{Asked};
ghost use Rattle.wh_base.specs.declared.statements.Command.TheVariants.{Other};
ghost use Rattle.wh_base.specs.declared.statements.Script.{Script};
ghost use Rattle.wh_base.specs.declared.statements.Statement.{Statement};
ghost use Rattle.wh_base.specs.declared.tokens.Token.{Token};
ghost use Rattle.law_views.specs.Read.{IsRead, ReadsAs};

/// Where tokens are a SELECT and nothing more, the tokens that are kept with it read as its query.
pub fn what_is_kept_reads_as_its_query()
    ensures { (tokens : List Token) (kept : Asked) → asked tokens ≡ Some (kept, []) → ReadsAs kept }
{}

/// Each statement that the grammar gives for all of the tokens asks what they read as, where it asks a query: as a SELECT, an
/// EXPLAIN REWRITE or a CREATE MATERIALIZED VIEW.
pub fn a_statement_asks_what_its_text_reads_as()
    ensures { (tokens : List Token) (statement : Statement) → statement_of tokens ≡ Some statement → IsRead (Other statement) }
{}

/// Each command of a script that is read from bytes asks what its text reads as: whichever drafts of scripts are built, and so
/// by those that the program runs. With a tail any bytes may follow the script.
pub fn a_script_asks_what_its_texts_read_as()
    ensures tested { (is_built : Draft → Bool) (bytes : List ℕ) (tail : Bool) (script : Script) (place : ℕ)
        → script_where is_built bytes tail ≡ Ok (script, place) → All (λ section. All IsRead section.commands) script.sections }
    ensures built { (bytes : List ℕ) (tail : Bool) (script : Script) (place : ℕ)
        → built_script bytes tail ≡ Ok (script, place) → All (λ section. All IsRead section.commands) script.sections }
{}

/// The numbers of a script's sections ascend, from 0 for the setup up to 64: whichever drafts of scripts are built, and so by
/// those that the program runs. With a tail any bytes may follow the script.
pub fn sections_ascend()
    ensures ascend { (is_built : Draft → Bool) (bytes : List ℕ) (tail : Bool) (script : Script) (place : ℕ)
        → script_where is_built bytes tail ≡ Ok (script, place) → AllPairs (λ s t. s.session < t.session) script.sections }
    ensures within { (is_built : Draft → Bool) (bytes : List ℕ) (tail : Bool) (script : Script) (place : ℕ)
        → script_where is_built bytes tail ≡ Ok (script, place) → All (λ s. s.session ≤ 64) script.sections }
    ensures built_ascend { (bytes : List ℕ) (tail : Bool) (script : Script) (place : ℕ)
        → built_script bytes tail ≡ Ok (script, place) → AllPairs (λ s t. s.session < t.session) script.sections }
    ensures built_within { (bytes : List ℕ) (tail : Bool) (script : Script) (place : ℕ)
        → built_script bytes tail ≡ Ok (script, place) → All (λ s. s.session ≤ 64) script.sections }
{}
