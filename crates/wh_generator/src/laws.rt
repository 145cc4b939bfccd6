ghost use Rattle.def_built.specs.Form.{script_is_built};
ghost use Rattle.def_journal.specs.Journal.{session_numbers};
ghost use Rattle.def_output.specs.Generator.{generated};
ghost use Rattle.std.specs.List.{All};
ghost use Rattle.std.specs.Prelude.{◌≡◌, ◌∷◌, [], length, sum_by, true, ℕ};
ghost use Rattle.law_views.specs.Read.{IsRead};

use law_reading::laws::a_statement_asks_what_its_text_reads_as;

/// The generated script can be run, whatever the number of sales: each of its forms is built, each of its commands asks what its
/// text reads as, its sections are the setup and the sessions 1 to 3, and it has 45 commands.
pub fn generated_script_runs()
    ensures built { (n : ℕ) → script_is_built (generated n) ≡ true }
    ensures reads { (n : ℕ) → All (λ s. All IsRead s.commands) (generated n).sections }
    ensures sessions { (n : ℕ) → session_numbers (generated n) ≡ 0 ∷ 1 ∷ 2 ∷ 3 ∷ [] }
    ensures commands { (n : ℕ) → sum_by (λ s. length s.commands) (generated n).sections ≡ 45 }
{
    a_statement_asks_what_its_text_reads_as();
}
