// What holds of searches for quiet goals.
ghost use Rattle.std.specs.Prelude.{◌≡◌, ℕ, List, [], ◌∷◌, Bool, true, Some, None};
ghost use Rattle.dg_base.specs.declared.program.CoreProgram.{CoreProgram};
ghost use Rattle.dg_base.specs.declared.program.Goal.{Goal};
ghost use Rattle.dg_meaning.specs.Facts.{Clears, altered, start_facts, value_at};
ghost use Rattle.dg_meaning.specs.World.{Game, World};
ghost use Rattle.dg_meaning.specs.Search.{search};
ghost use Rattle.dg_meaning.specs.Transcript.{start_world, asking_path};
ghost use Rattle.dg_meaning.specs.Quiet.{IsQuietBy};
ghost use Rattle.dg_meaning.specs.Initial.{Question, asked, put, asking_game, run_on};
ghost use Rattle.dg_quiet.specs.inside.Unchanged.{has_quiet_rules, ask_quietly, SameFacts, SameFactsBut, last_place, EndsWithVariable};

/// A search for quiet goals changes nothing of the world, whatever its budget and the world in which it begins: more is counted, and calls are told.
pub fn quiet_searches_change_nothing()
    ensures searches { (g : Game) → (changing : ℕ → Bool) → (set : List Bool) → IsQuietBy g.program.preds changing set → (goals : List Goal) →
        ask_quietly g.program set goals ≡ true → (own n : ℕ) → (w : World) → SameFacts w (search g n (asking_path goals own) w).world }
    ensures questions { (program : CoreProgram) → (changing : ℕ → Bool) → (set : List Bool) → IsQuietBy program.preds changing set → (q : Question) →
        has_quiet_rules program set q.pred ≡ true → (n : ℕ) →
        SameFacts (start_world (asking_game program) []) (run_on program q (asked q ∷ []) n).world }
{}

/// Where the change stands behind the query of a question, at most one fact is changed, of the last place and the object that is asked of: clearing it
/// gives back the facts of the start, where nothing starts set there.
pub fn second_runs_change_one_fact()
    ensures run { (program : CoreProgram) → (changing : ℕ → Bool) → (set : List Bool) → IsQuietBy program.preds changing set → (q : Question) →
        has_quiet_rules program set q.pred ≡ true → EndsWithVariable program → (n : ℕ) →
        SameFactsBut (last_place program) q.object (start_world (asking_game program) []) (run_on program q (asked q ∷ put program q ∷ []) n).world }
    ensures back { (program : CoreProgram) → (changing : ℕ → Bool) → (set : List Bool) → IsQuietBy program.preds changing set → (q : Question) →
        has_quiet_rules program set q.pred ≡ true → EndsWithVariable program → (o : ℕ) → q.object ≡ Some o →
        value_at (start_facts program.places) (last_place program) o ≡ None → (n : ℕ) →
        altered (Clears (last_place program) o) (run_on program q (asked q ∷ put program q ∷ []) n).world.facts ≡ start_facts program.places }
{}
