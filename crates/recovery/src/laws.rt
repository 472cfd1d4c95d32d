//! What the outcome comes to.

ghost use Rattle.std.specs.Prelude.{◌≡◌, ◌+◌, ℕ, Bool, List, Option};
ghost use Rattle.feature_journal.specs.Recover.{recover};
ghost use Rattle.feature_journal.specs.Recover.{Recovered as journal};
ghost use Rattle.recovery.specs.Outcome.{Judge, outcome_of};
ghost use Rattle.recovery.specs.Outcome.Outcome.{found, no_side};

/// Where nothing is refused, the outcome is what two byte strings stand for.
pub fn recovers_as_defined()
    ensures found { (judge : Judge) (limit : ℕ) (a b : List ℕ) (second : Bool) (generation gate : ℕ)
        (bodies : List (List ℕ)) → outcome_of judge limit a b ≡ found second generation gate bodies
        → (tail : Option (List ℕ)) ×
        (recover a b ≡ journal.found second generation bodies (gate + 1) tail) }
    ensures none { (judge : Judge) (limit : ℕ) (a b : List ℕ) → outcome_of judge limit a b ≡ no_side
        → recover a b ≡ journal.no_side }
{}
