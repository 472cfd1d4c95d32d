//! Laws of what bodies come to. Each is the contract of a function that does nothing.

ghost use Rattle.std.specs.Prelude.{◌≡◌, ℕ, List, ◌∷◌, [], ◌++◌, length, map, All, Ok};
ghost use Rattle.feature_values.specs.declared.schema.Schema.{Schema};
ghost use Rattle.wfs_model.specs.declared.change.Change.{Change};
ghost use Rattle.wfs_model.specs.State.{Durable, nothing};
ghost use Rattle.wfs_model.specs.Kept.{IsKept};
ghost use Rattle.wfs_model.specs.Played.{played_one, played};
ghost use Rattle.journal_replay.specs.Checkpoint.{checkpoint_of, ArePlayable};
ghost use Rattle.journal_replay.specs.Replayed.{replayed};
ghost use Rattle.journal_replay.specs.Written.{body_in, IsReadIn, MayCome, IsTaken, PlaysOne, HasNumbers, IsRestorable};

/// One more body that is taken plays one more change.
pub fn each_body_plays_one_change()
    ensures { (schema : Schema) (taken : List (List ℕ)) (body : List ℕ) (kept now : Durable)
        → replayed schema taken ≡ Ok kept → replayed schema (taken ++ body ∷ []) ≡ Ok now
        → PlaysOne schema body kept now }
{}

/// What bodies come to is kept well: features stand in order, each such as the schema allows and under a number that was given, and
/// stored queries are such as it allows, under identifiers of their own. No number is greater than may be given, and the texts of stored
/// queries tell what they ask: so it can be had again from other bodies.
pub fn what_bodies_come_to_is_kept_well()
    ensures { (schema : Schema) (bodies : List (List ℕ)) (kept : Durable)
        → replayed schema bodies ≡ Ok kept → IsRestorable schema kept }
{}

/// A change is had again from its body: behind bodies where it may come, its body is taken, and they come to what it leaves.
pub fn changes_are_had_again()
    ensures { (schema : Schema) (taken : List (List ℕ)) (kept : Durable) (change : Change)
        → replayed schema taken ≡ Ok kept → MayCome schema taken kept change
        → IsTaken schema taken (body_in schema change) (played_one kept change) }
{}

/// A checkpoint plays to what it was made of, and each of its changes may be played in turn.
pub fn a_checkpoint_plays_to_what_it_was_made_of()
    ensures played { (schema : Schema) (kept : Durable) → IsKept schema kept
        → played (nothing (length schema.types)) (checkpoint_of kept) ≡ kept }
    ensures playable { (schema : Schema) (kept : Durable) → IsKept schema kept → HasNumbers kept
        → ArePlayable schema (nothing (length schema.types)) (checkpoint_of kept) }
{}

/// The bodies of a checkpoint come to what it was made of.
pub fn checkpoints_are_had_again()
    ensures { (schema : Schema) (kept : Durable)
        → IsRestorable schema kept → All (IsReadIn schema) (checkpoint_of kept)
        → replayed schema (map (body_in schema) (checkpoint_of kept)) ≡ Ok kept }
{}
