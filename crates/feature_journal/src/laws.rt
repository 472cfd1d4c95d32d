//! What the definitions come to.

ghost use Rattle.std.specs.Prelude.{◌≡◌, ◌≤◌, ◌<◌, ◌+◌, ◌++◌, ◌∷◌, [], ℕ, Bool, List, length, true, false, cond, Some, None};
ghost use Rattle.std.specs.List.{AllByRecursion, flat_map};
ghost use Rattle.disk_core.specs.Sides.{EveryBoth};
ghost use Rattle.feature_journal.specs.Side.{opened, side};
ghost use Rattle.feature_journal.specs.Whole.{Says, Fits, IsList};
ghost use Rattle.feature_journal.specs.Held.{StandsFor, StandsForEither};
ghost use Rattle.feature_journal.specs.Nothing.{Unmade, IsWhole};
ghost use Rattle.feature_journal.specs.Kept.{seen, Rests, Began, BeganSide, disks_of};
ghost use Rattle.feature_journal.specs.Recover.{records_at, recover, tail_in, current_of};
ghost use Rattle.feature_journal.specs.Refused.{Foreign, Own, Able, Unable, Torn};
ghost use Rattle.feature_journal.specs.Recover.Recovered.{no_side, found, not_a_journal};

use crate::Journal;
use disk_core::Disk;

/// From two byte strings that say a list, recovery finds just this list, on the side that says it, with its generation,
/// its length and its tail.
pub fn recovers_what_is_said()
    ensures { (lists : List (List (List ℕ))) (a b : List ℕ) (s : Says lists a b)
        → recover a b ≡ found s.second s.generation s.bodies
        (length (side s.generation s.bodies) + 1) (tail_in s.ends) }
{}

/// From two sides that were never made current, recovery finds none.
pub fn recovers_nothing()
    ensures { (a b : List ℕ) → Unmade a → Unmade b → recover a b ≡ no_side }
{}

/// A whole image is never refused as no journal.
pub fn recovers_whole_images()
    ensures { (a b : List ℕ) → IsWhole a b → (second : Bool) (place : ℕ)
        → recover a b ≡ not_a_journal second place → ⊥ }
{}

/// A side that is no journal's is refused at the first byte of the mark and the version that differs, side a before
/// side b.
pub fn refuses_foreign_sides()
    ensures first { (a b : List ℕ) (place : ℕ) → Foreign place a
        → recover a b ≡ not_a_journal false place }
    ensures second { (a b : List ℕ) (place : ℕ) → Own a → Foreign place b
        → recover a b ≡ not_a_journal true place }
{}

/// Of two sides that can be current it is the one of the greater generation, and side a at a tie.
pub fn current_is_of_the_greater_generation()
    ensures greater { (a b : List ℕ) (m n : ℕ) → Able m a → Able n b → m < n
        → current_of a b ≡ Some true }
    ensures not_greater { (a b : List ℕ) (m n : ℕ) → Able m a → Able n b → n ≤ m
        → current_of a b ≡ Some false }
    ensures first_alone { (a b : List ℕ) (m : ℕ) → Able m a → Unable b
        → current_of a b ≡ Some false }
    ensures second_alone { (a b : List ℕ) (n : ℕ) → Unable a → Able n b
        → current_of a b ≡ Some true }
    ensures neither { (a b : List ℕ) → Unable a → Unable b → current_of a b ≡ None }
{}

/// An open gate of the current side that has no whole record with a gate after it is refused at its place.
pub fn refuses_torn_records()
    ensures { (a b : List ℕ) (second : Bool) (generation : ℕ) (bodies : List (List ℕ))
        (rest : List ℕ) → Own a → Own b → current_of a b ≡ Some second → IsList generation bodies
        → cond second b a ≡ side generation bodies ++ 1 ∷ rest → Torn rest
        → recover a b ≡ not_a_journal second (length (side generation bodies)) }
{}

/// Records that are spelled behind open gates are read back, up to the first gate that is not open.
pub fn reads_records_back()
    ensures { (bodies : List (List ℕ)) (gate : ℕ) (rest : List ℕ) (n : ℕ)
        → AllByRecursion Fits bodies → (gate ≡ 1 → ⊥) → length bodies < n
        → records_at n (flat_map opened bodies ++ gate ∷ rest) ≡ (bodies, gate ∷ rest) }
{}

/// Where a journal rests, each image is whole and says its list. Where a record is begun, it says the list, or the list
/// with it, and where a side is begun, the list or the records of that side.
pub fn stands<D: Disk>(journal: &Journal<D>)
    ensures rests { (bodies : List (List ℕ)) → Rests D.images bodies (seen journal.now)
        → StandsFor D.images bodies (disks_of journal.now) }
    ensures begun { (bodies : List (List ℕ)) (body : List ℕ)
        → Began D.images bodies body (seen journal.now)
        → StandsForEither D.images bodies body (disks_of journal.now) }
    ensures side { (bodies added : List (List ℕ))
        → BeganSide D.images bodies added (seen journal.now)
        → EveryBoth D.images (Says (bodies ∷ added ∷ [])) (disks_of journal.now) }
{}
