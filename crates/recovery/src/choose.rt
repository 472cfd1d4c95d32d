//! Which side is current, by what the first bytes of both tell.

ghost use Rattle.std.specs.Prelude.{◌≡◌, ◌<◌, ℕ, Bool, List};
ghost use Rattle.feature_journal.specs.Refused.{Able};
ghost use Rattle.recovery.specs.Head.{Tells};
ghost use Rattle.recovery.specs.Choice.{FirstIs, SecondIs, IsForeign, IsResting};

use crate::Place;
use crate::head::{Head, Kind};

// A side is no journal's; or none is current; or one is, of this generation. A side that is not current is stale where its
// byte 0 reads neither 0 nor 1.
#[derive(Clone, Copy)]
pub(crate) enum Choice {
    Foreign(Place),
    Nothing(bool, bool),
    Current(bool, u64, bool),
}

fn beside_open(generation: u64, b: Head) -> Choice
    ensures first { (x : List ℕ) → Able generation x → FirstIs result x }
    ensures second { (y : List ℕ) → Tells b y → SecondIs result y }
    ensures foreign { (x y : List ℕ) → Able generation x → Tells b y → IsForeign result x y }
{
    match b.kind {
        Kind::Foreign(at) => Choice::Foreign(Place {
            second_side: true,
            at,
        }),
        Kind::Open => {
            if generation < b.generation {
                Choice::Current(true, b.generation, false)
            } else {
                Choice::Current(false, generation, false)
            }
        }
        Kind::Stale => Choice::Current(false, generation, true),
        Kind::Short => Choice::Current(false, generation, false),
        Kind::Shut => Choice::Current(false, generation, false),
    }
}

fn beside_other(is_stale: bool, b: Head) -> Choice
    ensures first { (x : List ℕ) → IsResting is_stale x → FirstIs result x }
    ensures second { (y : List ℕ) → Tells b y → SecondIs result y }
    ensures foreign { (x y : List ℕ) → IsResting is_stale x → Tells b y → IsForeign result x y }
{
    match b.kind {
        Kind::Foreign(at) => Choice::Foreign(Place {
            second_side: true,
            at,
        }),
        Kind::Open => Choice::Current(true, b.generation, is_stale),
        Kind::Stale => Choice::Nothing(is_stale, true),
        Kind::Short => Choice::Nothing(is_stale, false),
        Kind::Shut => Choice::Nothing(is_stale, false),
    }
}

pub(crate) fn choose(a: Head, b: Head) -> Choice
    ensures first { (x : List ℕ) → Tells a x → FirstIs result x }
    ensures second { (y : List ℕ) → Tells b y → SecondIs result y }
    ensures foreign { (x y : List ℕ) → Tells a x → Tells b y → IsForeign result x y }
{
    match a.kind {
        Kind::Foreign(at) => Choice::Foreign(Place {
            second_side: false,
            at,
        }),
        Kind::Open => beside_open(a.generation, b),
        Kind::Stale => beside_other(true, b),
        Kind::Short => beside_other(false, b),
        Kind::Shut => beside_other(false, b),
    }
}
