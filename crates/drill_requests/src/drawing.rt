//! How the rounds of a drill are drawn.

ghost use Rattle.std.specs.Prelude.{◌≡◌, ◌<◌, ◌≤◌, ◌%◌};
ghost use Rattle.drill_requests.specs.Rounds.{drawn, moved};

use crate::round::Round;

/// The seed behind a draw.
pub fn moved(seed: u32) -> u32
    ensures value { result ≡ moved seed }
    ensures within { result < 65_537 }
{
    ((75 * u64::from(seed) + 74) % 65_537) as u32
}

// The number that is drawn at a seed.
fn drawn(seed: u32) -> u32
    ensures value { result ≡ drawn seed }
    ensures within { result ≤ 983_040 }
{
    15 * moved(seed)
}

/// The round of this number, where the seed is this, and there are so many types.
pub fn round_at(number: u32, seed: u32, types: u32) -> Round
    requires { 0 < types }
    ensures number { result.number ≡ number }
    ensures kind { result.kind ≡ number % types }
    ensures x { result.x ≡ drawn seed }
    ensures y { result.y ≡ drawn (moved seed) }
{
    Round {
        number,
        kind: number % types,
        x: drawn(seed),
        y: drawn(moved(seed)),
    }
}
