//! The date and time of day of a moment in UTC, and their text.

ghost use Rattle.std.specs.Prelude.{◌≡◌, ◌≤◌, ◌*◌, pos};
ghost use Rattle.jiff.specs.Words.{civil_nanos};
ghost use Rattle.civil_time.specs.Civil.{civil_of, civil_text, moment_text, two};

use jiff::Timestamp;
use jiff::civil::DateTime;
use jiff::tz::TimeZone;

// The last moment that is written.
const LAST_WRITTEN: u64 = 200_000_000_000;

// The parts of a date and a time of day.
#[derive(Debug, Clone, Copy, Drop)]
struct Civil {
    year: u16,
    month: u8,
    day: u8,
    hour: u8,
    minute: u8,
    second: u8,
}

// What a clock of UTC shows.
fn civil_at(moment: u64) -> DateTime
    requires { moment ≤ 200_000_000_000 }
    ensures { civil_nanos result ≡ pos (moment * 1_000_000_000) }
{
    match Timestamp::from_second(moment as i64) {
        Ok(instant) => TimeZone::UTC.to_datetime(instant),
        Err(_) => unreachable!(),
    }
}

// The parts of a moment.
fn parts_at(moment: u64) -> Civil
    requires { moment ≤ 200_000_000_000 }
    ensures { result ≡ civil_of moment }
{
    let at = civil_at(moment);
    Civil {
        year: at.year().unsigned_abs(),
        month: at.month().unsigned_abs(),
        day: at.day().unsigned_abs(),
        hour: at.hour().unsigned_abs(),
        minute: at.minute().unsigned_abs(),
        second: at.second().unsigned_abs(),
    }
}

// A number below 100 in two digits.
fn two(n: u8) -> [u8; 2]
    ensures { result ≡ two n }
{
    [b'0' + n / 10 % 10, b'0' + n % 10]
}

// The text of a date and time.
#[tactic(auto, unfolding(crate::specs::Civil::civil_text))]
fn text_of(at: Civil) -> [u8; 20]
    ensures { result ≡ civil_text at }
{
    let [a, b] = two((at.year / 100 % 100) as u8);
    let [c, d] = two((at.year % 100) as u8);
    let [e, f] = two(at.month);
    let [g, h] = two(at.day);
    let [i, j] = two(at.hour);
    let [k, l] = two(at.minute);
    let [m, n] = two(at.second);
    [
        a, b, c, d, b'-', e, f, b'-', g, h, b'T', i, j, b':', k, l, b':', m, n, b'Z',
    ]
}

/// The text of a moment, in seconds since 1970: `YYYY-MM-DDThh:mm:ssZ` (RFC 3339, section 5.6), in UTC. A moment above
/// 200,000,000,000 (8307-10-01T19:33:20Z) is written as that one. It takes no memory.
#[tactic(auto, unfolding(crate::specs::Civil::moment_text))]
pub fn moment_text(moment: u64) -> [u8; 20]
    ensures { result ≡ moment_text moment }
{
    text_of(parts_at(moment.min(LAST_WRITTEN)))
}
