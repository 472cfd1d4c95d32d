//! Numbers among the words.
ghost use Rattle.std.specs.Prelude.{◌≡◌};
ghost use Rattle.wfs_words.specs.Words.{number_in, within};

/// The number that a text writes, if it is from `low` to `high`: decimal digits, behind a plus or not.
pub(crate) fn number_in(low: u32, high: u32, text: &str) -> Option<u32>
    ensures { result ≡ number_in low high text.now }
{
    match text.parse::<u32>() {
        Ok(number) => within(low, high, number),
        Err(_) => None,
    }
}

fn within(low: u32, high: u32, number: u32) -> Option<u32>
    ensures { result ≡ within low high number }
{
    if low <= number && number <= high {
        Some(number)
    } else {
        None
    }
}
