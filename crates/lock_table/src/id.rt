//! The identifier of a lock, as text.

ghost use Rattle.std.specs.Prelude.{◌≡◌};
ghost use Rattle.lock_table.specs.Ids.{numbers_of, id_of};

use feature_values::read_number;

/// The identifier of a lock: the number of the opening of the service in which it was granted, and its own number
/// among the locks of this opening, both from 1 on.
#[derive(Clone, Copy, Debug, PartialEq, Eq)]
pub struct LockId {
    pub opening: u64,
    pub number: u64,
}

impl LockId {
    /// Reads the identifier of a lock: `lock-E-N`, where E and N are numbers from 1 on of at most 64 bits, in decimal
    /// digits without a leading zero. `None`: the text is none.
    #[tactic(auto, unfolding(crate::specs::Ids::id_of))]
    pub fn read(text: &str) -> Option<LockId>
        ensures { result ≡ id_of text.now }
    {
        let (word, numbers) = text.split_once('-')?;
        if word == "lock" {
            read_numbers(numbers)
        } else {
            None
        }
    }
}

#[tactic(auto, unfolding(crate::specs::Ids::numbers_of))]
fn read_numbers(text: &str) -> Option<LockId>
    ensures { result ≡ numbers_of text.now }
{
    let (opening, number) = text.split_once('-')?;
    let number = read_number(number)?;
    let opening = read_number(opening)?;
    Some(LockId { opening, number })
}
