//! One lock as the table keeps it.

ghost use Rattle.std.specs.Prelude.{◌≡◌, ◌+◌, cond};
ghost use Rattle.std.specs.List.{filter};
ghost use Rattle.lock_table.specs.Held.{is_live};
ghost use Rattle.lock_table.specs.Kept.{is_number, number_at, ended, left_by};
ghost use Rattle.lock_table.specs.Queue.{awaits_end};
ghost use Rattle.lock_table.specs.Steps.{renewed_lock};

use crate::holders::Holders;
use feature_values::Rid;
use std::marker::Model;

// A lock of the table.
#[derive(Drop)]
pub struct KeptLock {
    number: u64,
    features: Vec<Rid>,
    period: u32,
    // of 128 bits, since a moment and a period may be more than 64 bits hold
    deadline: u128,
}

impl Model for KeptLock {
    ghost use Rattle.lock_table.specs.Lock.{Lock};

    ghost Value = { Lock };

    ghost view = { λ l. record {
      number = l.number;
      features = l.features.items;
      period = l.period;
      deadline = l.deadline;
    } };
}

// Keeps the features that a lock holds.
fn keep_held(features: &mut Vec<Rid>, number: u64, holders: &Holders)
    ensures { features.new.items ≡ filter (λ f. is_number number (number_at holders.now.numbers f))
        features.old.items }
{
    features.retain(|feature| holders.is_held_by(feature, number));
}

fn end_of(moment: u64, period: u32) -> u128
    ensures { result ≡ moment + period }
{
    u128::from(moment) + u128::from(period)
}

impl KeptLock {
    pub fn new(number: u64, features: Vec<Rid>, period: u32, moment: u64) -> KeptLock
        ensures { result ≡ record {
          number = number;
          features = features.items;
          period = period;
          deadline = moment + period;
        } }
    {
        KeptLock {
            number,
            features,
            period,
            deadline: end_of(moment, period),
        }
    }

    pub fn number(&self) -> u64
        ensures { result ≡ self.now.number }
    {
        self.number
    }

    pub fn deadline(&self) -> u128
        ensures { result ≡ self.now.deadline }
    {
        self.deadline
    }

    pub fn features(&self) -> &[Rid]
        ensures { result.now ≡ self.now.features }
    {
        self.features.as_slice()
    }

    pub fn is_live(&self, moment: u64) -> bool
        ensures { result ≡ is_live moment self.now }
    {
        u128::from(moment) < self.deadline
    }

    // Whether the lock has still to be ended: it may be live yet, or lists features.
    pub fn awaits_end(&self) -> bool
        ensures { result ≡ awaits_end self.now }
    {
        self.is_live(0) || !self.features.is_empty()
    }

    // 1 where the lock is live.
    pub fn live_count(&self, moment: u64) -> u64
        ensures { result ≡ cond (is_live moment self.now) 1 0 }
    {
        if self.is_live(moment) { 1 } else { 0 }
    }

    pub fn renew(&mut self, moment: u64, period: Option<u32>)
        ensures { self.new ≡ renewed_lock moment period self.old }
    {
        if let Some(period) = period {
            self.period = period;
        }
        self.deadline = end_of(moment, self.period);
    }

    // Keeps what it holds by the map, and ends where this is nothing.
    pub fn leave(&mut self, moment: u64, holders: &Holders)
        ensures { self.new ≡ left_by moment (number_at holders.now.numbers) self.old }
    {
        keep_held(&mut self.features, self.number, holders);
        self.deadline = if self.features.is_empty() {
            0
        } else {
            end_of(moment, self.period)
        };
    }

    // Ends the lock, and gives back the memory of its features.
    pub fn end(&mut self)
        ensures { self.new ≡ ended self.old }
    {
        self.features.clear();
        self.features.shrink_to_fit();
        self.deadline = 0;
    }
}
