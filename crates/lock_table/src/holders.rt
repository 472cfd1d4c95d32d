//! Which lock holds a feature, as a map by feature.

ghost use Rattle.std.specs.Prelude.{◌≡◌, ◌+◌, ◌≤◌, None, OnOk, length, [], ◌∷◌};
ghost use Rattle.std.specs.List.{IsDistinct-prop};
ghost use Rattle.std.specs.HashMap.{spare, hash_map_len, keys, IsUnique};
ghost use Rattle.lock_table.specs.Kept.{pair_eq, number_at, is_number, given_to, freed_of};

use feature_values::Rid;
use std::alloc::{AllocError, Global};
use std::collections::HashMap;

// The map by feature: the number of the lock that holds it.
#[derive(Drop)]
pub struct Holders {
    numbers: HashMap<(u32, u64), u64>,
    ghost unique: { IsUnique pair_eq numbers } by { IsDistinct-prop pair_eq (keys numbers) },
}

impl Holders {
    pub fn new(alloc: Global) -> Holders
        ensures none { (f : _) → number_at result.numbers f ≡ None }
        ensures len { hash_map_len result.numbers ≡ 0 }
    {
        Holders {
            numbers: HashMap::new(alloc),
        }
    }

    pub fn number_of(&self, feature: &Rid) -> Option<u64>
        ensures { result ≡ number_at self.now.numbers feature.now }
    {
        self.numbers.get(&(feature.kind, feature.number)).copied()
    }

    // Whether a lock holds a feature.
    pub fn is_held_by(&self, feature: &Rid, number: u64) -> bool
        ensures { result ≡ is_number number (number_at self.now.numbers feature.now) }
    {
        match self.number_of(feature) {
            Some(n) => number == n,
            None => false,
        }
    }

    // Makes room for more features.
    pub fn reserve(&mut self, more: usize) -> Result<(), AllocError>
        ensures same { (f : _) → number_at self.new.numbers f ≡ number_at self.old.numbers f }
        ensures len { hash_map_len self.new.numbers ≡ hash_map_len self.old.numbers }
        ensures room { OnOk result (more ≤ spare self.new.numbers) }
        ensures kept { spare self.old.numbers ≤ spare self.new.numbers }
    {
        self.numbers.reserve(more)
    }

    // Gives back memory, where much of it is not needed.
    pub fn shrink(&mut self)
        ensures same { (f : _) → number_at self.new.numbers f ≡ number_at self.old.numbers f }
        ensures len { hash_map_len self.new.numbers ≡ hash_map_len self.old.numbers }
    {
        if self.numbers.capacity() / 4 > self.numbers.len() {
            self.numbers.shrink_to_fit();
        }
    }

    fn put(&mut self, feature: &Rid, number: u64)
        requires { 1 ≤ spare self.old.numbers }
        ensures held { (f : _) → number_at self.new.numbers f
            ≡ given_to number (feature.now ∷ []) (number_at self.old.numbers) f }
        ensures room { spare self.old.numbers ≤ spare self.new.numbers + 1 }
    {
        match self.numbers.insert((feature.kind, feature.number), number) {
            Ok(_) => (),
            Err(_) => unreachable!(),
        }
    }

    // Gives features to a lock.
    pub fn give(&mut self, features: &[Rid], number: u64)
        requires { length features.now ≤ spare self.old.numbers }
        ensures { (f : _) → number_at self.new.numbers f
            ≡ given_to number features.now (number_at self.old.numbers) f }
    {
        for feature in features {
            self.put(feature, number);
        }
    }

    fn take(&mut self, feature: &Rid, number: u64)
        ensures freed { (f : _) → number_at self.new.numbers f
            ≡ freed_of number (feature.now ∷ []) (number_at self.old.numbers) f }
        ensures len { hash_map_len self.new.numbers ≤ hash_map_len self.old.numbers }
        ensures room { spare self.old.numbers ≤ spare self.new.numbers }
    {
        if self.is_held_by(feature, number) {
            self.numbers.remove(&(feature.kind, feature.number));
        }
    }

    // Frees those of these features that a lock holds.
    pub fn free(&mut self, features: &[Rid], number: u64)
        ensures freed { (f : _) → number_at self.new.numbers f
            ≡ freed_of number features.now (number_at self.old.numbers) f }
        ensures len { hash_map_len self.new.numbers ≤ hash_map_len self.old.numbers }
        ensures room { spare self.old.numbers ≤ spare self.new.numbers }
    {
        for feature in features {
            self.take(feature, number);
        }
    }
}
