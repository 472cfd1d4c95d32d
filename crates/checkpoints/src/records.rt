//! Where the records come from.

ghost use Rattle.std.specs.Prelude.{◌≡◌, ◌∷◌, [], ℕ, List, IsTrue, IfOk, OnErr};
ghost use Rattle.checkpoints.specs.Source.{Gives};

use wfs_ends::Mem;

/// Where the bodies of records come from, one after the other.
pub trait RecordSource {
    /// The bodies that are left.
    ghost left: { Self → List (List ℕ) };

    /// Makes `into` the first body that is left, takes it and answers true; or answers false, where none is left. Want
    /// of memory takes none.
    fn next_body(&mut self, into: &mut Vec<u8>) -> Mem<bool>
        ensures gives { IfOk result (λ is_one. Gives is_one (left self.old) into.new.items
            (left self.new)) }
        ensures kept { OnErr result (left self.new ≡ left self.old) };
}
