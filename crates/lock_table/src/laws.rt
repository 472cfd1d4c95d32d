//! Laws of the definitions that the contracts cite. Each is the contract of a function that does nothing.

ghost use Rattle.std.specs.Prelude.{◌≡◌, ◌↔◌, IsTrue};
ghost use Rattle.lock_table.specs.Held.{is_same};

use feature_values::Rid;

/// Two identifiers name the same feature exactly where they are equal.
pub fn same_are_equal(a: Rid, b: Rid)
    ensures { IsTrue (is_same a b) ↔ (a ≡ b) }
{}
