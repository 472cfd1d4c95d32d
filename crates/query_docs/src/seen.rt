//! Names that came before, found among many at once.

ghost use Rattle.std.specs.Prelude.{◌≡◌, ℕ, List, ◌||◌, not, false, IfOk, OnOk, string_bytes};
ghost use Rattle.std.specs.BTreeSet.{contains_text};
ghost use Rattle.std.specs.Str.{bytes_eq, str_to_ascii_lowercase};

use std::alloc::Global;
use std::collections::BTreeSet;
use wfs_ends::Mem;

/// Names that came before.
pub(crate) type Seen = BTreeSet<String>;

/// No names.
pub(crate) fn none_seen(alloc: Global) -> Seen
    ensures { (q : List ℕ) → contains_text result q ≡ false }
{
    BTreeSet::new(alloc)
}

// Notes a name. It is told whether the name is new.
fn note_text(seen: &mut Seen, name: String) -> Mem<bool>
    ensures new { IfOk result (λ is_new. is_new
        ≡ not (contains_text seen.old (string_bytes name))) }
    ensures seen { OnOk result ((q : List ℕ) → contains_text seen.new q
        ≡ (contains_text seen.old q || bytes_eq (string_bytes name) q)) }
{
    Ok(seen.insert(name)?)
}

/// Notes a name, in its own case. It is told whether the name is new.
pub(crate) fn note(alloc: Global, seen: &mut Seen, name: &str) -> Mem<bool>
    ensures new { IfOk result (λ is_new. is_new ≡ not (contains_text seen.old name.now)) }
    ensures seen { OnOk result ((q : List ℕ) → contains_text seen.new q
        ≡ (contains_text seen.old q || bytes_eq name.now q)) }
{
    note_text(seen, String::from_str(alloc, name)?)
}

/// Notes a name, with the case of its ASCII letters left out. It is told whether the name is new.
pub(crate) fn note_without_case(alloc: Global, seen: &mut Seen, name: &str) -> Mem<bool>
    ensures new { let low = str_to_ascii_lowercase in IfOk result
        (λ is_new. is_new ≡ not (contains_text seen.old (low name.now))) }
    ensures seen { let low = str_to_ascii_lowercase in OnOk result
        ((q : List ℕ) → contains_text seen.new q
        ≡ (contains_text seen.old q || bytes_eq (low name.now) q)) }
{
    note_text(seen, name.to_ascii_lowercase(alloc)?)
}
