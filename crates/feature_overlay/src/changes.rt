//! What has changed, by identifier.

ghost use Rattle.std.specs.Prelude.{◌≡◌, ◌++◌, IfOk, OnErr, OnOk, Some, None, filter, is_some, not, if◌then◌else◌};
ghost use Rattle.std.specs.Option.{option_copied};
ghost use Rattle.feature_values.specs.declared.feature.Rid.{Rid};
ghost use Rattle.feature_values.specs.declared.schema.Schema.{Schema};
ghost use Rattle.fes_filter.specs.View.{is_same, IsOnce};
ghost use Rattle.feature_overlay.specs.Changed.{change_at, put_at, put_ids, first_put, start_of, IsOf, AreKeyed, FitsIf, AreFitting};
ghost use Rattle.feature_overlay.specs.First.{IsFirst};

use feature_values::{Feature, Rid};
use std::alloc::Global;
use std::collections::BTreeMap;
use std::collections::btree_map::Range;
use std::ops::Bound;
use wfs_ends::{Mem, OutOfMemory};

/// By the number of its type and its own number: the feature that stands there now, or none any more.
pub(crate) type Changes = BTreeMap<(u32, u64), Option<Feature>>;

fn key_of(id: Rid) -> (u32, u64)
    ensures { result ≡ (id.kind, id.number) }
{
    (id.kind, id.number)
}

/// From now on this stands under the identifier.
pub(crate) fn change(changes: &mut Changes, id: Rid, now: Option<Feature>) -> Mem<()>
    ensures ok { OnOk result ((other : Rid) → change_at other changes.new.entries
        ≡ (if is_same id other then Some now else change_at other changes.old.entries)) }
    ensures err { OnErr result (changes.new.entries ≡ changes.old.entries) }
    ensures keyed { IsOf id now → AreKeyed changes.old.entries → AreKeyed changes.new.entries }
    ensures fitting { (schema : Schema) → FitsIf schema now → AreFitting schema changes.old.entries
        → AreFitting schema changes.new.entries }
{
    match changes.insert(key_of(id), now) {
        Ok(_) => Ok(()),
        Err(_) => Err(OutOfMemory),
    }
}

/// What has changed under the identifier.
pub(crate) fn changed(changes: &Changes, id: Rid) -> Option<&Option<Feature>>
    ensures { option_copied result ≡ change_at id changes.now.entries }
{
    let key = key_of(id);
    changes.get(&key)
}

/// Whether something has changed under the identifier.
pub(crate) fn has_changed(changes: &Changes, id: Rid) -> bool
    ensures { result ≡ is_some (change_at id changes.now.entries) }
{
    let key = key_of(id);
    changes.contains_key(&key)
}

fn start_of(after: Option<Rid>) -> Bound<(u32, u64)>
    ensures { result ≡ start_of after }
{
    match after {
        Some(id) => Bound::Excluded(key_of(id)),
        None => Bound::Unbounded,
    }
}

fn first_put<'a>(changes: Range<'a, (u32, u64), Option<Feature>>) -> Option<&'a Feature>
    ensures { option_copied result ≡ first_put changes.entry }
{
    for (_, change) in changes {
        if let Some(feature) = change {
            return Some(feature);
        }
    }
    None
}

/// The first feature behind a place that was put.
pub(crate) fn next_put(changes: &Changes, after: Option<Rid>) -> Option<&Feature>
    requires { AreKeyed changes.now.entries }
    ensures { IsFirst after (put_at changes.now.entries) (option_copied result) }
{
    first_put(changes.range((start_of(after), Bound::Unbounded)))
}

/// Those of the identifiers under which nothing has changed.
pub(crate) fn kept_ids(alloc: Global, ids: &[Rid], changes: &Changes) -> Mem<Vec<Rid>>
    ensures { IfOk result (λ kept. kept.items ≡ filter
        (λ id. not (is_some (change_at id changes.now.entries))) ids.now) }
{
    let mut kept = Vec::new(alloc);
    for id in ids {
        if has_changed(changes, *id) {
            continue;
        }
        kept.push(*id)?;
    }
    Ok(kept)
}

/// The identifiers of the features of a type that were put go behind others.
pub(crate) fn push_put(ids: &mut Vec<Rid>, changes: &Changes, kind: u32) -> Mem<()>
    ensures put { OnOk result (ids.new.items ≡ ids.old.items ++ put_ids kind changes.now.entries) }
    ensures once { OnOk result (IsOnce (put_ids kind changes.now.entries)) }
{
    for (key, change) in changes {
        if key.0 != kind || change.is_none() {
            continue;
        }
        ids.push(Rid {
            kind: key.0,
            number: key.1,
        })?;
    }
    Ok(())
}
