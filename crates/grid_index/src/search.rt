//! Pairs that are looked for: one by its feature and its box, and those near a box.

ghost use Rattle.std.specs.Prelude.{◌≡◌, ◌≢◌, ◌<◌, ◌||◌, true, false, List, IfOk, OnOk, IfSome, IfNone, length, get_or};
ghost use Rattle.feature_values.specs.declared.feature.Rid.{Rid as TheRid};
ghost use Rattle.grid_index.specs.Cells.{is_huge};
ghost use Rattle.grid_index.specs.Counts.{times};
ghost use Rattle.grid_index.specs.Near.{Placed, is_among, puts_near, AreNear};
ghost use Rattle.grid_index.specs.Found.{AreMarked, FindsNear};
ghost use Rattle.grid_index.specs.Gridded.{IsGridOf};
ghost use Rattle.grid_index.specs.Lists.{listed_at};

use crate::cells;
use crate::found::Found;
use crate::lists::Lists;
use crate::places::collect_near;
use feature_values::Rid;
use geom_core::Box2;
use std::alloc::Global;
use wfs_ends::Mem;

// Whether this is the pair of a feature and a box.
fn is_pair(pair: &(Rid, Box2), id: Rid, area: Box2) -> bool
    ensures yes { result ≡ true → pair.now ≡ (id, area) }
    ensures no { result ≡ false → pair.now ≢ (id, area) }
{
    pair.0 == id && pair.1 == area
}

// Where such a pair stands among others, if one does.
pub fn index_of(pairs: &[(Rid, Box2)], id: Rid, area: Box2) -> Option<usize>
    ensures some { IfSome result (λ i. i < length pairs.now) }
    ensures is { IfSome result (λ i. (d : Placed) → get_or pairs.now i d ≡ (id, area)) }
    ensures none { IfNone result (times (id, area) pairs.now ≡ 0) }
{
    for i in 0..pairs.len() {
        if is_pair(&pairs[i], id, area) {
            return Some(i);
        }
    }
    None
}

// Whether all pairs are looked at, and not those in the cells of a box.
pub fn is_for_all(lists: usize, asked: &Box2) -> bool
    ensures { result ≡ false → is_huge asked.now ≡ false }
{
    cells::is_huge(asked) || lists < cells::cell_count(asked)
}

// Adds the feature of a pair that is near a box.
fn add_if_near(found: &mut Found, asked: &Box2, pair: &(Rid, Box2)) -> Mem<()>
    requires { AreMarked found.old.marks found.old.ids.items }
    ensures marked { OnOk result (AreMarked found.new.marks found.new.ids.items) }
    ensures finds { OnOk result ((f : TheRid) → is_among f found.new.ids.items
        ≡ (is_among f found.old.ids.items || puts_near asked.now f pair.now)) }
{
    if cells::is_near(asked, &pair.1) {
        found.add(pair.0)?;
    }
    Ok(())
}

// Adds those features of pairs that are near a box.
fn add_near(found: &mut Found, asked: &Box2, pairs: &[(Rid, Box2)]) -> Mem<()>
    requires { AreMarked found.old.marks found.old.ids.items }
    ensures marked { OnOk result (AreMarked found.new.marks found.new.ids.items) }
    ensures finds { OnOk result (FindsNear asked.now pairs.now found.old.ids.items
        found.new.ids.items) }
{
    for pair in pairs {
        add_if_near(found, asked, pair)?;
    }
    Ok(())
}

// The features of all pairs that are near a box.
pub fn among_all(alloc: Global, lists: &Lists, asked: &Box2) -> Mem<Vec<Rid>>
    ensures { IfOk result (λ ids. (pairs : List Placed) → IsGridOf (listed_at lists.now) pairs
        → AreNear asked.now pairs ids.items) }
{
    let mut found = Found::new(alloc);
    for (_place, list) in lists.by_place.iter() {
        add_near(&mut found, asked, list.as_slice())?;
    }
    let Found { ids, marks: _ } = found;
    Ok(ids)
}

// The features on the wide list and in the cells of a box.
pub fn in_cells(alloc: Global, lists: &Lists, asked: &Box2) -> Mem<Vec<Rid>>
    requires { is_huge asked.now ≡ false }
    ensures { IfOk result (λ ids. (pairs : List Placed) → IsGridOf (listed_at lists.now) pairs
        → AreNear asked.now pairs ids.items) }
{
    let _low = asked.low;
    let mut found = Found::new(alloc);
    collect_near(lists, asked, &mut found)?;
    let Found { ids, marks: _ } = found;
    Ok(ids)
}
