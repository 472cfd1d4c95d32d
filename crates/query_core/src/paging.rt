//! A page, cut out of a list.

ghost use Rattle.std.specs.Prelude.{◌≡◌, IfOk, take, drop};
ghost use Rattle.query_core.specs.Paging.{page_of};

use feature_values::Rid;
use std::alloc::Global;
use wfs_ends::{List, Mem};

/// What is left without so many members at the front.
fn behind(ids: &[Rid], start: u32) -> &[Rid]
    ensures { result.now ≡ drop start ids.now }
{
    let start = start as usize;
    if start < ids.len() {
        &ids[start..]
    } else {
        &[]
    }
}

/// At most so many members at the front.
fn front(ids: &[Rid], count: u32) -> &[Rid]
    ensures { result.now ≡ take count ids.now }
{
    let count = count as usize;
    if count < ids.len() {
        &ids[..count]
    } else {
        ids
    }
}

/// The page of a list that leaves out its first `start` members and has at most `count` of the rest; without a count, all
/// of them (OGC 09-025r2, section 7.6.3).
#[tactic(auto, unfolding(crate::specs::Paging::page_of))]
pub fn page(alloc: Global, list: &List<Rid>, start: u32, count: Option<u32>) -> Mem<List<Rid>>
    ensures { IfOk result (λ ids. ids ≡ page_of start count list.now) }
{
    let rest = behind(list.items(), start);
    match count {
        None => Ok(List::of(Vec::from_slice(alloc, rest)?)),
        Some(count) => Ok(List::of(Vec::from_slice(alloc, front(rest, count))?)),
    }
}
