//! Pages of what was selected, the pages before and behind one, and their links.

ghost use Rattle.std.specs.Prelude.{◌≡◌, IfOk, take, drop};
ghost use Rattle.std.specs.Option.{option_map};
ghost use Rattle.query_core.specs.Paging.{page_of};
ghost use Rattle.wfs_model.specs.Links.{next_page, previous_page, link_to};
ghost use Rattle.stored_queries.specs.Paged.{page_at};

use std::alloc::Global;
use wfs_ends::{Mem, Text};
use wfs_model::page_link;

/// What is left without so many members at the front.
fn behind<T>(items: &[T], start: u32) -> &[T]
    ensures { result.now ≡ drop start items.now }
{
    let start = start as usize;
    if start < items.len() {
        &items[start..]
    } else {
        &[]
    }
}

/// At most so many members at the front.
fn front<T>(items: &[T], count: u32) -> &[T]
    ensures { result.now ≡ take count items.now }
{
    let count = count as usize;
    if count < items.len() {
        &items[..count]
    } else {
        items
    }
}

/// The page of a list that leaves out its first `start` members and has at most `count` of the rest; without a count, all of them
/// (OGC 09-025r2, section 7.6.3). Nothing is copied.
#[tactic(auto, unfolding(query_core::specs::Paging::page_of))]
pub fn page<T>(items: &[T], start: u32, count: Option<u32>) -> &[T]
    ensures { result.now ≡ page_of start count items.now }
{
    let rest = behind(items, start);
    match count {
        None => rest,
        Some(count) => front(rest, count),
    }
}

/// Where the page behind one begins and how many members it has at most, where something is left for it (OGC 09-025r2, section
/// 7.7.4.4).
#[tactic(auto, unfolding(wfs_model::specs::Links::next_page))]
pub fn next_page(start: u32, count: Option<u32>, matched: u64) -> Option<(u64, u64)>
    ensures { option_map page_at result ≡ next_page start count matched }
{
    let count = u64::from(count?);
    let next = u64::from(start) + count;
    if count > 0 && next < matched {
        Some((next, count))
    } else {
        None
    }
}

/// The same of the page before one, where something stands before it.
#[tactic(auto, unfolding(wfs_model::specs::Links::previous_page))]
pub fn previous_page(start: u32, count: Option<u32>) -> Option<(u64, u64)>
    ensures { option_map page_at result ≡ previous_page start count }
{
    let start = u64::from(start);
    if start == 0 {
        return None;
    }
    match count {
        None => Some((0, start)),
        Some(0) => None,
        Some(count) => {
            let count = u64::from(count);
            Some((start.saturating_sub(count), count.min(start)))
        }
    }
}

/// The link to a page, where there is such a page and links have a beginning.
#[tactic(auto, unfolding(wfs_model::specs::Links::link_to))]
pub fn link_to(alloc: Global, link: &Option<Text>, page: Option<(u64, u64)>) -> Mem<Option<Text>>
    ensures { IfOk result (λ text. text ≡ link_to link.now (option_map page_at page)) }
{
    match (link, page) {
        (Some(link), Some((start, count))) => Ok(Some(page_link(alloc, link, start, count)?)),
        _ => Ok(None),
    }
}
