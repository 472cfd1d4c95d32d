//! How features are presented: which page of them, and whether they are only counted.

ghost use Rattle.std.specs.Prelude.{◌≡◌};
ghost use Rattle.wfs_ends.specs.Read.{GivesBut};
ghost use Rattle.request_parameters.specs.Paging.{number_of, hits_word, hits_of, resolve_of, page_by, page_of, locked_page_of, presented};

use crate::base::format_of;
use crate::said::{Given, or_refused};
use std::alloc::Global;
use wfs_ends::Text;
use wfs_model::{AskFault, Present, read_count, refused};

/// A page of features (OGC 09-025r2, section 7.6.3).
#[derive(Clone, Copy, Debug, PartialEq, Eq)]
pub struct Page {
    /// How many features are left out before the first.
    pub start: u32,
    /// How many features are given at most. Without it, all are.
    pub count: Option<u32>,
    /// Whether the features are only counted.
    pub hits: bool,
}

impl Page {
    /// The page as it is presented, with the beginning of the links to other pages.
    pub fn presented(self, link: Option<Text>) -> Present
        ensures { result ≡ presented self link }
    {
        Present {
            start: self.start,
            count: self.count,
            hits: self.hits,
            link,
        }
    }
}

// The number at a name.
#[tactic(auto, unfolding(crate::specs::Paging::number_of))]
fn number_of<G: Given>(alloc: Global, name: &str, given: &G) -> Result<Option<u32>, AskFault>
    ensures { GivesBut AskFault.OutOfMemory (λ n. n) result
        (number_of name.now (G.said given.now)) }
{
    let Some(text) = given.value_of(name) else {
        return Ok(None);
    };
    let number = or_refused(alloc, read_count(text.as_str()), 11, name)?;
    Ok(Some(number))
}

// What a word says of whether features are only counted.
#[tactic(auto, unfolding(crate::specs::Paging::hits_word))]
fn hits_word(may_count: bool, text: &str) -> Option<bool>
    ensures { result ≡ hits_word may_count text.now }
{
    if text == "results" {
        return Some(false);
    }
    if may_count && text == "hits" {
        return Some(true);
    }
    None
}

// Whether features are only counted.
#[tactic(auto, unfolding(crate::specs::Paging::hits_of))]
fn hits_of<G: Given>(alloc: Global, may_count: bool, given: &G) -> Result<bool, AskFault>
    ensures { GivesBut AskFault.OutOfMemory (λ b. b) result (hits_of may_count (G.said given.now)) }
{
    let Some(text) = given.value_of("resultType") else {
        return Ok(false);
    };
    or_refused(alloc, hits_word(may_count, text.as_str()), 11, "resultType")
}

// References are never resolved.
#[tactic(auto, unfolding(crate::specs::Paging::resolve_of, wfs_ends::specs::Read::unless))]
fn resolve_of<G: Given>(alloc: Global, given: &G) -> Result<(), AskFault>
    ensures { GivesBut AskFault.OutOfMemory (λ x. x) result (resolve_of (G.said given.now)) }
{
    let Some(text) = given.value_of("resolve") else {
        return Ok(());
    };
    if text.as_str() != "none" {
        return Err(refused(alloc, 12, "resolve"));
    }
    Ok(())
}

#[tactic(auto, unfolding(crate::specs::Paging::page_by))]
fn page_by<G: Given>(alloc: Global, may_count: bool, given: &G) -> Result<Page, AskFault>
    ensures { GivesBut AskFault.OutOfMemory (λ page. page) result
        (page_by may_count (G.said given.now)) }
{
    let count = number_of(alloc, "count", given)?;
    let start = number_of(alloc, "startIndex", given)?;
    let hits = hits_of(alloc, may_count, given)?;
    format_of(alloc, "outputFormat", given)?;
    resolve_of(alloc, given)?;
    let start = start.unwrap_or(0);
    Ok(Page { start, count, hits })
}

/// The page that a request for features or values asks for. In this order, a `count` or `startIndex` that is no number from 0 to
/// 4,294,967,295 in decimal digits, a `resultType` other than `results` and `hits`, and an `outputFormat` other than GML 3.2 are
/// row 11 with their name, and a `resolve` other than `none` is row 12. Where nothing is said the page begins at the first feature,
/// has all, and they are not only counted.
pub fn page_of<G: Given>(alloc: Global, given: &G) -> Result<Page, AskFault>
    ensures { GivesBut AskFault.OutOfMemory (λ page. page) result (page_of (G.said given.now)) }
{
    page_by(alloc, true, given)
}

/// The page of a request that locks the features which it presents (OGC 09-025r2, section 13.2): as `page_of`, but a `resultType`
/// of `hits` is row 11 as well.
pub fn locked_page_of<G: Given>(alloc: Global, given: &G) -> Result<Page, AskFault>
    ensures { GivesBut AskFault.OutOfMemory (λ page. page) result
        (locked_page_of (G.said given.now)) }
{
    page_by(alloc, false, given)
}
