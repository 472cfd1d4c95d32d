//! Links to pages.

ghost use Rattle.std.specs.Prelude.{◌≡◌, IfOk};
ghost use Rattle.wfs_model.specs.Links.{page_link};

use std::alloc::Global;
use wfs_ends::{Mem, Text};

/// The link to a page: the beginning that all links of a request have, `&startIndex=`, where the page begins, `&count=`, and how
/// many members it has at most (OGC 09-025r2, section 7.7.4.4).
#[tactic(auto, unfolding(crate::specs::Links::page_link))]
pub fn page_link(alloc: Global, link: &Text, start: u64, count: u64) -> Mem<Text>
    ensures { IfOk result (λ text. text ≡ page_link link.now start count) }
{
    let mut text = String::new(alloc);
    text.push_str(link.as_str())?;
    text.push_str("&startIndex=")?;
    write!(&mut text, "{start}")?;
    text.push_str("&count=")?;
    write!(&mut text, "{count}")?;
    Text::of_string(text)
}
