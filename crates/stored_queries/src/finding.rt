//! Texts among others, found by halving a sorted copy of these.

ghost use Rattle.std.specs.Prelude.{◌≡◌, IfOk, IsPermutation};
ghost use Rattle.std.specs.List.{list_any};
ghost use Rattle.std.specs.List.Sorted.{IsSorted};
ghost use Rattle.std.specs.Ordering.{nat_cmp};
ghost use Rattle.std.specs.Cmp.Lexicographic.{slice_cmp};
ghost use Rattle.std.specs.Str.{bytes_eq};

use std::alloc::Global;
use std::cmp::Ordering;
use wfs_ends::{Mem, Text};

fn text_order(a: &str, b: &str) -> Ordering
    ensures { result ≡ slice_cmp nat_cmp a.now b.now }
{
    a.cmp(b)
}

fn copies(alloc: Global, texts: &[Text]) -> Mem<Vec<Text>>
    ensures { IfOk result (λ all. all.items ≡ texts.now) }
{
    let mut all = Vec::with_capacity(alloc, texts.len())?;
    for text in texts {
        all.push(text.copy(alloc)?)?;
    }
    Ok(all)
}

/// The texts in the order of their bytes.
pub(crate) fn ordered(mut texts: Vec<Text>) -> Mem<Vec<Text>>
    ensures permutation { IfOk result (λ v. IsPermutation texts.items v.items) }
    ensures order { IfOk result (λ v. IsSorted (slice_cmp nat_cmp) v.items) }
{
    texts.sort_by(|a, b| text_order(a.as_str(), b.as_str()))?;
    Ok(texts)
}

/// Copies of texts, which share their bytes, in the order of these.
pub(crate) fn in_order(alloc: Global, texts: &[Text]) -> Mem<Vec<Text>>
    ensures permutation { IfOk result (λ v. IsPermutation texts.now v.items) }
    ensures order { IfOk result (λ v. IsSorted (slice_cmp nat_cmp) v.items) }
{
    ordered(copies(alloc, texts)?)
}

/// Whether a text is among others, which are in order.
pub(crate) fn has(sorted: &[Text], text: &str) -> bool
    requires { IsSorted (slice_cmp nat_cmp) sorted.now }
    ensures { result ≡ list_any (λ other. bytes_eq other text.now) sorted.now }
{
    sorted
        .binary_search_by(|other| text_order(other.as_str(), text))
        .is_ok()
}
