//! What a tag may not hold twice. A name is compared by the texts that it borrows, and none is written anew.

ghost use Rattle.std.specs.Prelude.{◌≡◌, map, IfOk, encode_utf8_all};
ghost use Rattle.std.specs.List.{list_any};
ghost use Rattle.std.specs.Str.{chars};
ghost use Rattle.doc_read.specs.Lex.{raw_of, spelled};
ghost use Rattle.doc_read.specs.Scope.{has_twins, same_pair, texts, spellings, expanded_names, same_spelling};

use crate::front::same;
use crate::lex::Spelled;
use crate::tag::RawAttribute;
use doc_tree::Attribute;
use std::alloc::Global;
use std::collections::BTreeSet;
use wfs_ends::Mem;

pub fn same_spelling(a: &Spelled<'_>, b: &Spelled<'_>) -> bool
    ensures { result ≡ same_spelling (spelled a.now) (spelled b.now) }
{
    same(a.prefix, b.prefix) && same(a.local, b.local)
}

// As many names are compared each with each; of more, a set is made.
const FEW: usize = 8;

fn same_pair(a: &(&str, &str), b: &(&str, &str)) -> bool
    ensures { result ≡ same_pair (texts a.now) (texts b.now) }
{
    a.0 == b.0 && a.1 == b.1
}

fn is_among(pair: &(&str, &str), pairs: &[(&str, &str)]) -> bool
    ensures { result ≡ list_any (λ other. same_pair (texts pair.now) (texts other)) pairs.now }
{
    pairs.iter().any(|other| same_pair(pair, other))
}

// Compares each pair with each behind it.
#[tactic(auto, using(crate::proofs::Repeats::any_map), unfolding(crate::specs::Scope::has_twins))]
fn few_have_twins(pairs: &[(&str, &str)]) -> bool
    ensures { result ≡ has_twins same_pair (map texts pairs.now) }
{
    match pairs.split_first() {
        None => false,
        Some((pair, behind)) => is_among(pair, behind) || few_have_twins(behind),
    }
}

// Looks each pair up in a set of those before it. The first texts decide where they differ, so that a long text which many
// pairs have in the second place is seldom walked.
fn many_have_twins(alloc: Global, pairs: &[(&str, &str)]) -> Mem<bool>
    ensures { IfOk result (λ b. b ≡ has_twins same_pair (map texts pairs.now)) }
{
    let mut seen = BTreeSet::new(alloc);
    for pair in pairs {
        if !seen.insert(*pair)? {
            return Ok(true);
        }
    }
    Ok(false)
}

// Whether two of the pairs are the same.
fn have_twins(alloc: Global, pairs: &[(&str, &str)]) -> Mem<bool>
    ensures { IfOk result (λ b. b ≡ has_twins same_pair (map texts pairs.now)) }
{
    if pairs.len() <= FEW {
        return Ok(few_have_twins(pairs));
    }
    many_have_twins(alloc, pairs)
}

fn pair<'a>(prefix: &'a str, local: &'a str) -> (&'a str, &'a str)
    ensures { texts result ≡ (
      encode_utf8_all (chars prefix.now),
      encode_utf8_all
          (chars local.now),
    ) }
{
    (prefix, local)
}

#[tactic(auto, using(crate::proofs::Repeats::spellings_turn, crate::proofs::Repeats::spellings_end, std::proofs::Common::append_assoc, std::proofs::lemmas::List::map_push))]
fn spellings<'a>(alloc: Global, raws: &[RawAttribute<'a>]) -> Mem<Vec<(&'a str, &'a str)>>
    ensures { IfOk result (λ v. map texts v.items ≡ spellings (map raw_of raws.now)) }
{
    let mut found = Vec::with_capacity(alloc, raws.len())?;
    for raw in raws {
        found.push(pair(raw.name.prefix, raw.name.local))?;
    }
    Ok(found)
}

#[tactic(auto, using(crate::proofs::Repeats::expanded_turn, crate::proofs::Repeats::expanded_end, std::proofs::Common::append_assoc, std::proofs::lemmas::List::map_push))]
fn expanded_names(alloc: Global, attributes: &[Attribute]) -> Mem<Vec<(&str, &str)>>
    ensures { IfOk result (λ v. map texts v.items ≡ expanded_names attributes.now) }
{
    let mut found = Vec::with_capacity(alloc, attributes.len())?;
    for attribute in attributes {
        let name = &attribute.name;
        found.push((name.local.as_str(), name.space.as_str()))?;
    }
    Ok(found)
}

/// Whether two attributes have one spelling.
#[tactic(auto, using(crate::proofs::Repeats::few_spellings))]
pub fn have_one_spelling(alloc: Global, raws: &[RawAttribute<'_>]) -> Mem<bool>
    ensures { IfOk result (λ b. b ≡ has_twins same_pair (spellings (map raw_of raws.now))) }
{
    if raws.len() < 2 {
        return Ok(false);
    }
    let pairs = spellings(alloc, raws)?;
    have_twins(alloc, &pairs)
}

/// Whether two attributes have one expanded name.
#[tactic(auto, using(crate::proofs::Repeats::few_names))]
pub fn have_one_name(alloc: Global, attributes: &[Attribute]) -> Mem<bool>
    ensures { IfOk result (λ b. b ≡ has_twins same_pair (expanded_names attributes.now)) }
{
    if attributes.len() < 2 {
        return Ok(false);
    }
    let pairs = expanded_names(alloc, attributes)?;
    have_twins(alloc, &pairs)
}
