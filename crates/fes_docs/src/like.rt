//! PropertyIsLike.

ghost use Rattle.std.specs.Prelude.{◌≡◌, ◌∷◌, [], IfOk, MatchOption};
ghost use Rattle.std.specs.Option.{option_copied};
ghost use Rattle.std.specs.Str.{chars};
ghost use Rattle.wfs_ends.specs.Read.{GivesBut};
ghost use Rattle.fes_docs.specs.Like.{one_of, mark_in, mark_of, marks_of, only_marks, bad_marks, part_of, next_part, pattern_of, pattern_behind, like_of};
ghost use Rattle.fes_docs.specs.declared.fault.FilterDocFault.TheVariants.{OutOfMemory};

use crate::compare::case_of;
use crate::element::{and_no_more, first_in, missing, named, no_others, plain, value_of};
use crate::fault::{FilterDocFault, checked};
use crate::sides::{property_at, suited};
use doc_tree::Element;
use feature_values::FeatureType;
use fes_filter::{Filter, FilterFault, LikePart, is_words};
use std::alloc::Global;
use wfs_ends::{List, Mem, Text};

/// The characters of a pattern that do not stand for themselves.
#[derive(Clone, Copy, Debug, PartialEq, Eq)]
pub struct Marks {
    /// Stands for any number of any characters.
    pub many: char,
    /// Stands for any one character.
    pub one: char,
    /// The character behind it stands for itself.
    pub escape: char,
}

// ---- the three characters

fn bad_marks(alloc: Global) -> FilterDocFault
    ensures { (result ≡ OutOfMemory → ⊥) → result ≡ bad_marks }
{
    checked(alloc, FilterFault::Choice, "escapeChar")
}

// The first character of a text, and what stands behind it.
fn split_first(text: &str) -> Option<(char, &str)>
    ensures { MatchOption result (chars text.now ≡ [])
        (λ (c, rest). chars text.now ≡ c ∷ chars rest.now) }
{
    let mut chars = text.chars();
    match chars.next() {
        Some(c) => Some((c, chars.as_str())),
        None => None,
    }
}

// The one character of a text.
fn one_of(alloc: Global, text: &str) -> Result<char, FilterDocFault>
    ensures { GivesBut OutOfMemory (λ x. x) result (one_of (chars text.now)) }
{
    let Some((c, rest)) = split_first(text) else {
        return Err(bad_marks(alloc));
    };
    match split_first(rest) {
        None => Ok(c),
        Some(_) => Err(bad_marks(alloc)),
    }
}

fn mark_in(alloc: Global, element: &Element, value: Option<&Text>) -> Result<char, FilterDocFault>
    ensures { GivesBut OutOfMemory (λ x. x) result
        (mark_in element.now (option_copied value.entry)) }
{
    match value {
        None => Err(missing(alloc, element)),
        Some(text) => one_of(alloc, text.as_str()),
    }
}

#[tactic(auto, unfolding(crate::specs::Like::mark_of))]
fn mark_of(alloc: Global, element: &Element, local: &str) -> Result<char, FilterDocFault>
    ensures { GivesBut OutOfMemory (λ x. x) result (mark_of local.now element.now) }
{
    mark_in(alloc, element, value_of(element, local))
}

#[tactic(auto, unfolding(crate::specs::Like::marks_of))]
fn marks_of(alloc: Global, element: &Element) -> Result<Marks, FilterDocFault>
    ensures { GivesBut OutOfMemory (λ x. x) result (marks_of element.now) }
{
    let many = mark_of(alloc, element, "wildCard")?;
    let one = mark_of(alloc, element, "singleChar")?;
    let escape = mark_of(alloc, element, "escapeChar")?;
    if many == one || many == escape || one == escape {
        return Err(bad_marks(alloc));
    }
    Ok(Marks { many, one, escape })
}

#[tactic(auto, unfolding(crate::specs::Like::only_marks))]
fn only_marks(alloc: Global, element: &Element) -> Result<(), FilterDocFault>
    ensures { GivesBut OutOfMemory (λ x. x) result (only_marks element.now) }
{
    no_others(
        alloc,
        element,
        &["matchCase", "wildCard", "singleChar", "escapeChar"],
    )
}

// ---- the pattern

fn part_of(marks: Marks, c: char) -> LikePart
    ensures { result ≡ part_of marks c }
{
    if c == marks.many {
        return LikePart::Many;
    }
    if c == marks.one {
        return LikePart::One;
    }
    LikePart::Exactly(c)
}

// Adds what a character stands for. It answers whether it is an escape.
fn next_part(marks: Marks, found: &mut Vec<LikePart>, is_escaped: bool, c: char) -> Mem<bool>
    ensures { IfOk result (λ escaped. (found.new.items, escaped)
        ≡ next_part marks (found.old.items, is_escaped) c) }
{
    if is_escaped {
        found.push(LikePart::Exactly(c))?;
        return Ok(false);
    }
    if c == marks.escape {
        return Ok(true);
    }
    found.push(part_of(marks, c))?;
    Ok(false)
}

// The pattern that a text writes.
#[tactic(auto, unfolding(crate::specs::Like::pattern_of))]
fn pattern_of(alloc: Global, marks: Marks, text: &str) -> Result<List<LikePart>, FilterDocFault>
    ensures { GivesBut OutOfMemory (λ x. x) result (pattern_of marks text.now) }
{
    let mut found = Vec::new(alloc);
    let mut is_escaped = false;
    for c in text.chars() {
        is_escaped = next_part(marks, &mut found, is_escaped, c)?;
    }
    if is_escaped {
        return Err(bad_marks(alloc));
    }
    Ok(List::of(found))
}

// ---- the operator

// A Literal with a pattern, behind a property.
#[tactic(auto, unfolding(crate::specs::Like::pattern_behind))]
fn pattern_behind(
    alloc: Global,
    marks: Marks,
    property: u32,
    whole: &Element,
    elements: &[Element],
) -> Result<Filter, FilterDocFault>
    ensures { GivesBut OutOfMemory (λ x. x) result
        (pattern_behind marks property whole.now elements.now) }
{
    let (first, rest) = first_in(alloc, whole, elements)?;
    named(alloc, first, "Literal")?;
    plain(alloc, first)?;
    let pattern = pattern_of(alloc, marks, first.text.as_str())?;
    and_no_more(alloc, Filter::Like { property, pattern }, rest)
}

// PropertyIsLike: a property of texts, and then a pattern.
#[tactic(auto, unfolding(crate::specs::Like::like_of))]
pub(crate) fn like_of(
    alloc: Global,
    of_type: Option<&FeatureType>,
    element: &Element,
) -> Result<Filter, FilterDocFault>
    ensures { GivesBut OutOfMemory (λ x. x) result
        (like_of (option_copied of_type.entry) element.now) }
{
    case_of(alloc, element)?;
    let marks = marks_of(alloc, element)?;
    only_marks(alloc, element)?;
    let (first, rest) = first_in(alloc, element, element.children.items())?;
    named(alloc, first, "ValueReference")?;
    let (property, kind) = property_at(alloc, of_type, first)?;
    suited(alloc, is_words(kind), first)?;
    pattern_behind(alloc, marks, property, element, rest)
}
