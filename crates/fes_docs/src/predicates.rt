//! Comparisons, patterns, ranges and nulls, as they are written.

ghost use Rattle.std.specs.Prelude.{◌≡◌, [], ◌∷◌, ◌++◌, codes, IfOk, OnOk, string_bytes};
ghost use Rattle.std.specs.List.{flat_map};
ghost use Rattle.std.specs.Option.{option_copied};
ghost use Rattle.fes_docs.specs.Written.{element, parent, comparison_name, case_attributes, compare_tree, part_text, mark_attributes, like_tree, bound_tree, between_tree, null_tree};

use crate::operands::{reference, side};
use crate::written::{add, alone, attribute, both, element, in_order, leaf, parent};
use doc_tree::{Attribute, Element};
use feature_values::Schema;
use fes_filter::{By, Expr, LikePart};
use std::alloc::Global;
use wfs_ends::{List, Mem, Text};

// ---- comparisons

fn comparison_name(by: By) -> &'static str
    ensures { result.now ≡ comparison_name by }
{
    match by {
        By::Equal => "PropertyIsEqualTo",
        By::NotEqual => "PropertyIsNotEqualTo",
        By::Less => "PropertyIsLessThan",
        By::Greater => "PropertyIsGreaterThan",
        By::LessEqual => "PropertyIsLessThanOrEqualTo",
        By::GreaterEqual => "PropertyIsGreaterThanOrEqualTo",
    }
}

fn case_attributes(alloc: Global, fold: bool) -> Mem<Vec<Attribute>>
    ensures { IfOk result (λ v. v.items ≡ case_attributes fold) }
{
    if fold {
        let value = Text::of(alloc, "false")?;
        return alone(alloc, attribute(alloc, "matchCase", value)?);
    }
    Ok(Vec::new(alloc))
}

#[tactic(auto, unfolding(crate::specs::Written::compare_tree))]
pub(crate) fn compare_tree(
    alloc: Global,
    parameters: Option<&List<Text>>,
    schema: &Schema,
    kind: Option<u32>,
    by: By,
    left: &Expr,
    right: &Expr,
    fold: bool,
) -> Mem<Element>
    ensures { IfOk result (λ e. e ≡ compare_tree (option_copied parameters.entry) schema.now kind by
        left.now right.now fold) }
{
    let attributes = case_attributes(alloc, fold)?;
    let first = side(alloc, parameters, schema, kind, left)?;
    let second = side(alloc, parameters, schema, kind, right)?;
    let children = both(alloc, first, second)?;
    let text = Text::of(alloc, "")?;
    element(alloc, comparison_name(by), attributes, children, text)
}

// ---- PropertyIsLike

// One part of a pattern, with `*`, `.` and `!` as its three characters.
#[tactic(auto, unfolding(crate::specs::Written::part_text))]
fn add_part(line: &mut String, part: LikePart) -> Mem<()>
    ensures { OnOk result (string_bytes line.new ≡ string_bytes line.old ++ part_text part) }
{
    match part {
        LikePart::Many => add(line, "*"),
        LikePart::One => add(line, "."),
        LikePart::Exactly(c) => {
            if c == '*' || c == '.' || c == '!' {
                add(line, "!")?;
            }
            line.push(c)?;
            Ok(())
        }
    }
}

fn add_parts(line: &mut String, parts: &[LikePart]) -> Mem<()>
    ensures { OnOk result (string_bytes line.new
        ≡ string_bytes line.old ++ flat_map part_text parts.now) }
{
    for part in parts {
        add_part(line, *part)?;
    }
    Ok(())
}

fn pattern_text(alloc: Global, parts: &[LikePart]) -> Mem<Text>
    ensures { IfOk result (λ t. t ≡ flat_map part_text parts.now) }
{
    let mut line = String::new(alloc);
    add_parts(&mut line, parts)?;
    Text::of_string(line)
}

fn mark_attributes(alloc: Global) -> Mem<Vec<Attribute>>
    ensures { IfOk result (λ v. v.items ≡ mark_attributes) }
{
    let mut attributes = Vec::new(alloc);
    attributes.push(attribute(alloc, "wildCard", Text::of(alloc, "*")?)?)?;
    attributes.push(attribute(alloc, "singleChar", Text::of(alloc, ".")?)?)?;
    attributes.push(attribute(alloc, "escapeChar", Text::of(alloc, "!")?)?)?;
    Ok(attributes)
}

fn pattern_tree(alloc: Global, property: Element, literal: Element) -> Mem<Element>
    ensures { IfOk result (λ e. e ≡ element (codes "PropertyIsLike") mark_attributes
        (property ∷ literal ∷ []) []) }
{
    let attributes = mark_attributes(alloc)?;
    let children = both(alloc, property, literal)?;
    let text = Text::of(alloc, "")?;
    element(alloc, "PropertyIsLike", attributes, children, text)
}

pub(crate) fn like_tree(
    alloc: Global,
    schema: &Schema,
    kind: Option<u32>,
    property: u32,
    pattern: &[LikePart],
) -> Mem<Element>
    ensures { IfOk result (λ e. e ≡ like_tree schema.now kind property pattern.now) }
{
    let named = reference(alloc, schema, kind, property)?;
    let text = pattern_text(alloc, pattern)?;
    let literal = leaf(alloc, "Literal", text)?;
    pattern_tree(alloc, named, literal)
}

// ---- ranges and nulls

#[tactic(auto, unfolding(crate::specs::Written::bound_tree))]
fn bound_tree(
    alloc: Global,
    local: &str,
    parameters: Option<&List<Text>>,
    schema: &Schema,
    kind: Option<u32>,
    bound: &Expr,
) -> Mem<Element>
    ensures { IfOk result (λ e. e ≡ bound_tree local.now (option_copied parameters.entry) schema.now
        kind bound.now) }
{
    let child = side(alloc, parameters, schema, kind, bound)?;
    parent(alloc, local, alone(alloc, child)?)
}

fn range_tree(alloc: Global, property: Element, lower: Element, upper: Element) -> Mem<Element>
    ensures { IfOk result (λ e. e ≡ parent (codes "PropertyIsBetween")
        (property ∷ lower ∷ upper ∷ [])) }
{
    let children = in_order(alloc, property, lower, upper)?;
    parent(alloc, "PropertyIsBetween", children)
}

pub(crate) fn between_tree(
    alloc: Global,
    parameters: Option<&List<Text>>,
    schema: &Schema,
    kind: Option<u32>,
    property: u32,
    low: &Expr,
    high: &Expr,
) -> Mem<Element>
    ensures { IfOk result (λ e. e ≡ between_tree (option_copied parameters.entry) schema.now kind
        property low.now high.now) }
{
    let named = reference(alloc, schema, kind, property)?;
    let lower = bound_tree(alloc, "LowerBoundary", parameters, schema, kind, low)?;
    let upper = bound_tree(alloc, "UpperBoundary", parameters, schema, kind, high)?;
    range_tree(alloc, named, lower, upper)
}

#[tactic(auto, unfolding(crate::specs::Written::null_tree))]
pub(crate) fn null_tree(
    alloc: Global,
    schema: &Schema,
    kind: Option<u32>,
    property: u32,
) -> Mem<Element>
    ensures { IfOk result (λ e. e ≡ null_tree schema.now kind property) }
{
    let child = reference(alloc, schema, kind, property)?;
    parent(alloc, "PropertyIsNull", alone(alloc, child)?)
}
