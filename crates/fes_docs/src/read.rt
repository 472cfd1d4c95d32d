//! Filters read from elements.

ghost use Rattle.std.specs.Prelude.{◌≡◌, [], ◌∷◌, map, None, Some, IfOk};
ghost use Rattle.std.specs.Option.{option_copied};
ghost use Rattle.wfs_ends.specs.Read.{GivesBut, each};
ghost use Rattle.fes_docs.specs.Filters.{counted, only_id, predicate_of, next_operator, several, one, ids_in, operator_of, content_from, content_of, filter_of};
ghost use Rattle.fes_docs.specs.declared.fault.FilterDocFault.TheVariants.{OutOfMemory};

use crate::compare::{between_of, compare_of, null_of};
use crate::element::{and_no_more, first_in, is_fes, missing, no_others};
use crate::fault::{FilterDocFault, checked, misplaced};
use crate::ids::{id_at, ids_of};
use crate::like::like_of;
use crate::operator::{Operator, Predicate, operator_in};
use crate::spatial::{box_of, operands_of};
use doc_tree::Element;
use feature_values::Schema;
use fes_filter::{Filter, FilterFault, IdRef, MOST_OPERATORS, type_in};
use std::alloc::Global;
use wfs_ends::{Boxed, List, Mem, Text};

// One operator more, where so many may still stand.
#[tactic(auto, unfolding(crate::specs::Filters::counted))]
fn counted(alloc: Global, left: u32) -> Result<u32, FilterDocFault>
    ensures { GivesBut OutOfMemory (λ x. x) result (counted left) }
{
    if left == 0 {
        return Err(checked(alloc, FilterFault::TooLarge, "Filter"));
    }
    Ok(left - 1)
}

fn only(alloc: Global, id: IdRef) -> Mem<List<IdRef>>
    ensures { IfOk result (λ ids. ids ≡ id ∷ []) }
{
    let mut ids = Vec::new(alloc);
    ids.push(id)?;
    Ok(List::of(ids))
}

// A ResourceId that stands as an operator.
fn only_id(
    alloc: Global,
    parameters: Option<&List<Text>>,
    schema: &Schema,
    element: &Element,
) -> Result<Filter, FilterDocFault>
    ensures { GivesBut OutOfMemory (λ x. x) result
        (only_id (option_copied parameters.entry) schema.now element.now) }
{
    let id = id_at(alloc, parameters, schema, element)?;
    Ok(Filter::Ids(only(alloc, id)?))
}

// An operator in which none stands.
#[tactic(auto, unfolding(crate::specs::Filters::predicate_of))]
fn predicate_of(
    alloc: Global,
    parameters: Option<&List<Text>>,
    schema: &Schema,
    kind: Option<u32>,
    element: &Element,
    predicate: Predicate,
) -> Result<Filter, FilterDocFault>
    ensures { GivesBut OutOfMemory (λ x. x) result
        (predicate_of (option_copied parameters.entry) schema.now kind element.now predicate) }
{
    let of_type = type_in(schema, kind);
    match predicate {
        Predicate::Compare(by) => compare_of(alloc, parameters, of_type, by, element),
        Predicate::Like => like_of(alloc, of_type, element),
        Predicate::Null => null_of(alloc, of_type, element),
        Predicate::Between => between_of(alloc, parameters, of_type, element),
        Predicate::Bbox => box_of(alloc, &schema.srs, of_type, element),
        Predicate::Intersects => {
            let (property, shape) = operands_of(alloc, &schema.srs, of_type, element)?;
            Ok(Filter::Meets { property, shape })
        }
        Predicate::Disjoint => {
            let (property, shape) = operands_of(alloc, &schema.srs, of_type, element)?;
            Ok(Filter::Apart { property, shape })
        }
        Predicate::ResourceId => only_id(alloc, parameters, schema, element),
    }
}

// Operators, where so many may still stand.
#[cycle(operator)]
fn operators_of(
    alloc: Global,
    parameters: Option<&List<Text>>,
    schema: &Schema,
    kind: Option<u32>,
    left: u32,
    elements: &List<Element>,
) -> Result<(Vec<Filter>, u32), FilterDocFault>
    ensures { GivesBut OutOfMemory (λ x. (x.0.items, x.1)) result
        (each next_operator ([], left)
        (map (operator_of (option_copied parameters.entry) schema.now kind) elements.now)) }
{
    let mut found = Vec::new(alloc);
    let mut left = left;
    for element in elements.items() {
        let (filter, more) = operator_of(alloc, parameters, schema, kind, left, element)?;
        found.push(filter)?;
        left = more;
    }
    Ok((found, left))
}

// Two operators or more, in an element of this name.
#[cycle(operator)]
#[tactic(auto, unfolding(crate::specs::Filters::several))]
fn several(
    alloc: Global,
    parameters: Option<&List<Text>>,
    schema: &Schema,
    kind: Option<u32>,
    left: u32,
    name: &Text,
    elements: &List<Element>,
) -> Result<(List<Filter>, u32), FilterDocFault>
    ensures { GivesBut OutOfMemory (λ x. x) result
        (several name.now (map (operator_of (option_copied parameters.entry) schema.now kind)
        elements.now) left) }
{
    let (found, left) = operators_of(alloc, parameters, schema, kind, left, elements)?;
    if found.len() < 2 {
        return Err(misplaced(alloc, name.as_str()));
    }
    Ok((List::of(found), left))
}

// One operator, in an element of this name.
#[cycle(operator)]
fn one(
    alloc: Global,
    parameters: Option<&List<Text>>,
    schema: &Schema,
    kind: Option<u32>,
    left: u32,
    name: &Text,
    elements: &List<Element>,
) -> Result<(Filter, u32), FilterDocFault>
    ensures { GivesBut OutOfMemory (λ x. x) result
        (one name.now elements.now (map
        (operator_of (option_copied parameters.entry) schema.now kind) elements.now) left) }
{
    match elements.items() {
        [] => Err(misplaced(alloc, name.as_str())),
        [first, rest @ ..] => {
            let found = operator_of(alloc, parameters, schema, kind, left, first)?;
            and_no_more(alloc, found, rest)
        }
    }
}

// The operator of an element, and how many may stand behind it, where so many may stand from it on.
#[cycle(operator)]
#[tactic(auto, using(crate::proofs::Readings::operator_is), unfolding(crate::specs::Filters::operator_by, crate::specs::Filters::operation))]
fn operator_of(
    alloc: Global,
    parameters: Option<&List<Text>>,
    schema: &Schema,
    kind: Option<u32>,
    left: u32,
    element: &Element,
) -> Result<(Filter, u32), FilterDocFault>
    ensures { GivesBut OutOfMemory (λ x. x) result
        (operator_of (option_copied parameters.entry) schema.now kind element.now left) }
{
    let operator = operator_in(alloc, &element.name)?;
    let left = counted(alloc, left)?;
    let name = &element.name.local;
    let children = &element.children;
    match operator {
        Operator::And => {
            no_others(alloc, element, &[])?;
            let (parts, left) = several(alloc, parameters, schema, kind, left, name, children)?;
            Ok((Filter::Both(parts), left))
        }
        Operator::Or => {
            no_others(alloc, element, &[])?;
            let (parts, left) = several(alloc, parameters, schema, kind, left, name, children)?;
            Ok((Filter::Either(parts), left))
        }
        Operator::Not => {
            no_others(alloc, element, &[])?;
            let (part, left) = one(alloc, parameters, schema, kind, left, name, children)?;
            Ok((Filter::Not(Boxed::new(alloc, part)?), left))
        }
        Operator::Predicate(predicate) => {
            let filter = predicate_of(alloc, parameters, schema, kind, element, predicate)?;
            Ok((filter, left))
        }
    }
}

// One operator, and nothing behind it.
#[tactic(auto, unfolding(crate::specs::Filters::content_from))]
fn content_from(
    alloc: Global,
    parameters: Option<&List<Text>>,
    schema: &Schema,
    kind: Option<u32>,
    first: &Element,
    rest: &[Element],
) -> Result<Filter, FilterDocFault>
    ensures { GivesBut OutOfMemory (λ x. x) result
        (content_from (option_copied parameters.entry) schema.now kind first.now rest.now) }
{
    let (filter, _) = operator_of(alloc, parameters, schema, kind, MOST_OPERATORS, first)?;
    and_no_more(alloc, filter, rest)
}

fn ids_in(
    alloc: Global,
    parameters: Option<&List<Text>>,
    schema: &Schema,
    elements: &[Element],
) -> Result<Filter, FilterDocFault>
    ensures { GivesBut OutOfMemory (λ x. x) result
        (ids_in (option_copied parameters.entry) schema.now elements.now) }
{
    let ids = ids_of(alloc, parameters, schema, elements)?;
    Ok(Filter::Ids(List::of(ids)))
}

fn content_of(
    alloc: Global,
    parameters: Option<&List<Text>>,
    schema: &Schema,
    kind: Option<u32>,
    whole: &Element,
    elements: &[Element],
) -> Result<Filter, FilterDocFault>
    ensures { GivesBut OutOfMemory (λ x. x) result
        (content_of (option_copied parameters.entry) schema.now kind whole.now elements.now) }
{
    let (first, rest) = first_in(alloc, whole, elements)?;
    if is_fes(first, "ResourceId") {
        return ids_in(alloc, parameters, schema, elements);
    }
    content_from(alloc, parameters, schema, kind, first, rest)
}

#[tactic(auto, unfolding(crate::specs::Filters::filter_of))]
fn filter_of(
    alloc: Global,
    parameters: Option<&List<Text>>,
    schema: &Schema,
    kind: Option<u32>,
    element: &Element,
) -> Result<Filter, FilterDocFault>
    ensures { GivesBut OutOfMemory (λ x. x) result
        (filter_of (option_copied parameters.entry) schema.now kind element.now) }
{
    if !is_fes(element, "Filter") {
        return Err(missing(alloc, element));
    }
    no_others(alloc, element, &[])?;
    content_of(
        alloc,
        parameters,
        schema,
        kind,
        element,
        element.children.items(),
    )
}

/// The filter of an element `fes:Filter` (OGC 09-026r2, section 7) for a type of the schema by its number, or for no type,
/// which has no properties. It holds one operator, or one or more `fes:ResourceId`, of which one is enough.
///
/// The operators are `And` and `Or`, which hold two operators or more; `Not`, which holds one; `PropertyIsEqualTo`,
/// `PropertyIsNotEqualTo`, `PropertyIsLessThan`, `PropertyIsGreaterThan`, `PropertyIsLessThanOrEqualTo` and
/// `PropertyIsGreaterThanOrEqualTo`, which hold two of `ValueReference` and `Literal` and at least one `ValueReference`;
/// `PropertyIsLike`, which holds a reference to a property of texts and a literal, and has `wildCard`, `singleChar` and
/// `escapeChar`; `PropertyIsNull`; `PropertyIsBetween`, which holds a reference, `LowerBoundary` and `UpperBoundary`;
/// `BBOX`, which holds at most one reference and a `gml:Envelope`; `Intersects` and `Disjoint`, which hold a reference
/// and a geometry; and `ResourceId`, which has `rid`. A literal is read as the kind of the property beside it, of any
/// length. A name of a property may have a prefix, which is not judged. An identifier that names no feature there could
/// be is `Nobody`.
///
/// Each element is judged in this order, and the first fault is answered: its name; its listed attributes in the order
/// above; other attributes in no namespace, of which the first by name is told; its children in document order; and then
/// those that are missing. The operators whose names begin with `PropertyIs` may have `matchCase`, which is judged before
/// their other attributes: `true` changes nothing, and `false` is read where texts are compared for equality, which is
/// judged when the sides are known.
///
/// - `Operator`: an element that is none of the operators where one is expected; an attribute that is not listed, or a
///   `matchAction` that has none of its values.
/// - `Shape`: an element where it is not allowed, or one that is missing; also a missing `rid`, `wildCard`, `singleChar`
///   or `escapeChar`.
/// - `Geometry`: what `gml_docs` says of an Envelope or a geometry.
/// - `Checked`: `Unknown`, a property that the type has not; `Types`, a property or a literal of another kind than the
///   operator or the property beside it asks for; `Choice`, a `matchCase` that is neither `true` nor, where texts are compared
///   for equality, `false`, or `wildCard`, `singleChar` and `escapeChar` that are not three different characters, or an escape at the end of a
///   pattern; `TooLarge`, the 1,001st operator.
/// - `OutOfMemory`: there is no memory for the filter.
pub fn read_filter(
    alloc: Global,
    element: &Element,
    kind: Option<u32>,
    schema: &Schema,
) -> Result<Filter, FilterDocFault>
    ensures { GivesBut OutOfMemory (λ x. x) result (filter_of None schema.now kind element.now) }
{
    filter_of(alloc, None, schema, kind, element)
}

/// The filter of an element of a stored text, as `read_filter` reads it, but that a text `${name}`, with one character or
/// more between the braces, stands for a parameter where it is a `rid`, or a literal that is not `PropertyIsLike`'s. It
/// is read as the place of the first of the parameters with this name.
///
/// The faults are those of `read_filter`, and `Undeclared`: there is no such parameter. It is judged where the text
/// stands.
pub fn read_filter_in(
    alloc: Global,
    element: &Element,
    kind: Option<u32>,
    parameters: &List<Text>,
    schema: &Schema,
) -> Result<Filter, FilterDocFault>
    ensures { GivesBut OutOfMemory (λ x. x) result
        (filter_of (Some parameters.now) schema.now kind element.now) }
{
    filter_of(alloc, Some(parameters), schema, kind, element)
}
