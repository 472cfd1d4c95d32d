//! What is wrong first with a filter for a feature type.

ghost use Rattle.std.specs.Prelude.{◌≡◌, map, flat_map, ◌∷◌, [], Ok};
ghost use Rattle.std.specs.Option.{option_copied};
ghost use Rattle.wfs_ends.specs.Read.{each};
ghost use Rattle.fes_filter.specs.Check.{subject, compared, compare_fault, between_fault, null_fault, like_fault, shape_fault, box_fault, counted, verdicts, check_of, most_operators};

use crate::expr::{By, Expr};
use crate::fault::FilterFault;
use crate::filter::Filter;
use crate::kinds::{
    is_comparable, is_equality, is_shape, is_suited, is_words, kind_of, known, type_in, wanted,
};
use feature_values::{FeatureType, Schema};
use wfs_ends::List;

/// How many operators a filter has at most.
pub const MOST_OPERATORS: u32 = 1_000;

/// The property of a comparison, the first if both sides are one.
fn subject(left: &Expr, right: &Expr) -> Option<u32>
    ensures { result ≡ subject left.now right.now }
{
    match (left, right) {
        (Expr::Property(property), _) => Some(*property),
        (_, Expr::Property(property)) => Some(*property),
        _ => None,
    }
}

/// The sides of a comparison whose properties are known.
#[tactic(auto, unfolding(crate::specs::Check::compared))]
fn compared(
    of_type: Option<&FeatureType>,
    by: By,
    left: &Expr,
    right: &Expr,
    fold: bool,
) -> Result<(), FilterFault>
    ensures { result ≡ compared (option_copied of_type.entry) by left.now right.now fold
        (subject left.now right.now) }
{
    let Some(property) = subject(left, right) else {
        return Err(FilterFault::Types);
    };
    let kind = kind_of(of_type, property)?;
    wanted(
        is_comparable(by, kind)
            && (is_suited(of_type, kind, left) && is_suited(of_type, kind, right)),
        FilterFault::Types,
    )?;
    wanted(
        !fold || (is_words(kind) && is_equality(by)),
        FilterFault::Choice,
    )
}

#[tactic(auto, unfolding(crate::specs::Check::compare_fault))]
fn compare_fault(
    of_type: Option<&FeatureType>,
    by: By,
    left: &Expr,
    right: &Expr,
    fold: bool,
) -> Result<(), FilterFault>
    ensures { result ≡ compare_fault (option_copied of_type.entry) by left.now right.now fold }
{
    known(of_type, left)?;
    known(of_type, right)?;
    compared(of_type, by, left, right, fold)
}

#[tactic(auto, unfolding(crate::specs::Check::between_fault))]
fn between_fault(
    of_type: Option<&FeatureType>,
    property: u32,
    low: &Expr,
    high: &Expr,
) -> Result<(), FilterFault>
    ensures { result ≡ between_fault (option_copied of_type.entry) property low.now high.now }
{
    let kind = kind_of(of_type, property)?;
    known(of_type, low)?;
    known(of_type, high)?;
    wanted(
        is_comparable(By::Less, kind)
            && (is_suited(of_type, kind, low) && is_suited(of_type, kind, high)),
        FilterFault::Types,
    )
}

#[tactic(auto, unfolding(crate::specs::Check::null_fault))]
fn null_fault(of_type: Option<&FeatureType>, property: u32) -> Result<(), FilterFault>
    ensures { result ≡ null_fault (option_copied of_type.entry) property }
{
    kind_of(of_type, property)?;
    Ok(())
}

#[tactic(auto, unfolding(crate::specs::Check::like_fault))]
fn like_fault(of_type: Option<&FeatureType>, property: u32) -> Result<(), FilterFault>
    ensures { result ≡ like_fault (option_copied of_type.entry) property }
{
    let kind = kind_of(of_type, property)?;
    wanted(is_words(kind), FilterFault::Types)
}

#[tactic(auto, unfolding(crate::specs::Check::shape_fault))]
fn shape_fault(of_type: Option<&FeatureType>, property: u32) -> Result<(), FilterFault>
    ensures { result ≡ shape_fault (option_copied of_type.entry) property }
{
    let kind = kind_of(of_type, property)?;
    wanted(is_shape(kind), FilterFault::Types)
}

fn box_fault(of_type: Option<&FeatureType>, property: Option<u32>) -> Result<(), FilterFault>
    ensures { result ≡ box_fault (option_copied of_type.entry) property }
{
    match property {
        None => Ok(()),
        Some(property) => shape_fault(of_type, property),
    }
}

/// Counts an operator, and looks at what is wrong with it. So many operators may stand from it on.
#[tactic(auto, unfolding(crate::specs::Check::counted))]
fn counted(left: u32, verdict: Result<(), FilterFault>) -> Result<u32, FilterFault>
    ensures { result ≡ counted left verdict }
{
    if left == 0 {
        return Err(FilterFault::TooLarge);
    }
    verdict?;
    Ok(left - 1)
}

/// The same, where nothing stands in the operator.
#[tactic(auto, using(crate::proofs::Verdicts::one_verdict))]
fn judged(left: u32, verdict: Result<(), FilterFault>) -> Result<u32, FilterFault>
    ensures { result ≡ each counted left (verdict ∷ []) }
{
    counted(left, verdict)
}

/// How many operators may stand behind a filter, where so many may stand from it on.
#[cycle(check_from)]
fn check_from(of_type: Option<&FeatureType>, left: u32, filter: &Filter) -> Result<u32, FilterFault>
    ensures { result ≡ each counted left (verdicts (option_copied of_type.entry) filter.now) }
{
    match filter {
        Filter::Both(parts) => check_parts(of_type, left, parts),
        Filter::Either(parts) => check_parts(of_type, left, parts),
        Filter::Not(part) => check_part(of_type, left, part.item()),
        Filter::Compare {
            by,
            left: first,
            right,
            fold,
        } => judged(left, compare_fault(of_type, *by, first, right, *fold)),
        Filter::Like { property, .. } => judged(left, like_fault(of_type, *property)),
        Filter::IsNull(property) => judged(left, null_fault(of_type, *property)),
        Filter::Between {
            property,
            low,
            high,
        } => judged(left, between_fault(of_type, *property, low, high)),
        Filter::Ids(_) => judged(left, Ok(())),
        Filter::InBox { property, .. } => judged(left, box_fault(of_type, *property)),
        Filter::Meets { property, .. } => judged(left, shape_fault(of_type, *property)),
        Filter::Apart { property, .. } => judged(left, shape_fault(of_type, *property)),
    }
}

/// The operator that one filter is the part of, and this part.
#[cycle(check_from)]
#[tactic(auto, using(crate::proofs::Verdicts::first_verdict))]
fn check_part(of_type: Option<&FeatureType>, left: u32, part: &Filter) -> Result<u32, FilterFault>
    ensures { result ≡ each counted left (Ok tt ∷ verdicts (option_copied of_type.entry) part.now) }
{
    let left = counted(left, Ok(()))?;
    check_from(of_type, left, part)
}

/// The operator that these are the parts of, and its parts.
#[cycle(check_from)]
fn check_parts(
    of_type: Option<&FeatureType>,
    left: u32,
    parts: &List<Filter>,
) -> Result<u32, FilterFault>
    ensures { result ≡ each counted left (Ok tt
        ∷ flat_map (λ part. part) (map (verdicts (option_copied of_type.entry)) parts.now)) }
{
    let mut left = counted(left, Ok(()))?;
    for part in parts.items() {
        left = check_from(of_type, left, part)?;
    }
    Ok(left)
}

/// Whether a type of the schema, or no type, allows a filter; else the first fault. The operators are judged in document
/// order, an operator before its parts. The 1,001st is `TooLarge`, whatever stands in it. Of the faults of one operator the
/// first of `Unknown`, `Types` and `Choice` counts. It takes no memory.
///
/// - `Unknown`: a property that the type has not. No type, and a type that the schema has not, have none.
/// - `Types`: in `Compare` and `Between`, values, literals or properties of two kinds, geometries, an order on truth
///   values, or no property at all; in `Like`, a property that is no text; in `InBox`, `Meets` and `Apart`, one that is no
///   geometry. A parameter is of the kind that its place asks for. A null is no literal.
/// - `Choice`: `fold` where texts are not compared for equality.
/// - `TooLarge`: more than 1,000 operators.
#[tactic(auto, unfolding(crate::specs::Check::check_of))]
pub fn check(filter: &Filter, kind: Option<u32>, schema: &Schema) -> Result<(), FilterFault>
    ensures { result ≡ check_of schema.now kind filter.now }
{
    check_from(type_in(schema, kind), MOST_OPERATORS, filter)?;
    Ok(())
}
