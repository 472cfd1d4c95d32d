//! Comparisons of values.

ghost use Rattle.std.specs.Prelude.{◌≡◌, IfOk, OnErr, IsTrue, false, chars, encode_utf8_all};
ghost use Rattle.std.specs.Option.{option_copied};
ghost use Rattle.caseless.specs.Caseless.{default_case_fold};
ghost use Rattle.feature_values.specs.Order.{order_of};
ghost use Rattle.fes_filter.specs.Truth.{folded, order_between, stands, is_compared, is_between};

use crate::expr::{By, Expr};
use crate::values::{property_of, value_of};
use caseless::default_case_fold_str;
use feature_values::{Feature, Value, compare};
use std::alloc::Global;
use std::cmp::Ordering;
use wfs_ends::{Mem, Text};

#[tactic(auto, unfolding(crate::specs::Truth::stands))]
fn stands(by: By, order: Option<Ordering>) -> bool
    ensures { result ≡ stands by order }
{
    let Some(order) = order else {
        return false;
    };
    match by {
        By::Equal => order.is_eq(),
        By::NotEqual => order.is_ne(),
        By::Less => order.is_lt(),
        By::Greater => order.is_gt(),
        By::LessEqual => order.is_le(),
        By::GreaterEqual => order.is_ge(),
    }
}

/// The default full case folding of a text.
fn folded_text(alloc: Global, text: &Text) -> Mem<Text>
    ensures { IfOk result (λ t. t ≡ encode_utf8_all (default_case_fold (chars text.now))) }
{
    Text::of_string(default_case_fold_str(alloc, text.as_str())?)
}

/// How two values stand to each other without their case.
fn folded_order(alloc: Global, a: &Value, b: &Value) -> Mem<Option<Ordering>>
    ensures { IfOk result (λ order. order ≡ order_of (folded a.now) (folded b.now)) }
{
    match (a, b) {
        (Value::Words(a), Value::Words(b)) => {
            let a = Value::Words(folded_text(alloc, a)?);
            let b = Value::Words(folded_text(alloc, b)?);
            Ok(compare(&a, &b))
        }
        _ => Ok(compare(a, b)),
    }
}

/// How two values stand to each other, with their case.
#[tactic(auto, unfolding(crate::specs::Truth::order_between))]
fn plain_order(a: Option<&Value>, b: Option<&Value>) -> Option<Ordering>
    ensures { result ≡ order_between false (option_copied a.entry) (option_copied b.entry) }
{
    match (a, b) {
        (Some(a), Some(b)) => compare(a, b),
        _ => None,
    }
}

/// How two values stand to each other, with their case or without it.
#[tactic(auto, unfolding(crate::specs::Truth::order_between))]
fn order_between(
    alloc: Global,
    fold: bool,
    a: Option<&Value>,
    b: Option<&Value>,
) -> Mem<Option<Ordering>>
    ensures value { IfOk result (λ order. order
        ≡ order_between fold (option_copied a.entry) (option_copied b.entry)) }
    ensures memory { OnErr result (IsTrue fold) }
{
    if !fold {
        return Ok(plain_order(a, b));
    }
    match (a, b) {
        (Some(a), Some(b)) => folded_order(alloc, a, b),
        _ => Ok(None),
    }
}

/// Whether the two sides of a comparison stand to each other as it asks for.
#[tactic(auto, unfolding(crate::specs::Truth::is_compared))]
pub fn is_compared(
    alloc: Global,
    feature: &Feature,
    by: By,
    left: &Expr,
    right: &Expr,
    fold: bool,
) -> Mem<bool>
    ensures value { IfOk result (λ b. b ≡ is_compared feature.now by left.now right.now fold) }
    ensures memory { OnErr result (IsTrue fold) }
{
    let order = order_between(
        alloc,
        fold,
        value_of(feature, left),
        value_of(feature, right),
    )?;
    Ok(stands(by, order))
}

/// Whether a property's value is in a range, its bounds included.
#[tactic(auto, unfolding(crate::specs::Truth::is_between))]
pub fn is_between(feature: &Feature, property: u32, low: &Expr, high: &Expr) -> bool
    ensures { result ≡ is_between feature.now property low.now high.now }
{
    let value = property_of(feature, property);
    stands(By::GreaterEqual, plain_order(value, value_of(feature, low)))
        && stands(By::LessEqual, plain_order(value, value_of(feature, high)))
}
