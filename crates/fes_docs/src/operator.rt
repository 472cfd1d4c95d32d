//! The operators of filters by the names of their elements.

ghost use Rattle.std.specs.Prelude.{◌≡◌};
ghost use Rattle.wfs_ends.specs.Read.{GivesBut};
ghost use Rattle.fes_docs.specs.Operators.{comparison_named, predicate_named, operator_named, operator_in};
ghost use Rattle.fes_docs.specs.declared.fault.FilterDocFault.TheVariants.{OutOfMemory};

use crate::element::FES;
use crate::fault::{FilterDocFault, no_operator};
use doc_tree::QName;
use fes_filter::By;
use std::alloc::Global;

/// An operator in which none stands.
#[derive(Clone, Copy, Debug, PartialEq, Eq)]
pub enum Predicate {
    Compare(By),
    Like,
    Null,
    Between,
    Bbox,
    Intersects,
    Disjoint,
    ResourceId,
}

/// An operator, as its element names it.
#[derive(Clone, Copy, Debug, PartialEq, Eq)]
pub enum Operator {
    And,
    Or,
    Not,
    Predicate(Predicate),
}

#[tactic(auto, unfolding(crate::specs::Operators::comparison_named))]
fn comparison_named(name: &str) -> Option<By>
    ensures { result ≡ comparison_named name.now }
{
    if name == "PropertyIsEqualTo" {
        return Some(By::Equal);
    }
    if name == "PropertyIsNotEqualTo" {
        return Some(By::NotEqual);
    }
    if name == "PropertyIsLessThan" {
        return Some(By::Less);
    }
    if name == "PropertyIsGreaterThan" {
        return Some(By::Greater);
    }
    if name == "PropertyIsLessThanOrEqualTo" {
        return Some(By::LessEqual);
    }
    if name == "PropertyIsGreaterThanOrEqualTo" {
        return Some(By::GreaterEqual);
    }
    None
}

#[tactic(auto, unfolding(crate::specs::Operators::predicate_named))]
fn predicate_named(name: &str) -> Option<Predicate>
    ensures { result ≡ predicate_named name.now }
{
    if name == "PropertyIsLike" {
        return Some(Predicate::Like);
    }
    if name == "PropertyIsNull" {
        return Some(Predicate::Null);
    }
    if name == "PropertyIsBetween" {
        return Some(Predicate::Between);
    }
    if name == "BBOX" {
        return Some(Predicate::Bbox);
    }
    if name == "Intersects" {
        return Some(Predicate::Intersects);
    }
    if name == "Disjoint" {
        return Some(Predicate::Disjoint);
    }
    if name == "ResourceId" {
        return Some(Predicate::ResourceId);
    }
    match comparison_named(name) {
        None => None,
        Some(by) => Some(Predicate::Compare(by)),
    }
}

#[tactic(auto, unfolding(crate::specs::Operators::operator_named))]
fn operator_named(name: &str) -> Option<Operator>
    ensures { result ≡ operator_named name.now }
{
    if name == "And" {
        return Some(Operator::And);
    }
    if name == "Or" {
        return Some(Operator::Or);
    }
    if name == "Not" {
        return Some(Operator::Not);
    }
    match predicate_named(name) {
        None => None,
        Some(predicate) => Some(Operator::Predicate(predicate)),
    }
}

// The operator that an element's name is.
#[tactic(auto, unfolding(crate::specs::Operators::operator_in))]
pub(crate) fn operator_in(alloc: Global, name: &QName) -> Result<Operator, FilterDocFault>
    ensures { GivesBut OutOfMemory (λ x. x) result (operator_in name.now) }
{
    if name.space.as_str() != FES {
        return Err(no_operator(alloc, name.local.as_str()));
    }
    match operator_named(name.local.as_str()) {
        None => Err(no_operator(alloc, name.local.as_str())),
        Some(operator) => Ok(operator),
    }
}
