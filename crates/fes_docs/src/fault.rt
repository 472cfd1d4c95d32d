//! What is wrong first with the element of a filter.

ghost use Rattle.std.specs.Prelude.{◌≡◌};
ghost use Rattle.fes_docs.specs.Names.{refusal_of, geometry_fault};
ghost use Rattle.fes_docs.specs.declared.fault.FilterDocFault.TheVariants.{Operator, Shape, Checked, Undeclared, OutOfMemory as NoMemory};

use fes_filter::FilterFault;
use gml_docs::GmlFault;
use std::alloc::{AllocError, AllocFailed, Global};
use thiserror::Error;
use wfs_ends::{OutOfMemory, Text};

/// What is wrong first with the element of a filter.
#[derive(Debug, PartialEq, Eq, Drop, Error)]
pub enum FilterDocFault {
    /// Where an operator is expected stands an element that is none, or an attribute is unknown or has a value that is
    /// none of its values: the local name.
    #[error("{name} is no operator, attribute or value that stands there", name = .0.as_str())]
    Operator(Text),
    /// An element stands where it is not allowed: its local name. Or an element or an attribute that has to be there is
    /// missing: the local name of the element that wants it.
    #[error("{name} is not allowed there, or wants what is missing", name = .0.as_str())]
    Shape(Text),
    /// What is wrong first with a geometry or an Envelope.
    #[error("bad geometry: {0}")]
    Geometry(GmlFault),
    /// The feature type does not allow it: with the name of the property as it was given for `Unknown` and `Types`, and
    /// with `matchCase`, `escapeChar` or `Filter` for `Choice` and `TooLarge`.
    #[error("{fault}: {name}", fault = .0, name = .1.as_str())]
    Checked(FilterFault, Text),
    /// A parameter of this name is not declared.
    #[error("no parameter {name} is declared", name = .0.as_str())]
    Undeclared(Text),
    /// There is no memory for the filter.
    #[error("out of memory")]
    OutOfMemory,
}

impl FilterDocFault {
    /// The row of the service's table of refusals, and the locator that it names: row 8 (misplaced or malformed), 10 (a
    /// value is missing), 11 (a value is refused), 12 (an option is refused) or 27 (no memory).
    #[tactic(auto, unfolding(crate::specs::Names::refusal_of))]
    pub fn refusal(&self) -> (u8, &str)
        ensures { (result.0, result.1.now) ≡ refusal_of self.now }
    {
        match self {
            FilterDocFault::Operator(name) => (12, name.as_str()),
            FilterDocFault::Shape(name) => (8, name.as_str()),
            FilterDocFault::Geometry(GmlFault::Srs) => (11, "srsName"),
            FilterDocFault::Geometry(_) => (8, "Filter"),
            FilterDocFault::Checked(FilterFault::Unknown | FilterFault::Types, name) => {
                (11, name.as_str())
            }
            FilterDocFault::Checked(FilterFault::Choice | FilterFault::TooLarge, name) => {
                (12, name.as_str())
            }
            FilterDocFault::Undeclared(name) => (10, name.as_str()),
            FilterDocFault::OutOfMemory => (27, "memory"),
        }
    }
}

pub(crate) fn no_operator(alloc: Global, name: &str) -> FilterDocFault
    ensures { (result ≡ NoMemory → ⊥) → result ≡ Operator name.now }
{
    match Text::of(alloc, name) {
        Ok(name) => FilterDocFault::Operator(name),
        Err(OutOfMemory) => FilterDocFault::OutOfMemory,
    }
}

pub(crate) fn misplaced(alloc: Global, name: &str) -> FilterDocFault
    ensures { (result ≡ NoMemory → ⊥) → result ≡ Shape name.now }
{
    match Text::of(alloc, name) {
        Ok(name) => FilterDocFault::Shape(name),
        Err(OutOfMemory) => FilterDocFault::OutOfMemory,
    }
}

pub(crate) fn checked(alloc: Global, fault: FilterFault, name: &str) -> FilterDocFault
    ensures { (result ≡ NoMemory → ⊥) → result ≡ Checked fault name.now }
{
    match Text::of(alloc, name) {
        Ok(name) => FilterDocFault::Checked(fault, name),
        Err(OutOfMemory) => FilterDocFault::OutOfMemory,
    }
}

pub(crate) fn undeclared(alloc: Global, name: &str) -> FilterDocFault
    ensures { (result ≡ NoMemory → ⊥) → result ≡ Undeclared name.now }
{
    match Text::of(alloc, name) {
        Ok(name) => FilterDocFault::Undeclared(name),
        Err(OutOfMemory) => FilterDocFault::OutOfMemory,
    }
}

impl From<GmlFault> for FilterDocFault {
    ghost use Rattle.std.specs.Prelude.{◌≡◌};
    ghost use Rattle.fes_docs.specs.Names.{geometry_fault};

    ghost from_gives = { λ fault found. found ≡ geometry_fault fault };

    fn from(fault: GmlFault) -> FilterDocFault {
        match fault {
            GmlFault::OutOfMemory => FilterDocFault::OutOfMemory,
            fault => FilterDocFault::Geometry(fault),
        }
    }
}

impl From<OutOfMemory> for FilterDocFault {
    ghost use Rattle.std.specs.Prelude.{◌≡◌};
    ghost use Rattle.fes_docs.specs.declared.fault.FilterDocFault.TheVariants.{OutOfMemory as NoMemory};

    ghost from_gives = { λ _ fault. fault ≡ NoMemory };

    fn from(_: OutOfMemory) -> FilterDocFault {
        FilterDocFault::OutOfMemory
    }
}

impl From<AllocError> for FilterDocFault {
    ghost use Rattle.std.specs.Prelude.{◌≡◌};
    ghost use Rattle.fes_docs.specs.declared.fault.FilterDocFault.TheVariants.{OutOfMemory as NoMemory};

    ghost from_gives = { λ _ fault. fault ≡ NoMemory };

    fn from(_: AllocError) -> FilterDocFault {
        FilterDocFault::OutOfMemory
    }
}

impl<T: Drop> From<AllocFailed<T>> for FilterDocFault {
    ghost use Rattle.std.specs.Prelude.{◌≡◌};
    ghost use Rattle.fes_docs.specs.declared.fault.FilterDocFault.TheVariants.{OutOfMemory as NoMemory};

    ghost from_gives = { λ _ fault. fault ≡ NoMemory };

    fn from(_: AllocFailed<T>) -> FilterDocFault {
        FilterDocFault::OutOfMemory
    }
}
