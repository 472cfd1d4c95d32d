//! The operations of the service, by their names.

ghost use Rattle.std.specs.Prelude.{◌≡◌, find};
ghost use Rattle.wfs_ends.specs.Read.{GivesBut};
ghost use Rattle.request_parameters.specs.Operations.{is_named, operations, name_of, comes_as_query, operation_of, queried_of};

use crate::said::{Given, or_refused};
use std::alloc::Global;
use wfs_model::{AskFault, refused};

/// An operation of the service (OGC 09-025r2, section 7.2).
#[derive(Clone, Copy, Debug, PartialEq, Eq)]
pub enum Operation {
    GetCapabilities,
    DescribeFeatureType,
    GetPropertyValue,
    GetFeature,
    GetFeatureWithLock,
    LockFeature,
    Transaction,
    ListStoredQueries,
    DescribeStoredQueries,
    CreateStoredQuery,
    DropStoredQuery,
}

impl Operation {
    /// Its name: of the root of its document, and of the parameter `request` of a query.
    pub fn name(self) -> &'static str
        ensures { result.now ≡ name_of self }
    {
        match self {
            Operation::GetCapabilities => "GetCapabilities",
            Operation::DescribeFeatureType => "DescribeFeatureType",
            Operation::GetPropertyValue => "GetPropertyValue",
            Operation::GetFeature => "GetFeature",
            Operation::GetFeatureWithLock => "GetFeatureWithLock",
            Operation::LockFeature => "LockFeature",
            Operation::Transaction => "Transaction",
            Operation::ListStoredQueries => "ListStoredQueries",
            Operation::DescribeStoredQueries => "DescribeStoredQueries",
            Operation::CreateStoredQuery => "CreateStoredQuery",
            Operation::DropStoredQuery => "DropStoredQuery",
        }
    }

    /// Whether it may come as a query of a GET: all but Transaction and CreateStoredQuery may.
    pub fn comes_as_query(self) -> bool
        ensures { result ≡ comes_as_query self }
    {
        match self {
            Operation::Transaction | Operation::CreateStoredQuery => false,
            _ => true,
        }
    }

    // The operation of this name.
    fn named(name: &str) -> Option<Operation>
        ensures { result ≡ find (is_named name.now) operations }
    {
        match name {
            "GetCapabilities" => Some(Operation::GetCapabilities),
            "DescribeFeatureType" => Some(Operation::DescribeFeatureType),
            "GetPropertyValue" => Some(Operation::GetPropertyValue),
            "GetFeature" => Some(Operation::GetFeature),
            "GetFeatureWithLock" => Some(Operation::GetFeatureWithLock),
            "LockFeature" => Some(Operation::LockFeature),
            "Transaction" => Some(Operation::Transaction),
            "ListStoredQueries" => Some(Operation::ListStoredQueries),
            "DescribeStoredQueries" => Some(Operation::DescribeStoredQueries),
            "CreateStoredQuery" => Some(Operation::CreateStoredQuery),
            "DropStoredQuery" => Some(Operation::DropStoredQuery),
            _ => None,
        }
    }
}

/// The operation of a name, whose case counts. A name of none is row 9 with the name.
#[tactic(auto, unfolding(crate::specs::Operations::operation_of))]
pub fn operation_of(alloc: Global, name: &str) -> Result<Operation, AskFault>
    ensures { GivesBut AskFault.OutOfMemory (λ operation. operation) result
        (operation_of name.now) }
{
    or_refused(alloc, Operation::named(name), 9, name)
}

/// The operation that a query asks for, by `request`, which has to be there (row 10). A name of no operation, or of one that may
/// not come as a query, is row 9 with the name.
#[tactic(auto, unfolding(crate::specs::Operations::queried_of, crate::specs::Said::required_of, wfs_ends::specs::Read::unless))]
pub fn queried_of<G: Given>(alloc: Global, given: &G) -> Result<Operation, AskFault>
    ensures { GivesBut AskFault.OutOfMemory (λ operation. operation) result
        (queried_of (G.said given.now)) }
{
    let Some(name) = given.value_of("request") else {
        return Err(refused(alloc, 10, "request"));
    };
    let operation = operation_of(alloc, name.as_str())?;
    if !operation.comes_as_query() {
        return Err(refused(alloc, 9, name.as_str()));
    }
    Ok(operation)
}
