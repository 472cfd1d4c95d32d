//! What can be wrong with a schema file.

ghost use Rattle.std.specs.Prelude.{◌≡◌};

use std::alloc::{AllocError, AllocFailed, Global};
use thiserror::Error;
use wfs_ends::{OutOfMemory, Text};

/// What is wrong first with a schema file.
#[derive(Debug, PartialEq, Eq, Drop, Error)]
pub enum SchemaFault {
    /// The bytes are no TOML document.
    #[error("the bytes are no TOML document")]
    NotToml,
    /// This key is missing, unknown, or has a value that it may not have.
    #[error("the key {key} is missing, unknown, or has a value that it may not have", key = .0.as_str())]
    Key(Text),
    /// The kind of the property of this name is none.
    #[error("the kind of the property {name} is none", name = .0.as_str())]
    Kind(Text),
    /// A second type, or a second property of one type, has this name.
    #[error("the name {name} stands twice", name = .0.as_str())]
    Twice(Text),
    /// There are more than 64 types, or more than 64 properties in one type.
    #[error("over 64 types, or over 64 properties in one type")]
    TooMany,
    /// There is no memory for the schema.
    #[error("out of memory")]
    OutOfMemory,
}

impl From<OutOfMemory> for SchemaFault {
    ghost use Rattle.feature_schema.specs.declared.fault.SchemaFault.TheVariants.{OutOfMemory as NoMemory};

    ghost from_gives = { λ _ fault. fault ≡ NoMemory };

    fn from(_: OutOfMemory) -> SchemaFault {
        SchemaFault::OutOfMemory
    }
}

impl From<AllocError> for SchemaFault {
    ghost use Rattle.feature_schema.specs.declared.fault.SchemaFault.TheVariants.{OutOfMemory as NoMemory};

    ghost from_gives = { λ _ fault. fault ≡ NoMemory };

    fn from(_: AllocError) -> SchemaFault {
        SchemaFault::OutOfMemory
    }
}

impl<T: Drop> From<AllocFailed<T>> for SchemaFault {
    ghost use Rattle.feature_schema.specs.declared.fault.SchemaFault.TheVariants.{OutOfMemory as NoMemory};

    ghost from_gives = { λ _ fault. fault ≡ NoMemory };

    fn from(_: AllocFailed<T>) -> SchemaFault {
        SchemaFault::OutOfMemory
    }
}

// The fault of a key. It names the key, so it takes memory.
pub(crate) fn bad_key(alloc: Global, key: &str) -> SchemaFault
    ensures { (result ≡ SchemaFault.OutOfMemory → ⊥) → result ≡ SchemaFault.Key key.now }
{
    match Text::of(alloc, key) {
        Ok(key) => SchemaFault::Key(key),
        Err(_) => SchemaFault::OutOfMemory,
    }
}

// The fault of a kind. It names the property.
pub(crate) fn bad_kind(alloc: Global, name: &str) -> SchemaFault
    ensures { (result ≡ SchemaFault.OutOfMemory → ⊥) → result ≡ SchemaFault.Kind name.now }
{
    match Text::of(alloc, name) {
        Ok(name) => SchemaFault::Kind(name),
        Err(_) => SchemaFault::OutOfMemory,
    }
}
