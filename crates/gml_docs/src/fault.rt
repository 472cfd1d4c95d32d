//! What can be wrong with the element of a geometry.

use geom_core::GeomFault;
use std::alloc::{AllocError, AllocFailed};
use thiserror::Error;
use wfs_ends::OutOfMemory;

/// What is wrong first with the element of a geometry.
#[derive(Clone, Copy, Debug, PartialEq, Eq, Error)]
pub enum GmlFault {
    /// An element stands where it is not allowed, or one is missing.
    #[error("an element is not allowed there, or is missing")]
    Kind,
    /// A text writes no numbers, an odd number of them, or not two where one position is asked for.
    #[error("a text writes no numbers, or not as many as are asked for")]
    Number,
    /// The reference system is none of those that are known, or positions have not two coordinates.
    #[error("the reference system is not known, or has not two coordinates")]
    Srs,
    /// The positions make no such shape.
    #[error("the positions make no such shape: {0}")]
    Shape(GeomFault),
    /// There is no memory for the geometry.
    #[error("out of memory")]
    OutOfMemory,
}

impl From<GeomFault> for GmlFault {
    ghost use Rattle.std.specs.Prelude.{◌≡◌};
    ghost use Rattle.gml_docs.specs.declared.fault.GmlFault.TheVariants.{Shape};

    ghost from_gives = { λ fault found. found ≡ Shape fault };

    fn from(fault: GeomFault) -> GmlFault {
        GmlFault::Shape(fault)
    }
}

impl From<OutOfMemory> for GmlFault {
    ghost use Rattle.std.specs.Prelude.{◌≡◌};
    ghost use Rattle.gml_docs.specs.declared.fault.GmlFault.TheVariants.{OutOfMemory as NoMemory};

    ghost from_gives = { λ _ fault. fault ≡ NoMemory };

    fn from(_: OutOfMemory) -> GmlFault {
        GmlFault::OutOfMemory
    }
}

impl From<AllocError> for GmlFault {
    ghost use Rattle.std.specs.Prelude.{◌≡◌};
    ghost use Rattle.gml_docs.specs.declared.fault.GmlFault.TheVariants.{OutOfMemory as NoMemory};

    ghost from_gives = { λ _ fault. fault ≡ NoMemory };

    fn from(_: AllocError) -> GmlFault {
        GmlFault::OutOfMemory
    }
}

impl<T: Drop> From<AllocFailed<T>> for GmlFault {
    ghost use Rattle.std.specs.Prelude.{◌≡◌};
    ghost use Rattle.gml_docs.specs.declared.fault.GmlFault.TheVariants.{OutOfMemory as NoMemory};

    ghost from_gives = { λ _ fault. fault ≡ NoMemory };

    fn from(_: AllocFailed<T>) -> GmlFault {
        GmlFault::OutOfMemory
    }
}
