//! Why a document could not be read.

ghost use Rattle.std.specs.Prelude.{◌≡◌};
ghost use Rattle.doc_read.specs.declared.fault.DocFault.TheVariants.{OutOfMemory};

use std::alloc::{AllocError, AllocFailed};
use thiserror::Error;

/// Why bytes spell no tree: the first fault in document order. An item that breaks several rules has the first of
/// `Doctype`, `Malformed`, `Prefix`, `TooDeep`, `TooMany`.
#[derive(Clone, Copy, Debug, PartialEq, Eq, Error)]
pub enum DocFault {
    /// The bytes are no UTF-8, or hold a character that XML 1.0 (2.2) does not allow. This is judged first, over the
    /// whole document.
    #[error("the bytes are no text of XML")]
    NotText,
    /// An item does not have its form, or the document ends too early.
    #[error("an item does not have its form, or the document ends too early")]
    Malformed,
    /// A name has a prefix that no declaration in scope declares (Namespaces in XML 1.0, 5).
    #[error("a name has a prefix that is not declared")]
    Prefix,
    /// A document type declaration, which this project does not read (XML 1.0, 2.8).
    #[error("a document type declaration is not read")]
    Doctype,
    /// An element stands in more than 31 others.
    #[error("an element stands in more than 31 others")]
    TooDeep,
    /// The 100,001st element, or the 65th attribute of an element.
    #[error("over 100,000 elements, or over 64 attributes of one")]
    TooMany,
    /// Memory ran out.
    #[error("out of memory")]
    OutOfMemory,
}

impl From<AllocError> for DocFault {
    ghost from_gives = { λ _ e. e ≡ OutOfMemory };

    fn from(_e: AllocError) -> DocFault {
        DocFault::OutOfMemory
    }
}

impl<T: Drop> From<AllocFailed<T>> for DocFault {
    ghost from_gives = { λ _ e. e ≡ OutOfMemory };

    fn from(_e: AllocFailed<T>) -> DocFault {
        DocFault::OutOfMemory
    }
}

impl From<wfs_ends::OutOfMemory> for DocFault {
    ghost from_gives = { λ _ e. e ≡ OutOfMemory };

    fn from(_e: wfs_ends::OutOfMemory) -> DocFault {
        DocFault::OutOfMemory
    }
}
