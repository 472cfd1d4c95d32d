//! Why a journal is not opened.

ghost use Rattle.std.specs.Prelude.{◌≡◌};
ghost use Rattle.durable_journal.specs.Faults.{from_recovery, from_checkpoint, from_append};

use checkpoints::CompactFault;
use feature_journal::AppendFault;
use recovery::{Place, RecoverFault};
use thiserror::Error;

/// Why a journal was not opened, or not looked at.
#[derive(Clone, Copy, Debug, PartialEq, Eq, Error)]
pub enum OpenFault {
    /// A disk failed.
    #[error("a disk failed")]
    DiskFault,
    /// A side is no journal's, at this place.
    #[error("a side is no journal's at byte {at}", at = .0.at)]
    NotAJournal(Place),
    /// The record of this number, from 0, is none of the schema, or does not fit behind those before it.
    #[error("record {0} is none of the schema, or does not fit behind those before it")]
    NotOfSchema(u64),
    /// A length above the limit: the one that was read so far, or the one that the new side, the checkpoint or the record
    /// of the opening would make. Or the last number of an opening, or of a generation, where no greater one is left.
    #[error("a length or a number is above its limit: {0}")]
    Full(u64),
    #[error("out of memory")]
    OutOfMemory,
}

pub(crate) fn from_recovery(fault: RecoverFault) -> OpenFault
    ensures { result ≡ from_recovery fault }
{
    match fault {
        RecoverFault::DiskFault => OpenFault::DiskFault,
        RecoverFault::NotAJournal(place) => OpenFault::NotAJournal(place),
        RecoverFault::NotOfSchema(number) => OpenFault::NotOfSchema(number),
        RecoverFault::Full(sum) => OpenFault::Full(sum),
        RecoverFault::OutOfMemory => OpenFault::OutOfMemory,
    }
}

pub(crate) fn from_checkpoint(fault: CompactFault) -> OpenFault
    ensures { result ≡ from_checkpoint fault }
{
    match fault {
        CompactFault::DiskFault => OpenFault::DiskFault,
        CompactFault::Full(sum) => OpenFault::Full(sum),
        CompactFault::OutOfMemory => OpenFault::OutOfMemory,
    }
}

pub(crate) fn from_append(fault: AppendFault) -> OpenFault
    ensures { result ≡ from_append fault }
{
    match fault {
        AppendFault::DiskFault => OpenFault::DiskFault,
        AppendFault::Full(sum) => OpenFault::Full(sum),
    }
}
