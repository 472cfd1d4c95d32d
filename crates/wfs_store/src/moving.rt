//! A store may be moved between threads.

ghost use denote.Param.Send.{IsSend};
ghost use Rattle.wfs_store.specs.contracts.store.Store.{the_row as store_row};

use crate::store::Store;
use disk_core::Disk;

/// A store may be moved to another thread where its disks may.
pub fn may_move<D: Disk>(_store: &Store<D>)
    ensures { IsSend D.row → IsSend (store_row D.row D.Disk) }
{}
