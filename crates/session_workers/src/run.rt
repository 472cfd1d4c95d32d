//! Workers in threads of their own.

ghost use Rattle.std.specs.Prelude.{ℕ, ◌<◌, length, slice_index_or};
ghost use Rattle.session_workers.specs.Workers.{HasWorked};

use crate::worker::Worker;
use service_doors::Acceptor;
use service_session::{Gate, Service};
use std::alloc::Global;
use std::thread;
use std::thread::Threads;
use wfs_ends::Clock;

/// Has each worker do its work in a thread of its own, and returns when all have ended. Where the system gives no thread, a
/// worker waits for one that runs before it. No memory is taken but that of the sessions, so no worker is left out.
pub fn run_workers<
    R: Threads + Sync,
    S: Service + Send,
    A: Acceptor + Send,
    C: Clock + Send,
    G: Gate + Send,
>(rt: &R, alloc: Global, limit: Option<u32>, workers: &mut [Worker<S, A, C, G>])
where
    A::Link: Send,
    ensures { (i : ℕ) (d : _) → i < length workers.old
        → HasWorked S.Service A.accepting C.moments limit (slice_index_or workers.old i d)
        (slice_index_or workers.new i d) }
{
    let threads = workers.len().max(1);
    thread::for_each_mut(rt, workers, threads, &|_, worker| worker.run(alloc, limit));
}
