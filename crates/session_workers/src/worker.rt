//! A worker with what it needs, which a thread of its own may run.

ghost use Rattle.session_workers.specs.Workers.{HasWorked};

use crate::ending::WorkerEnd;
use crate::working::work;
use service_doors::Acceptor;
use service_session::{Gate, Service};
use std::alloc::Global;
use wfs_ends::Clock;

/// A worker with what it needs.
#[derive(Drop)]
pub struct Worker<S, A, C, G> {
    /// What judges the messages.
    pub service: S,
    /// Where its links come from.
    pub acceptor: A,
    /// What moment it is.
    pub clock: C,
    /// What is told where its sessions are.
    pub gate: G,
    /// How it ended, once it has.
    pub end: Option<WorkerEnd>,
}

impl<S: Service, A: Acceptor, C: Clock, G: Gate> Worker<S, A, C, G> {
    /// Does its work, and keeps how it ended.
    pub fn run(&mut self, alloc: Global, limit: Option<u32>)
        ensures { HasWorked S.Service A.accepting C.moments limit self.old self.new }
    {
        self.end = Some(work(
            alloc,
            &mut self.service,
            &mut self.acceptor,
            limit,
            &mut self.clock,
            &mut self.gate,
        ));
    }
}
