//! The gate before the turnstile: a thread draws its ticket once it is through, so that it seldom sleeps with one.
//!
//! Tickets are served in their order, so whoever draws one has to be woken when its time comes, and until that thread runs nobody
//! else goes on. At the gate a thread that runs goes ahead of one that sleeps. A thread that was woken some times, and each time
//! found another one ahead, goes past the gate and draws its ticket: from then on its place in the line is fixed.
//!
//! The rule of the turnstile does not speak of the gate. Whatever the gate does, one thread at a time has the value.
use std::hint;
use std::sync::Wait;
use std::sync::atomic::{AtomicU64, Ordering};

/// How often a thread looks whether the gate is open before it sleeps.
const LOOKS: u32 = 200;

/// How often a thread is woken and finds the gate shut before it goes past it.
const PATIENCE: u32 = 4;

/// The states of the gate. `WATCHED` is shut too, and a thread may sleep before it.
const OPEN: u64 = 0;

const SHUT: u64 = 1;

const WATCHED: u64 = 2;

/// Who is behind the gate: the thread that went through it, or none while it is open; and one more where a thread went past it.
#[derive(Drop)]
pub(crate) struct Gate {
    state: AtomicU64,
    // 1 where a thread went past the gate, and nobody has left for it yet
    passed_by: AtomicU64,
}

impl Gate {
    /// An open gate.
    pub(crate) fn new() -> Gate {
        Gate {
            state: AtomicU64::new(OPEN),
            passed_by: AtomicU64::new(0),
        }
    }

    /// Looks for a while whether the gate is open, and goes through if it is.
    fn slips_through(&self) -> bool {
        for _ in 0..LOOKS {
            let is_open = self.state.load(Ordering::SeqCst) == OPEN;
            if is_open
                && self
                    .state
                    .compare_exchange(OPEN, SHUT, Ordering::SeqCst, Ordering::SeqCst)
                    .is_ok()
            {
                return true;
            }
            hint::spin_loop();
        }
        false
    }

    /// Goes past the gate, unless another thread did and nobody has left for it yet.
    fn goes_past(&self) -> bool {
        self.passed_by
            .compare_exchange(0, 1, Ordering::SeqCst, Ordering::SeqCst)
            .is_ok()
    }

    /// Goes through the gate and shuts it, or goes past it after a long wait.
    pub(crate) fn pass<R: Wait>(&self, rt: &R) {
        if self.slips_through() {
            return;
        }
        let mut patience = PATIENCE;
        for _ in rt.forever() {
            if self.state.swap(WATCHED, Ordering::SeqCst) == OPEN {
                return;
            }
            if patience == 0 && self.goes_past() {
                return;
            }
            self.state.park(rt, WATCHED as u32);
            patience = patience.saturating_sub(1);
        }
    }

    /// Leaves. Where a thread went past the gate, that one is now the only thread behind it, and the gate stays shut. Else it opens, and
    /// one of those who sleep before it is woken.
    pub(crate) fn leave(&self) {
        if self.passed_by.swap(0, Ordering::SeqCst) == 1 {
            return;
        }
        if self.state.swap(OPEN, Ordering::SeqCst) == WATCHED {
            self.state.wake_one();
        }
    }
}
