//! What the bodies of records are handed to.

ghost use Rattle.std.specs.Prelude.{◌≡◌, [], ℕ, List, length};
ghost use Rattle.recovery.specs.Replay.{Verdict, Answers, taken_after};

use thiserror::Error;
use wfs_ends::OutOfMemory;

/// Why a record was not taken.
#[derive(Clone, Copy, Debug, PartialEq, Eq, Error)]
pub enum ReplayFault {
    /// Its bytes are no record.
    #[error("the bytes are no record")]
    BadBytes,
    /// It is a record that does not fit the schema, or not behind those before it.
    #[error("the record does not fit the schema, or not behind those before it")]
    NotOfSchema,
    #[error("out of memory")]
    OutOfMemory,
}

impl From<OutOfMemory> for ReplayFault {
    ghost use Rattle.std.specs.Prelude.{◌≡◌};
    ghost use Rattle.recovery.specs.declared.replay.ReplayFault.TheVariants.{OutOfMemory as NoMemory};

    ghost from_gives = { λ _ fault. fault ≡ NoMemory };

    fn from(_: OutOfMemory) -> ReplayFault {
        ReplayFault::OutOfMemory
    }
}

/// What takes the bodies of a journal's records, one after the other.
pub trait Replay {
    /// What bodies are judged by, such as a schema.
    ghost Setting: { Type 0 };

    /// What they are judged by here. No call changes it.
    ghost setting: { Self → Setting };

    /// The bodies that were taken since the last restart.
    ghost taken: { Self → List (List ℕ) };

    /// What comes of a body behind those that were taken. No call changes it.
    ghost verdict: { Self → List (List ℕ) → List ℕ → Verdict };

    /// Forgets what was taken.
    fn restart(&mut self)
        ensures taken { taken self.new ≡ [] }
        ensures setting { setting self.new ≡ setting self.old }
        ensures verdict { verdict self.new ≡ verdict self.old };

    /// Takes a body, whose number is how many were taken before it. It answers the verdict, or want of memory, and
    /// takes the body only where it answers Ok.
    fn take_record(&mut self, number: u64, body: &[u8]) -> Result<(), ReplayFault>
        requires { number ≡ length (taken self.old) }
        ensures answer { Answers result (verdict self.old (taken self.old) body.now) }
        ensures taken { taken self.new ≡ taken_after result (taken self.old) body.now }
        ensures setting { setting self.new ≡ setting self.old }
        ensures verdict { verdict self.new ≡ verdict self.old };
}
