//! What judges the messages of a session.

use crate::answered::Answered;
use crate::gate::Gate;
use feature_values::Schema;
use http_session::Message;
use std::alloc::Global;

/// Judges the messages of a session, and carries out what they ask.
///
/// Contracts see it by its ghost members. Each service says by `judges` what its answers are, and by `leads` what always
/// holds between what it was and what it is later, whatever came.
pub trait Service {
    ghost use Rattle.std.specs.Prelude.{◌≡◌, ℕ, Bool};
    ghost use Rattle.feature_values.specs.declared.schema.Schema.{Schema};
    ghost use Rattle.http_session.specs.declared.message.Message.{Message};
    ghost use Rattle.service_session.specs.declared.answered.Answered.{Answered};

    // The schema that it serves.
    ghost schema: { Self → Schema };

    // The service before a message, the message, whether it is the last one that the session may have, its moment, the
    // answer, and the service after it.
    ghost judges: { Self → Message → Bool → ℕ → Answered → Self → Type 0 };

    // Whether the second may be what the first has become.
    ghost leads: { Self → Self → Type 0 };

    /// The schema that it serves.
    fn schema(&self) -> &Schema
        ensures { result.now ≡ schema self.now };

    /// Judges a message that comes at a moment, in whole seconds since 1970, and carries out what it asks. A service that
    /// takes a turn for it tells the gate so.
    fn judge<G: Gate>(
        &mut self,
        alloc: Global,
        message: &Message,
        is_last: bool,
        moment: u64,
        gate: &mut G,
    ) -> Answered
        ensures judged { judges self.old message.now is_last moment result self.new }
        ensures led { leads self.old self.new }
        ensures schema { schema self.new ≡ schema self.old };

    // A service may be what it was.
    ghost stays: { (s : Self) → leads s s };

    // What becomes of what a service has become, becomes of it.
    ghost follows: { (s t u : Self) → leads s t → leads t u → leads s u };
}
