//! The size of the entry that a message becomes.

ghost use Rattle.std.specs.Prelude.{◌≡◌};
ghost use Rattle.http_requests.specs.Asks.{size_of};

use crate::asks::split_target;
use http_session::Message;

/// The size of the entry that a message becomes, in bytes: the length of its query where the method is GET, else that of
/// its body. A length above the last u32, which the limits of messages do not let come, counts as that.
#[tactic(auto, unfolding(crate::specs::Asks::size_of))]
pub fn size_of(message: &Message) -> u32
    ensures { result ≡ size_of message.now }
{
    let length = if message.method.as_str() == "GET" {
        let (_, query) = split_target(message.target.as_str());
        query.len()
    } else {
        message.body.items().len()
    };
    length.min(u32::MAX as usize) as u32
}
