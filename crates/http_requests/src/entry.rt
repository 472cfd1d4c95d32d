//! The entry that a request becomes.

ghost use Rattle.std.specs.Prelude.{◌≡◌};
ghost use Rattle.http_requests.specs.Verdicts.{entry_of};

use crate::size::size_of;
use http_session::Message;
use wfs_model::{Entry, Request};

/// The entry of a request that a message of a seat asked at a moment, in whole seconds since 1970.
pub fn entry_of(seat: u32, request: Request, message: &Message, moment: u64) -> Entry
    ensures { result ≡ entry_of seat request message.now moment }
{
    Entry {
        seat,
        moment,
        size: size_of(message),
        request,
    }
}
