//! What hands out links, one after the other, and takes them back when they are finished.

ghost use Rattle.std.specs.Prelude.{◌≡◌, ◌<◌, Ok, None, IfOk, IfSome, OnErr};
ghost use Rattle.service_doors.specs.Accepting.{Accepting, HandsOut, HasNoLink, HasFailed, with_finished};

use wfs_ends::{Failed, Link};

/// Where the links of a worker come from.
///
/// Contracts see a link that is still to come, or that was finished, by what it shows. No call changes whether an
/// acceptor tells its links. What is true of the counts is true of every acceptor.
pub trait Acceptor {
    /// A connection.
    type Link: Link;

    /// What contracts see of it.
    ghost accepting: { Self → Accepting };

    /// Hands out the first of the links to come, and answers None exactly where there is none. It may wait for one.
    /// `Failed` changes nothing, and comes only where the count of failed calls rose.
    fn accept(&mut self) -> Result<Option<Self::Link>, Failed>
        ensures first { IfOk result (λ r. IfSome r
            (λ link. HandsOut (accepting self.old) (Self.Link.Source.source link)
            (accepting self.new))) }
        ensures none { result ≡ Ok None → HasNoLink (accepting self.old) (accepting self.new) }
        ensures err { OnErr result (HasFailed (accepting self.old) (accepting self.new)) };

    /// Takes back a link that it has handed out.
    fn finish(&mut self, link: Self::Link)
        requires { 0 < (accepting self.old).out }
        ensures { accepting self.new ≡ with_finished (accepting self.old)
            (Self.Link.Source.source link) };
}
