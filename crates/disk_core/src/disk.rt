//! A disk: a file that is read, written, cut and synced.

ghost use Rattle.std.specs.Prelude.{◌≡◌, ◌≤◌, ◌-◌, ℕ, List, Option, length, take, drop, min, Some, None, IfOk, OnOk, IfSome, OnErr};
ghost use Rattle.wfs_ends.specs.Ends.{Rose};
ghost use Rattle.disk_core.specs.Disk.{written, joined, cut_to, Same, Torn, Cut, ReadsBy, Leads};

use wfs_ends::Failed;

/// A file, and what a crash may leave of it.
///
/// A call that answers `Failed` raised the count of faults. It may have done a part of its work, as its clauses say.
/// What a crash may leave is told by images: byte lists, one of which stands on the disk after the crash. A write, a
/// cut or nothing is a step from an image to an image, and until the next sync any of these steps may be done, torn
/// or left out. After a sync that answers Ok the one image is what a read gives.
///
/// A disk that does not tell what it holds has no image, so a clause on images says nothing of it. No call changes
/// whether a disk tells.
pub trait Disk {
    /// What a read gives, where the disk tells.
    ghost shown: { Self → Option (List ℕ) };

    /// What a crash now may leave. A disk that does not tell has no image.
    ghost images: { Self → List ℕ → Type 0 };

    /// The moment, as a number that does not fall.
    ghost moment: { Self → ℕ };

    /// What a crash at some moment from that one on might have left, during a call or between two.
    ghost since: { Self → ℕ → List ℕ → Type 0 };

    /// How often a call has failed, up to the last value of a u64.
    ghost faults: { Self → ℕ };

    /// Reads what stands from the place `at` on, and answers how many bytes it read: the lesser of the length of
    /// `into` and the number of bytes that stand there, which is 0 at or past the end.
    fn read(&mut self, at: u64, into: &mut [u8]) -> Result<usize, Failed>
        ensures within { IfOk result (λ n. n ≤ length into.old) }
        ensures read { IfOk result (λ n. IfSome (shown self.old)
            (λ s. (n ≡ min (length into.old) (length s - at))
            × (take n into.new ≡ take n (drop at s)))) }
        ensures same { shown self.new ≡ shown self.old }
        ensures crash { Leads moment since images Same self.old self.new }
        ensures count { faults self.old ≤ faults self.new }
        ensures cause { OnErr result (Rose (faults self.old) (faults self.new)) };

    /// Writes over what is there, and past the end. The place is at most the length. After `Failed` the range may
    /// hold any bytes.
    fn write_at(&mut self, at: u64, bytes: &[u8]) -> Result<(), Failed>
        requires { IfSome (shown self.old) (λ s. at ≤ length s) }
        ensures done { OnOk result (shown self.new ≡ written at bytes.now (shown self.old)) }
        ensures torn { ReadsBy (Torn at (length bytes.now)) (shown self.old) (shown self.new) }
        ensures crash { Leads moment since images (Torn at (length bytes.now)) self.old self.new }
        ensures count { faults self.old ≤ faults self.new }
        ensures cause { OnErr result (Rose (faults self.old) (faults self.new)) };

    /// Writes a body between a head and a tail as one write, with no copy of it.
    fn write_framed(&mut self, at: u64, head: &[u8], body: &[u8], tail: &[u8]) -> Result<(), Failed>
        requires { IfSome (shown self.old) (λ s. at ≤ length s) }
        ensures done { OnOk result (shown self.new
            ≡ written at (joined head.now body.now tail.now) (shown self.old)) }
        ensures torn { ReadsBy (Torn at (length (joined head.now body.now tail.now)))
            (shown self.old) (shown self.new) }
        ensures crash { Leads moment since images
            (Torn at (length (joined head.now body.now tail.now))) self.old self.new }
        ensures count { faults self.old ≤ faults self.new }
        ensures cause { OnErr result (Rose (faults self.old) (faults self.new)) };

    /// Cuts the file to the length `to`, which is at most its own. After `Failed` it has the old length or this one.
    fn cut(&mut self, to: u64) -> Result<(), Failed>
        requires { IfSome (shown self.old) (λ s. to ≤ length s) }
        ensures done { OnOk result (shown self.new ≡ cut_to to (shown self.old)) }
        ensures torn { ReadsBy (Cut to) (shown self.old) (shown self.new) }
        ensures crash { Leads moment since images (Cut to) self.old self.new }
        ensures count { faults self.old ≤ faults self.new }
        ensures cause { OnErr result (Rose (faults self.old) (faults self.new)) };

    /// Makes what was written stable: after Ok the one image is what a read gives. `Failed` makes nothing stable.
    fn sync(&mut self) -> Result<(), Failed>
        ensures stable { OnOk result ((c : List ℕ) → images self.new c → shown self.old ≡ Some c) }
        ensures same { shown self.new ≡ shown self.old }
        ensures crash { Leads moment since images Same self.old self.new }
        ensures count { faults self.old ≤ faults self.new }
        ensures cause { OnErr result (Rose (faults self.old) (faults self.new)) };

    /// The length in bytes.
    fn len(&mut self) -> Result<u64, Failed>
        ensures read { IfOk result (λ n. IfSome (shown self.old) (λ s. n ≡ length s)) }
        ensures same { shown self.new ≡ shown self.old }
        ensures crash { Leads moment since images Same self.old self.new }
        ensures count { faults self.old ≤ faults self.new }
        ensures cause { OnErr result (Rose (faults self.old) (faults self.new)) };

    /// A disk as it reads is one of its images.
    ghost reads: { (d : Self) (s : List ℕ) → shown d ≡ Some s → images d s };

    /// A disk that has an image tells.
    ghost tells: { (d : Self) (c : List ℕ) → images d c → (s : List ℕ) × (shown d ≡ Some s) };

    /// No moment is lost: what might have been left since an earlier one includes what may be left now.
    ghost counts: { (d : Self) (t : ℕ) (c : List ℕ) → t ≤ moment d → images d c → since d t c };

    /// Since this moment there is no other.
    ghost only: { (d : Self) (c : List ℕ) → since d (moment d) c → images d c };
}
