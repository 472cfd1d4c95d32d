//! A disk in memory as a disk: each call against the model.

ghost use Rattle.std.specs.Prelude.{◌≡◌, ◌≤◌, ◌<◌, ◌-◌, ◌⊎◌, ◌↔◌, ℕ, List, length, min, take, drop, Some, IfOk, OnOk, OnErr, IsErr};
ghost use Rattle.wfs_ends.specs.Ends.{Rose};
ghost use Rattle.disk_core.specs.Disk.{written, joined, cut_to, Same, Torn, Cut, Leads};
ghost use Rattle.disk_core.specs.Story.Step.{shortened, synced};
ghost use Rattle.disk_core.specs.Memory.{Fails, passed, refused, noted, noted_write, reads_as, image_of, image_since, steps_done};

use crate::{Disk, MemDisk};
use wfs_ends::Failed;

impl Disk for MemDisk {
    ghost use Rattle.std.specs.Prelude.{Some, refl};
    ghost use Rattle.std.proofs.lemmas.Option.{same_Some};
    ghost use Rattle.std.proofs.Common.{subst};
    ghost use Rattle.disk_core.specs.StoryLaws.{image_reads, since_counts, since_only};
    ghost use Rattle.disk_core.specs.Memory.{reads_as, image_of, image_since, steps_done};

    ghost shown = { λ m. Some (reads_as m) };

    ghost images = { image_of };

    ghost moment = { steps_done };

    ghost since = { image_since };

    ghost faults = { λ m. m.failed };

    ghost reads = { λ m s e. subst (image_of m) (same_Some (reads_as m) s e)
        (image_reads m.base m.steps) };

    ghost tells = { λ m c here. (reads_as m, refl) };

    ghost counts = { λ m t c le here. since_counts m.base m.steps t c le here };

    ghost only = { λ m c had. since_only m.base m.steps c had };

    #[tactic(auto, using(crate::proofs::Remembered::same_reads, crate::proofs::Remembered::same_leads))]
    fn read(&mut self, at: u64, into: &mut [u8]) -> Result<usize, Failed>
        ensures fails { IsErr result ↔ Fails self.old }
        ensures failed { OnErr result (self.new ≡ refused self.old) }
        ensures done { OnOk result (self.new ≡ passed self.old) }
        ensures read { IfOk result (λ n. (n ≡ min (length into.old)
            (length (reads_as self.old) - at))
            × (take n into.new ≡ take n (drop at (reads_as self.old)))) }
        ensures within { IfOk result (λ n. n ≤ length into.old) }
        ensures same { reads_as self.new ≡ reads_as self.old }
        ensures crash { Leads steps_done image_since image_of Same self.old self.new }
        ensures count { self.old.failed ≤ self.new.failed }
        ensures cause { OnErr result (Rose self.old.failed self.new.failed) }
    {
        self.do_read(at, into)
    }

    #[tactic(auto, using(crate::proofs::Remembered::write_done, crate::proofs::Remembered::write_torn, crate::proofs::Remembered::write_leads))]
    fn write_at(&mut self, at: u64, bytes: &[u8]) -> Result<(), Failed>
        requires { at ≤ length (reads_as self.old) }
        ensures fails { IsErr result ↔ (Fails self.old ⊎ (self.old.room < length bytes.now)) }
        ensures failed { OnErr result (self.new ≡ refused self.old) }
        ensures done { OnOk result (self.new ≡ noted_write at bytes.now self.old) }
        ensures written { OnOk result (Some (reads_as self.new)
            ≡ written at bytes.now (Some (reads_as self.old))) }
        ensures torn { Torn at (length bytes.now) (reads_as self.old) (reads_as self.new) }
        ensures crash { Leads steps_done image_since image_of (Torn at (length bytes.now)) self.old
            self.new }
        ensures count { self.old.failed ≤ self.new.failed }
        ensures cause { OnErr result (Rose self.old.failed self.new.failed) }
    {
        self.do_write(at, &[], &[], bytes)
    }

    #[tactic(auto, using(crate::proofs::Remembered::write_done, crate::proofs::Remembered::write_torn, crate::proofs::Remembered::write_leads))]
    fn write_framed(&mut self, at: u64, head: &[u8], body: &[u8], tail: &[u8]) -> Result<(), Failed>
        requires { at ≤ length (reads_as self.old) }
        ensures fails { IsErr result ↔ (Fails self.old
            ⊎ (self.old.room < length (joined head.now body.now tail.now))) }
        ensures failed { OnErr result (self.new ≡ refused self.old) }
        ensures done { OnOk result (self.new ≡ noted_write at (joined head.now body.now tail.now)
            self.old) }
        ensures written { OnOk result (Some (reads_as self.new)
            ≡ written at (joined head.now body.now tail.now) (Some (reads_as self.old))) }
        ensures torn { Torn at (length (joined head.now body.now tail.now)) (reads_as self.old)
            (reads_as self.new) }
        ensures crash { Leads steps_done image_since image_of
            (Torn at (length (joined head.now body.now tail.now))) self.old self.new }
        ensures count { self.old.failed ≤ self.new.failed }
        ensures cause { OnErr result (Rose self.old.failed self.new.failed) }
    {
        self.do_write(at, head, body, tail)
    }

    #[tactic(auto, using(crate::proofs::Remembered::cut_done, crate::proofs::Remembered::cut_torn, crate::proofs::Remembered::cut_leads))]
    fn cut(&mut self, to: u64) -> Result<(), Failed>
        requires { to ≤ length (reads_as self.old) }
        ensures fails { IsErr result ↔ Fails self.old }
        ensures failed { OnErr result (self.new ≡ refused self.old) }
        ensures done { OnOk result (self.new ≡ noted (shortened to) self.old) }
        ensures shortened { OnOk result (Some (reads_as self.new)
            ≡ cut_to to (Some (reads_as self.old))) }
        ensures torn { Cut to (reads_as self.old) (reads_as self.new) }
        ensures crash { Leads steps_done image_since image_of (Cut to) self.old self.new }
        ensures count { self.old.failed ≤ self.new.failed }
        ensures cause { OnErr result (Rose self.old.failed self.new.failed) }
    {
        self.do_cut(to)
    }

    #[tactic(auto, using(crate::proofs::Remembered::sync_same, crate::proofs::Remembered::sync_stable, crate::proofs::Remembered::sync_leads))]
    fn sync(&mut self) -> Result<(), Failed>
        ensures fails { IsErr result ↔ Fails self.old }
        ensures failed { OnErr result (self.new ≡ refused self.old) }
        ensures done { OnOk result (self.new ≡ noted synced self.old) }
        ensures stable { OnOk result ((c : List ℕ) → image_of self.new c
            → Some (reads_as self.old) ≡ Some c) }
        ensures same { reads_as self.new ≡ reads_as self.old }
        ensures crash { Leads steps_done image_since image_of Same self.old self.new }
        ensures count { self.old.failed ≤ self.new.failed }
        ensures cause { OnErr result (Rose self.old.failed self.new.failed) }
    {
        self.do_sync()
    }

    #[tactic(auto, using(crate::proofs::Remembered::same_reads, crate::proofs::Remembered::same_leads))]
    fn len(&mut self) -> Result<u64, Failed>
        ensures fails { IsErr result ↔ Fails self.old }
        ensures failed { OnErr result (self.new ≡ refused self.old) }
        ensures done { OnOk result (self.new ≡ passed self.old) }
        ensures read { IfOk result (λ n. n ≡ length (reads_as self.old)) }
        ensures same { reads_as self.new ≡ reads_as self.old }
        ensures crash { Leads steps_done image_since image_of Same self.old self.new }
        ensures count { self.old.failed ≤ self.new.failed }
        ensures cause { OnErr result (Rose self.old.failed self.new.failed) }
    {
        self.do_len()
    }
}
