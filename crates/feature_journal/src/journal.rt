//! The journal: a list of bodies on two files.

ghost use Rattle.std.specs.Prelude.{◌≡◌, ◌⊎◌, ◌≤◌, ◌<◌, ◌+◌, ◌++◌, ◌∷◌, [], ℕ, List, length, min, true, false, not, OnOk, OnErr, IfOk, IfErr, Ok, Err, IsErrOf};
ghost use Rattle.wfs_ends.specs.Ends.{Rose, last_count};
ghost use Rattle.disk_core.specs.Sides.{Within};
ghost use Rattle.feature_journal.specs.Whole.{Says};
ghost use Rattle.feature_journal.specs.Held.{HeldClosed, With};
ghost use Rattle.feature_journal.specs.Nothing.{Nothing, Unused};
ghost use Rattle.feature_journal.specs.Faults.{NoneFell, OneRose};
ghost use Rattle.feature_journal.specs.Kept.{seen, Rests, Began, BeganSide, Stands, Makes, SameSide, greatest_side, disks_of, is_second, generation_in, length_of, limit_of, has_begun, made_length_of};

use crate::beside::{add_to, begin_to, close_to, set_first};
use crate::making::{Making, make_first};
use crate::pending::Pending;
use crate::side::Append;
use crate::sides::{append_to, repair_to};
use crate::{AppendFault, DiskFault};
use disk_core::{Disk, Pair};

/// A journal on two files: a list of bodies, in the one that is current.
///
/// At each moment of a call a crash leaves two files that stand for the list, or for it with what the call adds. A
/// fault may leave a record or a side begun, which `is_begun` tells and `repair` ends.
#[derive(Drop)]
pub struct Journal<D> {
    disks: Pair<D>,
    second_side: bool,
    generation: u64,
    // where the ending gate stands
    gate: u64,
    side: u64,
    begun: Pending,
    // where the ending gate of the side in the making will stand
    made: u64,
}

impl<D: Disk> Journal<D> {
    /// The journal of two files that stand for a list, of which all is stable. The current side, its generation, the
    /// place of its ending gate, which is closed in each image, and the limit of its length are told.
    pub fn adopt(
        disks: Pair<D>,
        second_side: bool,
        generation: u64,
        gate: u64,
        side: u64,
    ) -> Journal<D>
        requires within { gate + 1 ≤ side }
        requires limit { side ≤ greatest_side }
        requires held { (bodies : List (List ℕ))
            × HeldClosed D.images second_side generation gate bodies disks }
        ensures disks { disks_of result ≡ disks }
        ensures told { (is_second result ≡ second_side) × (generation_in result ≡ generation)
            × (length_of result ≡ gate + 1) × (limit_of result ≡ side) }
        ensures rests { (bodies : List (List ℕ))
            → HeldClosed D.images second_side generation gate bodies disks
            → Rests D.images bodies (seen result) }
    {
        Journal {
            disks,
            second_side,
            generation,
            gate,
            side,
            begun: Pending::Nothing,
            made: 0,
        }
    }

    /// The journal of two files that hold nothing yet: it makes side a, with generation 1 and no record.
    pub fn fresh(disks: Pair<D>, side: u64) -> Result<Journal<D>, (Pair<D>, DiskFault)>
        requires unused { Unused (D.images disks.a) × Unused (D.images disks.b) }
        requires within { 17 ≤ side }
        requires limit { side ≤ greatest_side }
        ensures goes { IfOk result (λ j. Within D.moment D.since Nothing disks (disks_of j)) }
        ensures goes_err { IfErr result (λ e. Within D.moment D.since Nothing disks e.0) }
        ensures rests { IfOk result (λ j. Rests D.images [] (seen j)) }
        ensures told { IfOk result (λ j. (is_second j ≡ false) × (generation_in j ≡ 1)
            × (length_of j ≡ 17) × (limit_of j ≡ side)) }
        ensures other { IfOk result (λ j. (disks_of j).b ≡ disks.b) }
        ensures other_err { IfErr result (λ e. e.0.b ≡ disks.b) }
        ensures count { IfOk result (λ j. D.faults disks.a ≤ D.faults (disks_of j).a) }
        ensures count_err { IfErr result (λ e. D.faults disks.a ≤ D.faults e.0.a) }
        ensures cause { IfErr result (λ e. Rose (D.faults disks.a) (D.faults e.0.a)) }
    {
        let mut disks = disks;
        match make_first(&mut disks) {
            Making::Done => Ok(Journal {
                disks,
                second_side: false,
                generation: 1,
                gate: 16,
                side,
                begun: Pending::Nothing,
                made: 0,
            }),
            Making::Clean => Err((disks, DiskFault)),
            Making::Begun => Err((disks, DiskFault)),
        }
    }

    /// Adds a record: it is written behind the ending gate, synced, and then the gate is opened and synced. At each
    /// moment a crash leaves the list, or the list with this record; after Ok the list with it; after a fault the
    /// list, or the record is begun. `Full` comes exactly where the length with the record, which it tells, passes
    /// the limit, and before anything is written.
    pub fn append(&mut self, body: &[u8]) -> Result<(), AppendFault>
        requires { (bodies : List (List ℕ)) × Rests D.images bodies (seen self.old) }
        ensures goes { (bodies : List (List ℕ)) → Rests D.images bodies (seen self.old)
            → Within D.moment D.since (With bodies body.now) (disks_of self.old)
            (disks_of self.new) }
        ensures done { OnOk result ((bodies : List (List ℕ)) → Rests D.images bodies (seen self.old)
            → Rests D.images (bodies ++ body.now ∷ []) (seen self.new)) }
        ensures longer { OnOk result ((is_second self.new ≡ is_second self.old)
            × (generation_in self.new ≡ generation_in self.old)
            × (length_of self.new ≡ length_of self.old + 5 + length body.now)
            × (limit_of self.new ≡ limit_of self.old)) }
        ensures fault { IsErrOf result AppendFault.DiskFault → (bodies : List (List ℕ))
            → Rests D.images bodies (seen self.old)
            → Rests D.images bodies (seen self.new)
            ⊎ Began D.images bodies body.now (seen self.new) }
        ensures same { OnErr result (SameSide self.old self.new) }
        ensures full { (sum : ℕ) → result ≡ Err (AppendFault.Full sum)
            → (sum ≡ length_of self.old + 5 + length body.now) × (limit_of self.old < sum)
            × (self.new ≡ self.old) }
        ensures fits { limit_of self.old < length_of self.old + 5 + length body.now
            → result ≡ Err (AppendFault.Full (length_of self.old + 5 + length body.now)) }
        ensures count { NoneFell D.faults (disks_of self.old) (disks_of self.new) }
        ensures cause { IsErrOf result AppendFault.DiskFault
            → OneRose D.faults (disks_of self.old) (disks_of self.new) }
    {
        let sum = self.gate + 6 + body.len() as u64;
        if sum > self.side {
            return Err(AppendFault::Full(sum));
        }
        match append_to(&mut self.disks, self.second_side, self.gate, body) {
            Append::Done => {
                self.gate = sum - 1;
                Ok(())
            }
            Append::Clean => Err(AppendFault::DiskFault),
            Append::Begun => {
                self.begun = Pending::Record;
                Err(AppendFault::DiskFault)
            }
        }
    }

    /// Whether a fault left a record or a side begun.
    pub fn is_begun(&self) -> bool
        ensures { result ≡ has_begun self.now }
    {
        !matches!(self.begun, Pending::Nothing)
    }

    /// Ends what is begun: it closes the gate of the record, or byte 0 of the side. Until then a crash leaves the list
    /// or what was begun; after Ok the list alone. A fault leaves it begun.
    pub fn repair(&mut self) -> Result<(), DiskFault>
        requires { Stands D.images (seen self.old) }
        ensures nothing { (bodies : List (List ℕ)) → Rests D.images bodies (seen self.old)
            → (result ≡ Ok tt) × (self.new ≡ self.old) }
        ensures goes { (bodies : List (List ℕ)) (body : List ℕ)
            → Began D.images bodies body (seen self.old)
            → Within D.moment D.since (With bodies body) (disks_of self.old) (disks_of self.new) }
        ensures goes_side { (bodies added : List (List ℕ))
            → BeganSide D.images bodies added (seen self.old)
            → Within D.moment D.since (Says (bodies ∷ added ∷ [])) (disks_of self.old)
            (disks_of self.new) }
        ensures done { OnOk result ((bodies : List (List ℕ)) (body : List ℕ)
            → Began D.images bodies body (seen self.old) → Rests D.images bodies (seen self.new)) }
        ensures done_side { OnOk result ((bodies added : List (List ℕ))
            → BeganSide D.images bodies added (seen self.old)
            → Rests D.images bodies (seen self.new)) }
        ensures fault { OnErr result ((bodies : List (List ℕ)) (body : List ℕ)
            → Began D.images bodies body (seen self.old)
            → Began D.images bodies body (seen self.new)) }
        ensures fault_side { OnErr result ((bodies added : List (List ℕ))
            → BeganSide D.images bodies added (seen self.old)
            → BeganSide D.images bodies added (seen self.new)) }
        ensures same { SameSide self.old self.new }
        ensures count { NoneFell D.faults (disks_of self.old) (disks_of self.new) }
        ensures cause { OnErr result (OneRose D.faults (disks_of self.old) (disks_of self.new)) }
    {
        match self.begun {
            Pending::Nothing => Ok(()),
            Pending::Record => match repair_to(&mut self.disks, self.second_side, self.gate) {
                Ok(()) => {
                    self.begun = Pending::Nothing;
                    Ok(())
                }
                Err(_) => Err(DiskFault),
            },
            Pending::Side => match set_first(&mut self.disks, self.second_side, 0) {
                Ok(()) => {
                    self.begun = Pending::Nothing;
                    Ok(())
                }
                Err(_) => Err(DiskFault),
            },
        }
    }

    /// Begins the other side, with the next generation and no record: it closes byte 0, cuts what stands behind it, and
    /// writes the mark, the version and the generation. A crash leaves the list throughout.
    pub fn begin_side(&mut self) -> Result<(), DiskFault>
        requires rests { (bodies : List (List ℕ)) × Rests D.images bodies (seen self.old) }
        requires next { generation_in self.old < last_count }
        ensures goes { (bodies : List (List ℕ)) → Rests D.images bodies (seen self.old)
            → Within D.moment D.since (Says (bodies ∷ [])) (disks_of self.old) (disks_of self.new) }
        ensures rests { (bodies : List (List ℕ)) → Rests D.images bodies (seen self.old)
            → Rests D.images bodies (seen self.new) }
        ensures begun { OnOk result ((bodies : List (List ℕ))
            → Rests D.images bodies (seen self.old)
            → Makes D.shown D.images bodies [] (seen self.new)) }
        ensures same { SameSide self.old self.new }
        ensures count { NoneFell D.faults (disks_of self.old) (disks_of self.new) }
        ensures cause { OnErr result (OneRose D.faults (disks_of self.old) (disks_of self.new)) }
    {
        match begin_to(&mut self.disks, self.second_side, self.generation + 1) {
            Ok(()) => {
                self.made = 16;
                Ok(())
            }
            Err(_) => Err(DiskFault),
        }
    }

    /// Adds a record to the side in the making. A crash leaves the list throughout. `Full` comes exactly where the
    /// length of that side with the record, which it tells, passes the limit, and before anything is written.
    pub fn add_record(&mut self, body: &[u8]) -> Result<(), AppendFault>
        requires { (bodies : List (List ℕ)) × (added : List (List ℕ))
            × Makes D.shown D.images bodies added (seen self.old) }
        ensures goes { (bodies added : List (List ℕ))
            → Makes D.shown D.images bodies added (seen self.old)
            → Within D.moment D.since (Says (bodies ∷ [])) (disks_of self.old) (disks_of self.new) }
        ensures rests { (bodies added : List (List ℕ))
            → Makes D.shown D.images bodies added (seen self.old)
            → Rests D.images bodies (seen self.new) }
        ensures added { OnOk result ((bodies added : List (List ℕ))
            → Makes D.shown D.images bodies added (seen self.old)
            → Makes D.shown D.images bodies (added ++ body.now ∷ []) (seen self.new)) }
        ensures same { SameSide self.old self.new }
        ensures full { (sum : ℕ) → result ≡ Err (AppendFault.Full sum)
            → (sum ≡ made_length_of self.old + 5 + length body.now) × (limit_of self.old < sum)
            × (self.new ≡ self.old) }
        ensures fits { limit_of self.old < made_length_of self.old + 5 + length body.now
            → result ≡ Err (AppendFault.Full (made_length_of self.old + 5 + length body.now)) }
        ensures count { NoneFell D.faults (disks_of self.old) (disks_of self.new) }
        ensures cause { IsErrOf result AppendFault.DiskFault
            → OneRose D.faults (disks_of self.old) (disks_of self.new) }
    {
        let sum = self.made + 6 + body.len() as u64;
        if sum > self.side {
            return Err(AppendFault::Full(sum));
        }
        match add_to(&mut self.disks, self.second_side, self.made, body) {
            Ok(()) => {
                self.made = sum - 1;
                Ok(())
            }
            Err(_) => Err(AppendFault::DiskFault),
        }
    }

    /// Makes the other side current: it writes the closed ending gate and syncs, and then opens byte 0 and syncs. A
    /// crash leaves the list, or, from that byte on, the added records. After Ok the journal's list is these. A fault
    /// leaves the list, or the side is begun.
    pub fn finish_side(&mut self) -> Result<(), DiskFault>
        requires { (bodies : List (List ℕ)) × (added : List (List ℕ))
            × Makes D.shown D.images bodies added (seen self.old) }
        ensures goes { (bodies added : List (List ℕ))
            → Makes D.shown D.images bodies added (seen self.old)
            → Within D.moment D.since (Says (bodies ∷ added ∷ [])) (disks_of self.old)
            (disks_of self.new) }
        ensures done { OnOk result ((bodies added : List (List ℕ))
            → Makes D.shown D.images bodies added (seen self.old)
            → Rests D.images added (seen self.new)) }
        ensures turned { OnOk result ((is_second self.new ≡ not (is_second self.old))
            × (generation_in self.new ≡ generation_in self.old + 1)
            × (length_of self.new ≡ made_length_of self.old)
            × (limit_of self.new ≡ limit_of self.old)) }
        ensures fault { OnErr result ((bodies added : List (List ℕ))
            → Makes D.shown D.images bodies added (seen self.old)
            → Rests D.images bodies (seen self.new)
            ⊎ BeganSide D.images bodies added (seen self.new)) }
        ensures same { OnErr result (SameSide self.old self.new) }
        ensures count { NoneFell D.faults (disks_of self.old) (disks_of self.new) }
        ensures cause { OnErr result (OneRose D.faults (disks_of self.old) (disks_of self.new)) }
    {
        match close_to(&mut self.disks, self.second_side, self.made) {
            Err(_) => Err(DiskFault),
            Ok(()) => match set_first(&mut self.disks, self.second_side, 1) {
                Err(_) => {
                    self.begun = Pending::Side;
                    Err(DiskFault)
                }
                Ok(()) => {
                    self.second_side = !self.second_side;
                    self.generation += 1;
                    self.gate = self.made;
                    Ok(())
                }
            },
        }
    }

    /// The length of the current side, up to and with its ending gate.
    pub fn side_length(&self) -> u64
        ensures { result ≡ min (length_of self.now) last_count }
    {
        self.gate.saturating_add(1)
    }

    /// The generation of the current side.
    pub fn generation(&self) -> u64
        ensures { result ≡ generation_in self.now }
    {
        self.generation
    }

    /// The two files.
    pub fn into_disks(self) -> Pair<D>
        ensures { result ≡ disks_of self }
    {
        self.disks
    }
}
