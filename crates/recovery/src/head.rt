//! What the first bytes of a side tell.

ghost use Rattle.std.specs.Prelude.{◌≡◌, ◌≤◌, ◌<◌, ℕ, List, length, take, drop, IfOk, OnErr, IfSome};
ghost use Rattle.std.specs.Int.{to_be_bytes, w64};
ghost use Rattle.wfs_ends.specs.Ends.{Rose};
ghost use Rattle.disk_core.specs.Disk.{Leads, Same};
ghost use Rattle.feature_journal.specs.Side.{mark};
ghost use Rattle.feature_journal.specs.Recover.{differs_at};
ghost use Rattle.recovery.specs.Head.{Tells};

use disk_core::Disk;
use wfs_ends::Failed;

// A side has under 17 bytes, or its byte 0 is 0, or it is no journal's from that place on, or its byte 0 is 1, or another
// one.
#[derive(Clone, Copy)]
pub(crate) enum Kind {
    Short,
    Shut,
    Foreign(u64),
    Open,
    Stale,
}

#[derive(Clone, Copy)]
pub(crate) struct Head {
    pub(crate) kind: Kind,
    // of a side that is open or stale
    pub(crate) generation: u64,
}

const MARK: [u8; 7] = [87, 70, 83, 74, 78, 76, 1];

// The first place, from 1, at which the mark and the version do not stand.
fn differing(head: &[u8]) -> Option<u64>
    requires { 17 ≤ length head.now }
    ensures { result ≡ differs_at 1 mark (drop 1 head.now) }
{
    for i in 0..7 {
        if head[1 + i] != MARK[i] {
            return Some(1 + i as u64);
        }
    }
    None
}

// The eight bytes of the generation.
fn generation_at(head: &[u8]) -> u64
    requires { 17 ≤ length head.now }
    ensures { to_be_bytes w64 result ≡ take 8 (drop 8 head.now) }
{
    u64::from_be_bytes([
        head[8], head[9], head[10], head[11], head[12], head[13], head[14], head[15],
    ])
}

fn describe(head: &[u8]) -> Head
    ensures { (c : List ℕ) → take 17 c ≡ head.now → Tells result c }
{
    if head.len() < 17 {
        return Head {
            kind: Kind::Short,
            generation: 0,
        };
    }
    if head[0] == 0 {
        return Head {
            kind: Kind::Shut,
            generation: 0,
        };
    }
    match differing(head) {
        Some(place) => Head {
            kind: Kind::Foreign(place),
            generation: 0,
        },
        None => {
            let generation = generation_at(head);
            if head[0] == 1 {
                Head {
                    kind: Kind::Open,
                    generation,
                }
            } else {
                Head {
                    kind: Kind::Stale,
                    generation,
                }
            }
        }
    }
}

pub(crate) fn read_head<D: Disk>(disk: &mut D) -> Result<Head, Failed>
    ensures tells { IfOk result (λ h. IfSome (D.shown disk.old) (Tells h)) }
    ensures same { D.shown disk.new ≡ D.shown disk.old }
    ensures crash { Leads D.moment D.since D.images Same disk.old disk.new }
    ensures count { D.faults disk.old ≤ D.faults disk.new }
    ensures cause { OnErr result (Rose (D.faults disk.old) (D.faults disk.new)) }
{
    let mut bytes = [0; 17];
    let n = disk.read(0, &mut bytes)?;
    Ok(describe(&bytes[..n]))
}
