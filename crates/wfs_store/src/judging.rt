//! Limits that are judged before a step is planned.

ghost use Rattle.std.specs.Prelude.{◌≡◌, ◌≤◌};
ghost use Rattle.wfs_store.specs.Judged.{passed_by_count};

use wfs_model::{FullAt, LimitName, Limits};

/// The limit that one more entry of this size would pass, where there are so many entries of so many bytes.
pub(crate) fn passed_by_count(
    limits: &Limits,
    count: usize,
    bytes: u64,
    size: u32,
) -> Option<FullAt>
    requires few { bytes ≤ 268_435_456 }
    ensures { result ≡ passed_by_count limits.now count bytes size }
{
    let count = count as u64;
    if limits.entries <= count {
        return Some(FullAt {
            limit: LimitName::Entries,
            number: count,
        });
    }
    if size > 0 && limits.bytes < bytes + u64::from(size) {
        return Some(FullAt {
            limit: LimitName::Bytes,
            number: bytes,
        });
    }
    None
}
