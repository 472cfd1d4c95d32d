//! How much the service holds at most.

ghost use Rattle.std.specs.Prelude.{◌≡◌, ◌≤◌};

/// How much the service holds at most. A request that would bring a quantity above its limit is refused. None is above
/// the number that is stated here.
#[derive(Clone, Copy, Debug, PartialEq, Eq)]
pub struct Limits {
    /// Entries of the history of an opening: 1,000,000.
    pub entries: u64,
    /// The sum of the entries' sizes, in bytes: 268,435,456.
    pub bytes: u64,
    /// Features: 1,000,000.
    pub features: u64,
    /// Numbers given of a type: 1,000,000,000,000.
    pub ids: u64,
    /// Locks that are live at once: 65,536.
    pub locks: u64,
    /// Stored queries, without the one that is built in: 1,000.
    pub stored: u64,
    /// The length of a side of the journal, in bytes: 268,435,456.
    pub side: u64,

    ghost entries_within: { entries ≤ 1_000_000 },
    ghost bytes_within: { bytes ≤ 268_435_456 },
    ghost features_within: { features ≤ 1_000_000 },
    ghost ids_within: { ids ≤ 1_000_000_000_000 },
    ghost locks_within: { locks ≤ 65_536 },
    ghost stored_within: { stored ≤ 1_000 },
    ghost side_within: { side ≤ 268_435_456 },
}

impl Limits {
    /// The limits that are stated.
    pub fn stated() -> Limits
        ensures entries { result.entries ≡ 1_000_000 }
        ensures bytes { result.bytes ≡ 268_435_456 }
        ensures features { result.features ≡ 1_000_000 }
        ensures ids { result.ids ≡ 1_000_000_000_000 }
        ensures locks { result.locks ≡ 65_536 }
        ensures stored { result.stored ≡ 1_000 }
        ensures side { result.side ≡ 268_435_456 }
    {
        Limits {
            entries: 1_000_000,
            bytes: 268_435_456,
            features: 1_000_000,
            ids: 1_000_000_000_000,
            locks: 65_536,
            stored: 1_000,
            side: 268_435_456,
        }
    }
}

/// Which of the limits.
#[derive(Clone, Copy, Debug, PartialEq, Eq)]
pub enum LimitName {
    Entries,
    Bytes,
    Features,
    Ids,
    Locks,
    Stored,
    Side,
}

/// A limit that a request would have passed.
#[derive(Clone, Copy, Debug, PartialEq, Eq)]
pub struct FullAt {
    /// Which one.
    pub limit: LimitName,
    /// The quantity before the request; for numbers given, that of the first type that would pass the limit.
    pub number: u64,
}
