//! The bodies of a checkpoint, one after the other.

ghost use Rattle.std.specs.Prelude.{◌≡◌, ◌∷◌, [], ◌++◌, ◌≤◌, IsTrue, IfOk, OnOk, length, take, drop, map};
ghost use Rattle.wfs_model.specs.declared.change.Part.TheVariants.{Put as PutPart};
ghost use Rattle.journal_format.specs.Spelling.{body_of, IsShort, AreShort};
ghost use Rattle.journal_replay.specs.Checkpoint.{most_rows, checkpoint_of};
ghost use Rattle.journal_replay.specs.Left.{behind, IsNext};

use checkpoints::RecordSource;
use feature_schema::signature;
use feature_values::Rid;
use feature_versions::Features;
use fes_filter::FeatureView;
use journal_format::{put_record, record_length};
use std::alloc::Global;
use std::marker::Model;
use wfs_ends::{List, Mem, OutOfMemory, Text};
use wfs_model::{Change, Part};

// So many features stand in one record at the most.
const MOST_ROWS: usize = 1_000;

// What is left of a checkpoint.
#[derive(Clone, Copy)]
enum Place {
    // all
    Start,
    // the features behind this one, or all, and the stored queries
    Rows(Option<Rid>),
    // the stored queries from this place on
    Stored(usize),
}

/// The bodies of a checkpoint of what features keep: first the counters and the number of the opening, then the features, 1,000 in a
/// record at the most, and then the stored queries, one in each. Contracts see the schema, and the changes that are left.
#[derive(Drop)]
pub struct CheckpointSource<'a> {
    alloc: Global,
    features: &'a Features,
    signature: Text,
    place: Place,
}

impl<'a> Model for CheckpointSource<'a> {
    ghost use Rattle.std.specs.Prelude.{◌≡◌};
    ghost use Rattle.std.specs.Coded.{codes};
    ghost use Rattle.feature_schema.specs.Signature.{signature_text};
    ghost use Rattle.fes_filter.specs.contracts.filter.Filter as filter_row;
    ghost use Rattle.journal_replay.specs.Left.{Checkpointing, changes_left};

    ghost Value = { Checkpointing };

    ghost coded = { Prim.hlevel (codes, filter_row.the_row.coded) };

    ghost view = { λ s. record {
      schema = s.features.now.schema;
      left = changes_left s.features.now.kept s.place;
    } };

    ghost invariant = { λ s. s.signature ≡ signature_text s.features.now.schema };
}

// ---- changes

fn base(alloc: Global, features: &Features) -> Mem<Change>
    ensures { IfOk result (λ change. change ≡ Change.Base features.now.kept.opening
        features.now.kept.counters) }
{
    Ok(Change::Base {
        opening: features.openings(),
        counters: List::of(Vec::from_slice(alloc, features.counters().items())?),
    })
}

// The next features behind one, or from the first on, as they are put, and behind which the others stand.
fn rows(alloc: Global, features: &Features, after: Option<Rid>) -> Mem<(List<Part>, Option<Rid>)>
    ensures parts { IfOk result (λ r. r.0 ≡ map PutPart
        (take most_rows (behind after features.now.kept.features))) }
    ensures rest { IfOk result (λ r. behind r.1 features.now.kept.features
        ≡ drop most_rows (behind after features.now.kept.features)) }
{
    let mut parts = Vec::new(alloc);
    let mut last = after;
    while parts.len() < MOST_ROWS {
        match features.next(last) {
            None => return Ok((List::of(parts), last)),
            Some(feature) => {
                last = Some(feature.id);
                parts.push(Part::Put(feature.copy(alloc)?))?;
            }
        }
    }
    Ok((List::of(parts), last))
}

fn stored(alloc: Global, features: &Features, place: usize) -> Mem<Option<(Change, Place)>>
    ensures { IfOk result (λ next. IsNext features.now.kept (Place.Stored place) next) }
{
    match features.stored().list().get(place) {
        None => Ok(None),
        Some(one) => {
            let mut all = Vec::new(alloc);
            all.push(one.copy(alloc)?)?;
            Ok(Some((Change::Created(List::of(all)), Place::Stored(place + 1))))
        }
    }
}

// The first change that is left, and what is left behind it.
fn next_change(alloc: Global, features: &Features, place: Place) -> Mem<Option<(Change, Place)>>
    ensures { IfOk result (λ next. IsNext features.now.kept place next) }
{
    match place {
        Place::Start => Ok(Some((base(alloc, features)?, Place::Rows(None)))),
        Place::Rows(after) => {
            let (parts, last) = rows(alloc, features, after)?;
            if parts.items().is_empty() {
                return stored(alloc, features, 0);
            }
            Ok(Some((Change::Rows(parts), Place::Rows(last))))
        }
        Place::Stored(place) => stored(alloc, features, place),
    }
}

// ---- bodies

fn is_short_part(part: &Part) -> bool
    ensures { IsTrue result → IsShort part.now }
{
    match part {
        Part::Put(feature) => feature.id.kind <= 65_535 && feature.items().len() <= 65_535,
        Part::Remove(id) => id.kind <= 65_535,
    }
}

// Whether the numbers of a change stand in the two bytes that they have.
fn is_short(change: &Change) -> bool
    ensures { IsTrue result → AreShort change.now }
{
    match change {
        Change::Rows(parts) => parts.items().iter().all(is_short_part),
        Change::Base { counters, .. } => counters.items().len() <= 65_535,
        _ => true,
    }
}

fn put(change: &Change, signature: &Text, into: &mut Vec<u8>) -> Mem<()>
    ensures { OnOk result (into.new.items ≡ body_of change.now signature.now) }
{
    into.clear();
    if record_length(change, signature) > 4_294_967_295 || !is_short(change) {
        return Err(OutOfMemory);
    }
    put_record(change, signature, into)
}

impl<'a> CheckpointSource<'a> {
    /// The whole checkpoint of what these features keep.
    ///
    /// # Errors
    ///
    /// `OutOfMemory`.
    pub fn new(alloc: Global, features: &'a Features) -> Mem<CheckpointSource<'a>>
        ensures { IfOk result (λ s. s ≡ record {
          schema = features.now.schema;
          left = checkpoint_of features.now.kept;
        }) }
    {
        Ok(CheckpointSource {
            alloc,
            features,
            signature: signature(alloc, features.schema())?,
            place: Place::Start,
        })
    }
}

/// `OutOfMemory` comes also for a record of 4 GiB or more, and for a schema of more types, or of more properties in a type, than stand
/// in two bytes: no journal holds such records.
impl<'a> RecordSource for CheckpointSource<'a> {
    ghost use Rattle.std.specs.Prelude.{map};
    ghost use Rattle.journal_replay.specs.Written.{body_in};

    ghost left = { λ s. map (body_in s.schema) s.left };

    fn next_body(&mut self, into: &mut Vec<u8>) -> Mem<bool> {
        into.clear();
        match next_change(self.alloc, self.features, self.place)? {
            None => Ok(false),
            Some((change, next)) => {
                put(&change, &self.signature, into)?;
                self.place = next;
                Ok(true)
            }
        }
    }
}
