//! Values, features and changes of single features in a record.

ghost use Rattle.std.specs.Prelude.{◌≡◌};
ghost use Rattle.wfs_ends.specs.Read.{GivesBut};
ghost use Rattle.journal_format.specs.Reading.{truth_at, point_value_at, value_of, id_at, put_at, remove_at, part_of};

use crate::fault::RecordFault;
use crate::field::{Field, length_counted, put_counted, read_few};
use crate::numbers::{first_of, put_byte, put_number, u16_at, u64_at};
use crate::shapes::pair_at;
use feature_values::{Feature, Rid, Value};
use geom_core::{Geometry, Line, Polygon, Pos};
use std::alloc::Global;
use wfs_ends::{Shared, Text};
use wfs_model::Part;

/// A boolean: the byte 0 or 1.
#[tactic(auto, unfolding(crate::specs::Reading::truth_at))]
fn truth_at(bytes: &[u8]) -> Result<(bool, &[u8]), RecordFault>
    ensures { GivesBut RecordFault.OutOfMemory (λ x. (x.0, x.1.now)) result (truth_at bytes.now) }
{
    let (byte, rest) = first_of(bytes)?;
    if byte == 0 {
        return Ok((false, rest));
    }
    if byte == 1 {
        return Ok((true, rest));
    }
    Err(RecordFault::Kind)
}

/// The value that is a point.
#[tactic(auto, unfolding(crate::specs::Reading::point_value_at, crate::specs::Reading::point_at, crate::specs::Reading::shaped))]
fn point_value_at(bytes: &[u8]) -> Result<(Value, &[u8]), RecordFault>
    ensures { GivesBut RecordFault.OutOfMemory (λ x. (x.0, x.1.now)) result
        (point_value_at bytes.now) }
{
    let ((x, y), rest) = pair_at(bytes)?;
    match Pos::new(i64::from(x), i64::from(y)) {
        Ok(point) => Ok((Value::Shape(Geometry::At(point)), rest)),
        Err(_) => Err(RecordFault::Kind),
    }
}

/// A value behind its kind.
#[tactic(auto, unfolding(crate::specs::Reading::value_of))]
fn value_of(alloc: Global, kind: u8, bytes: &[u8]) -> Result<(Value, &[u8]), RecordFault>
    ensures { GivesBut RecordFault.OutOfMemory (λ x. (x.0, x.1.now)) result
        (value_of kind bytes.now) }
{
    if kind == 0 {
        return Ok((Value::Null, bytes));
    }
    if kind == 1 {
        let (text, rest) = Text::read(alloc, bytes)?;
        return Ok((Value::Words(text), rest));
    }
    if kind == 2 {
        let (number, rest) = u64_at(bytes)?;
        return Ok((Value::Whole(number.cast_signed()), rest));
    }
    if kind == 3 {
        let (truth, rest) = truth_at(bytes)?;
        return Ok((Value::Truth(truth), rest));
    }
    if kind == 4 {
        return point_value_at(bytes);
    }
    if kind == 5 {
        let (line, rest) = Line::read(alloc, bytes)?;
        return Ok((
            Value::Shape(Geometry::Along(Shared::new(alloc, line)?)),
            rest,
        ));
    }
    if kind == 6 {
        let (area, rest) = Polygon::read(alloc, bytes)?;
        return Ok((
            Value::Shape(Geometry::Over(Shared::new(alloc, area)?)),
            rest,
        ));
    }
    Err(RecordFault::Kind)
}

impl Field for Value {
    ghost use Rattle.journal_format.specs.Spelling.{value_bytes};
    ghost use Rattle.journal_format.specs.Reading.{value_at};
    ghost use Rattle.journal_format.specs.Writable.{IsValue};

    ghost spelling = { value_bytes };

    ghost reading = { value_at };

    ghost writable = { IsValue };

    #[tactic(auto, using(crate::proofs::Writes::length_be), unfolding(crate::specs::Spelling::value_bytes, crate::specs::Spelling::truth_bytes))]
    fn length(&self) -> u64 {
        match self {
            Value::Null => 1,
            Value::Words(text) => text.length().saturating_add(1),
            Value::Whole(_) => 9,
            Value::Truth(_) => 2,
            Value::Shape(Geometry::At(point)) => point.length().saturating_add(1),
            Value::Shape(Geometry::Along(line)) => line.item().length().saturating_add(1),
            Value::Shape(Geometry::Over(area)) => area.item().length().saturating_add(1),
        }
    }

    #[tactic(auto, using(crate::proofs::Writes::length_be), unfolding(crate::specs::Spelling::value_bytes, crate::specs::Spelling::truth_bytes))]
    fn put(&self, into: &mut Vec<u8>) {
        match self {
            Value::Null => put_byte(0, into),
            Value::Words(text) => {
                put_byte(1, into);
                text.put(into);
            }
            Value::Whole(number) => {
                put_byte(2, into);
                put_number(8, number.cast_unsigned(), into);
            }
            Value::Truth(truth) => {
                put_byte(3, into);
                put_byte(u8::from(*truth), into);
            }
            Value::Shape(Geometry::At(point)) => {
                put_byte(4, into);
                point.put(into);
            }
            Value::Shape(Geometry::Along(line)) => {
                put_byte(5, into);
                line.item().put(into);
            }
            Value::Shape(Geometry::Over(area)) => {
                put_byte(6, into);
                area.item().put(into);
            }
        }
    }

    #[tactic(auto, unfolding(crate::specs::Reading::value_at))]
    fn read(alloc: Global, bytes: &[u8]) -> Result<(Value, &[u8]), RecordFault> {
        let (kind, rest) = first_of(bytes)?;
        value_of(alloc, kind, rest)
    }
}

impl Field for Rid {
    ghost use Rattle.journal_format.specs.Spelling.{id_bytes};
    ghost use Rattle.journal_format.specs.Reading.{id_at};
    ghost use Rattle.journal_format.specs.Writable.{IsId};

    ghost spelling = { id_bytes };

    ghost reading = { id_at };

    ghost writable = { IsId };

    #[tactic(auto, using(crate::proofs::Writes::length_id), unfolding(crate::specs::Spelling::id_bytes))]
    fn length(&self) -> u64 {
        10
    }

    #[tactic(auto, using(crate::proofs::Writes::length_id), unfolding(crate::specs::Spelling::id_bytes))]
    fn put(&self, into: &mut Vec<u8>) {
        put_number(2, u64::from(self.kind), into);
        put_number(8, self.number, into);
    }

    #[tactic(auto, unfolding(crate::specs::Reading::id_at))]
    fn read(_alloc: Global, bytes: &[u8]) -> Result<(Rid, &[u8]), RecordFault> {
        let (kind, rest) = u16_at(bytes)?;
        let (number, rest) = u64_at(rest)?;
        Ok((
            Rid {
                kind: u32::from(kind),
                number,
            },
            rest,
        ))
    }
}

/// A feature that stands from now on.
#[tactic(auto, unfolding(crate::specs::Reading::put_at))]
fn put_at(alloc: Global, bytes: &[u8]) -> Result<(Part, &[u8]), RecordFault>
    ensures { GivesBut RecordFault.OutOfMemory (λ x. (x.0, x.1.now)) result (put_at bytes.now) }
{
    let (id, rest) = Rid::read(alloc, bytes)?;
    let (values, rest) = read_few(alloc, rest)?;
    Ok((Part::Put(Feature::of(alloc, id, values)?), rest))
}

/// A feature that stands no more.
#[tactic(auto, unfolding(crate::specs::Reading::remove_at))]
fn remove_at(alloc: Global, bytes: &[u8]) -> Result<(Part, &[u8]), RecordFault>
    ensures { GivesBut RecordFault.OutOfMemory (λ x. (x.0, x.1.now)) result (remove_at bytes.now) }
{
    let (id, rest) = Rid::read(alloc, bytes)?;
    Ok((Part::Remove(id), rest))
}

/// A change of one feature behind its kind.
#[tactic(auto, unfolding(crate::specs::Reading::part_of))]
fn part_of(alloc: Global, kind: u8, bytes: &[u8]) -> Result<(Part, &[u8]), RecordFault>
    ensures { GivesBut RecordFault.OutOfMemory (λ x. (x.0, x.1.now)) result
        (part_of kind bytes.now) }
{
    if kind == 1 {
        return put_at(alloc, bytes);
    }
    if kind == 2 {
        return remove_at(alloc, bytes);
    }
    Err(RecordFault::Kind)
}

impl Field for Part {
    ghost use Rattle.journal_format.specs.Spelling.{part_bytes};
    ghost use Rattle.journal_format.specs.Reading.{part_at};
    ghost use Rattle.journal_format.specs.Writable.{IsPart};

    ghost spelling = { part_bytes };

    ghost reading = { part_at };

    ghost writable = { IsPart };

    #[tactic(auto, unfolding(crate::specs::Spelling::part_bytes))]
    fn length(&self) -> u64 {
        match self {
            Part::Put(feature) => feature
                .id
                .length()
                .saturating_add(length_counted(2, feature.items()))
                .saturating_add(1),
            Part::Remove(id) => id.length().saturating_add(1),
        }
    }

    #[tactic(auto, unfolding(crate::specs::Spelling::part_bytes))]
    fn put(&self, into: &mut Vec<u8>) {
        match self {
            Part::Put(feature) => {
                put_byte(1, into);
                feature.id.put(into);
                put_counted(2, feature.items(), into);
            }
            Part::Remove(id) => {
                put_byte(2, into);
                id.put(into);
            }
        }
    }

    #[tactic(auto, unfolding(crate::specs::Reading::part_at))]
    fn read(alloc: Global, bytes: &[u8]) -> Result<(Part, &[u8]), RecordFault> {
        let (kind, rest) = first_of(bytes)?;
        part_of(alloc, kind, rest)
    }
}
