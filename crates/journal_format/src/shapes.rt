//! Shapes of a record: positions, lines, rings and polygons.

ghost use Rattle.std.specs.Prelude.{◌≡◌};
ghost use Rattle.wfs_ends.specs.Read.{GivesBut};
ghost use Rattle.journal_format.specs.Reading.{pair_at, rings_at};

use crate::fault::RecordFault;
use crate::field::{
    Field, length_counted, length_of_all, put_all, put_counted, read_counted, read_times,
};
use crate::numbers::{put_number, u32_at};
use geom_core::{Line, Polygon, Pos, Ring};
use std::alloc::Global;

/// Two coordinates, which are not judged.
#[tactic(auto, unfolding(crate::specs::Reading::pair_at))]
pub fn pair_at(bytes: &[u8]) -> Result<((i32, i32), &[u8]), RecordFault>
    ensures { GivesBut RecordFault.OutOfMemory (λ x. (x.0, x.1.now)) result (pair_at bytes.now) }
{
    let (x, rest) = u32_at(bytes)?;
    let (y, rest) = u32_at(rest)?;
    Ok(((x.cast_signed(), y.cast_signed()), rest))
}

impl Field for Pos {
    ghost use Rattle.journal_format.specs.Spelling.{point_bytes};
    ghost use Rattle.journal_format.specs.Reading.{point_at};
    ghost use Rattle.geom_core.specs.Plane.{IsPosition};

    ghost spelling = { point_bytes };

    ghost reading = { point_at };

    ghost writable = { IsPosition };

    #[tactic(auto, using(crate::proofs::Writes::length_point), unfolding(crate::specs::Spelling::point_bytes))]
    fn length(&self) -> u64 {
        8
    }

    #[tactic(auto, using(crate::proofs::Writes::length_point), unfolding(crate::specs::Spelling::point_bytes))]
    fn put(&self, into: &mut Vec<u8>) {
        put_number(4, u64::from(self.x.cast_unsigned()), into);
        put_number(4, u64::from(self.y.cast_unsigned()), into);
    }

    #[tactic(auto, unfolding(crate::specs::Reading::point_at, crate::specs::Reading::shaped))]
    fn read(_alloc: Global, bytes: &[u8]) -> Result<(Pos, &[u8]), RecordFault> {
        let ((x, y), rest) = pair_at(bytes)?;
        match Pos::new(i64::from(x), i64::from(y)) {
            Ok(point) => Ok((point, rest)),
            Err(_) => Err(RecordFault::Kind),
        }
    }
}

impl Field for Line {
    ghost use Rattle.journal_format.specs.Spelling.{path_bytes};
    ghost use Rattle.journal_format.specs.Reading.{line_at};
    ghost use Rattle.geom_core.specs.Valid.{IsLineOf};

    ghost spelling = { path_bytes };

    ghost reading = { line_at };

    ghost writable = { IsLineOf };

    #[tactic(auto, using(crate::proofs::Writes::length_be), unfolding(crate::specs::Spelling::path_bytes))]
    fn length(&self) -> u64 {
        length_counted(4, self.positions())
    }

    #[tactic(auto, using(crate::proofs::Writes::length_path), unfolding(crate::specs::Spelling::path_bytes, crate::specs::Spelling::counted))]
    fn put(&self, into: &mut Vec<u8>) {
        put_number(4, self.count() as u64, into);
        put_all(self.positions(), into);
    }

    #[tactic(auto, unfolding(crate::specs::Reading::line_at, crate::specs::Reading::shaped))]
    fn read(alloc: Global, bytes: &[u8]) -> Result<(Line, &[u8]), RecordFault> {
        let (points, rest) = read_counted(alloc, bytes)?;
        match Line::new(points) {
            Ok(path) => Ok((path, rest)),
            Err(_) => Err(RecordFault::Kind),
        }
    }
}

impl Field for Ring {
    ghost use Rattle.journal_format.specs.Spelling.{path_bytes};
    ghost use Rattle.journal_format.specs.Reading.{ring_at};
    ghost use Rattle.geom_core.specs.Valid.{IsRingOf};

    ghost spelling = { path_bytes };

    ghost reading = { ring_at };

    ghost writable = { IsRingOf };

    #[tactic(auto, using(crate::proofs::Writes::length_be), unfolding(crate::specs::Spelling::path_bytes))]
    fn length(&self) -> u64 {
        length_counted(4, self.positions())
    }

    #[tactic(auto, using(crate::proofs::Writes::length_path), unfolding(crate::specs::Spelling::path_bytes, crate::specs::Spelling::counted))]
    fn put(&self, into: &mut Vec<u8>) {
        put_number(4, self.count() as u64, into);
        put_all(self.positions(), into);
    }

    #[tactic(auto, unfolding(crate::specs::Reading::ring_at, crate::specs::Reading::shaped))]
    fn read(alloc: Global, bytes: &[u8]) -> Result<(Ring, &[u8]), RecordFault> {
        let (points, rest) = read_counted(alloc, bytes)?;
        match Ring::new(points) {
            Ok(path) => Ok((path, rest)),
            Err(_) => Err(RecordFault::Kind),
        }
    }
}

/// The shell and the holes, where there are so many rings.
#[tactic(auto, unfolding(crate::specs::Reading::rings_at, crate::specs::Reading::shaped))]
fn rings_at(alloc: Global, count: u32, bytes: &[u8]) -> Result<(Polygon, &[u8]), RecordFault>
    ensures { GivesBut RecordFault.OutOfMemory (λ x. (x.0, x.1.now)) result
        (rings_at count bytes.now) }
{
    if count == 0 {
        return Err(RecordFault::Kind);
    }
    let (shell, rest) = Ring::read(alloc, bytes)?;
    let (holes, rest) = read_times(alloc, count - 1, rest)?;
    match Polygon::new(shell, holes) {
        Ok(area) => Ok((area, rest)),
        Err(_) => Err(RecordFault::Kind),
    }
}

impl Field for Polygon {
    ghost use Rattle.journal_format.specs.Spelling.{area_bytes};
    ghost use Rattle.journal_format.specs.Reading.{area_at};
    ghost use Rattle.geom_core.specs.Valid.{IsAreaOf};

    ghost spelling = { area_bytes };

    ghost reading = { area_at };

    ghost writable = { IsAreaOf };

    #[tactic(auto, using(crate::proofs::Writes::length_area), unfolding(crate::specs::Spelling::area_bytes, crate::specs::Spelling::counted))]
    fn length(&self) -> u64 {
        self.shell()
            .length()
            .saturating_add(length_of_all(self.holes()))
            .saturating_add(4)
    }

    #[tactic(auto, using(crate::proofs::Writes::length_area), unfolding(crate::specs::Spelling::area_bytes, crate::specs::Spelling::counted))]
    fn put(&self, into: &mut Vec<u8>) {
        put_number(4, self.count_rings() as u64, into);
        self.shell().put(into);
        put_all(self.holes(), into);
    }

    #[tactic(auto, unfolding(crate::specs::Reading::area_at))]
    fn read(alloc: Global, bytes: &[u8]) -> Result<(Polygon, &[u8]), RecordFault> {
        let (count, rest) = u32_at(bytes)?;
        rings_at(alloc, count, rest)
    }
}
