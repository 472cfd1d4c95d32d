//! The text of an element as positions: two numbers each.

ghost use Rattle.std.specs.Prelude.{◌≡◌, IfOk};
ghost use Rattle.std.specs.Result.{result_map_both};
ghost use Rattle.wfs_ends.specs.Read.{GivesBut};
ghost use Rattle.gml_docs.specs.Numbers.{positions_of, position_in, behind};
ghost use Rattle.gml_docs.specs.declared.fault.GmlFault.TheVariants.{OutOfMemory};

use crate::fault::GmlFault;
use crate::numbers::position_of;
use crate::words::first_word;
use geom_core::{GeomFault, Pos};
use std::alloc::Global;
use wfs_ends::Mem;

// The one position of a text.
#[tactic(auto, unfolding(crate::specs::Numbers::position_in))]
pub(crate) fn position_in(text: &[u8]) -> Result<Pos, GmlFault>
    ensures { result ≡ position_in text.now }
{
    let Some((a, rest)) = first_word(text) else {
        return Err(GmlFault::Number);
    };
    let Some((b, rest)) = first_word(rest) else {
        return Err(GmlFault::Number);
    };
    if first_word(rest).is_some() {
        return Err(GmlFault::Number);
    }
    Ok(position_of(a, b)??)
}

// Positions with one more behind them, or the first of them that is out of range.
fn with_position(
    found: Result<Vec<Pos>, GeomFault>,
    position: Result<Pos, GeomFault>,
) -> Mem<Result<Vec<Pos>, GeomFault>>
    ensures { IfOk result (λ r. result_map_both (λ v. v.items) (λ e. e) r
        ≡ behind (result_map_both (λ v. v.items) (λ e. e) found) position) }
{
    let mut positions = match found {
        Ok(positions) => positions,
        Err(fault) => return Ok(Err(fault)),
    };
    match position {
        Ok(p) => {
            positions.push(p)?;
            Ok(Ok(positions))
        }
        Err(fault) => Ok(Err(fault)),
    }
}

// The positions of a text. That one is out of range is said when all numbers are read.
pub(crate) fn positions_of(alloc: Global, text: &[u8]) -> Result<Vec<Pos>, GmlFault>
    ensures { GivesBut OutOfMemory (λ v. v.items) result (positions_of text.now) }
{
    let mut found: Result<Vec<Pos>, GeomFault> = Ok(Vec::new(alloc));
    let mut rest = text;
    while let Some((a, behind)) = first_word(rest) {
        let Some((b, behind)) = first_word(behind) else {
            return Err(GmlFault::Number);
        };
        found = with_position(found, position_of(a, b)?)?;
        rest = behind;
    }
    Ok(found?)
}
