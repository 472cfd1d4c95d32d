//! A source read to its end.

ghost use Rattle.std.specs.Prelude.{◌≡◌, length, IfOk, Ok};
ghost use Rattle.http_session.specs.Reading.{IsCalm};
ghost use Rattle.wfsd_commands.specs.Source.{IsSourceRead, IsFilled};

use std::alloc::Global;
use wfs_ends::{Mem, Source};

/// What the reading of a source came to.
#[derive(Debug, Drop)]
pub enum SourceRead {
    /// All its bytes.
    Whole(Vec<u8>),
    /// It has more bytes than it may have.
    TooLong,
    /// It failed.
    Fault,
}

/// Reads a source to its end, or to the byte behind the most that it may have.
pub fn read_up_to<Q: Source>(alloc: Global, source: &mut Q, most: u32) -> Mem<SourceRead>
    ensures read { IfOk result (λ read. IsSourceRead most (Q.source source.old) read
        (Q.source source.new)) }
    ensures calm { (result ≡ Ok SourceRead.Fault → ⊥)
        → IsCalm (Q.source source.old) (Q.source source.new) }
{
    let mut bytes = zeros(alloc, most as usize + 1)?;
    match fill(source, &mut bytes) {
        Filled::Whole => Ok(SourceRead::TooLong),
        Filled::Ended(count) => {
            bytes.truncate(count);
            Ok(SourceRead::Whole(bytes))
        }
        Filled::Fault => Ok(SourceRead::Fault),
    }
}

// Memory for so many bytes.
fn zeros(alloc: Global, count: usize) -> Mem<Vec<u8>>
    ensures { IfOk result (λ bytes. length bytes.items ≡ count) }
{
    Ok(vec![in alloc; 0u8; count]?)
}

// What the filling of some bytes came to.
#[derive(Debug, Drop)]
enum Filled {
    // All of them are filled.
    Whole,
    // The source ended, when so many were filled.
    Ended(usize),
    // The source failed.
    Fault,
}

// Fills bytes from a source.
#[tactic(auto, using(crate::proofs::Filling::takes_both, crate::proofs::Filling::took))]
fn fill<Q: Source>(source: &mut Q, bytes: &mut [u8]) -> Filled
    ensures filled { IsFilled bytes.new (Q.source source.old) result (Q.source source.new) }
    ensures size { length bytes.new ≡ length bytes.old }
    ensures calm { (result ≡ Filled.Fault → ⊥)
        → IsCalm (Q.source source.old) (Q.source source.new) }
{
    let mut done = 0;
    while done < bytes.len() {
        match source.take(&mut bytes[done..]) {
            Ok(0) => return Filled::Ended(done),
            Ok(count) => done += count,
            Err(_) => return Filled::Fault,
        }
    }
    Filled::Whole
}
