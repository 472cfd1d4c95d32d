//! Stored queries in a record.

use crate::fault::RecordFault;
use crate::field::{Field, length_counted, put_counted, read_counted};
use std::alloc::Global;
use wfs_ends::{List, Text};
use wfs_model::StoredQuery;

impl Field for StoredQuery {
    ghost use Rattle.journal_format.specs.Spelling.{stored_bytes};
    ghost use Rattle.journal_format.specs.Reading.{stored_at};
    ghost use Rattle.journal_format.specs.Writable.{IsStored};

    ghost spelling = { stored_bytes };

    ghost reading = { stored_at };

    ghost writable = { IsStored };

    #[tactic(auto, using(crate::proofs::Writes::length_be), unfolding(crate::specs::Spelling::stored_bytes))]
    fn length(&self) -> u64 {
        self.id
            .length()
            .saturating_add(self.title.length())
            .saturating_add(length_counted(4, self.parameters.items()))
            .saturating_add(self.text.length())
    }

    #[tactic(auto, using(crate::proofs::Writes::length_be), unfolding(crate::specs::Spelling::stored_bytes))]
    fn put(&self, into: &mut Vec<u8>) {
        self.id.put(into);
        self.title.put(into);
        put_counted(4, self.parameters.items(), into);
        self.text.put(into);
    }

    #[tactic(auto, unfolding(crate::specs::Reading::stored_at))]
    fn read(alloc: Global, bytes: &[u8]) -> Result<(StoredQuery, &[u8]), RecordFault> {
        let (id, rest) = Text::read(alloc, bytes)?;
        let (title, rest) = Text::read(alloc, rest)?;
        let (parameters, rest) = read_counted(alloc, rest)?;
        let (text, rest) = Text::read(alloc, rest)?;
        let query = StoredQuery {
            id,
            title,
            parameters: List::of(parameters),
            queries: List::of(Vec::new(alloc)),
            text,
        };
        Ok((query, rest))
    }
}
