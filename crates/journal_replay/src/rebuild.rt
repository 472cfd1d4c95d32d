//! The state that the bodies of a journal come to, and these bodies.

ghost use Rattle.std.specs.Prelude.{◌≡◌, [], ◌∷◌, ◌++◌, ◌==◌, ℕ, length, All, IfOk, OnErr, Ok};
ghost use Rattle.wfs_ends.specs.Read.{GivesBut};
ghost use Rattle.feature_schema.specs.Signature.{signature_text};
ghost use Rattle.journal_format.specs.Numbers.{AreBytes};
ghost use Rattle.wfs_model.specs.Playable.{AreQueriesOf};
ghost use Rattle.recovery.specs.declared.replay.ReplayFault.TheVariants.{OutOfMemory as NoMemory};
ghost use Rattle.recovery.specs.Replay.{taken_after};
ghost use Rattle.journal_replay.specs.Replayed.{may_stand, kept_with, kept_after, replayed};

use crate::bodies::Bodies;
use crate::change::change_in;
use feature_schema::signature;
use feature_values::Schema;
use feature_versions::Features;
use recovery::{Replay, ReplayFault};
use std::alloc::Global;
use std::marker::Model;
use wfs_ends::{Mem, Text};
use wfs_model::Change;

/// What a journal's bodies are handed to, so that they come to a state. Contracts see the schema, and the bodies that were taken
/// since the last restart.
#[derive(Drop)]
pub struct Rebuild {
    alloc: Global,
    signature: Text,
    // before any body
    empty: Features,
    // what was played on since the last restart
    played: Option<Features>,
    bodies: Bodies,
}

impl Model for Rebuild {
    ghost use Rattle.std.specs.Coded.{codes};
    ghost use Rattle.journal_replay.specs.Rebuilt.{Rebuilt, IsRebuilt};

    ghost Value = { Rebuilt };

    ghost coded = { Prim.hlevel codes };

    ghost view = { λ r. record { schema = r.empty.schema; taken = r.bodies } };

    ghost invariant = { λ r. IsRebuilt r.signature r.empty r.played r.bodies };
}

fn may_stand(is_first: bool, change: &Change) -> bool
    ensures { result ≡ may_stand is_first change.now }
{
    match change {
        Change::Opening(_) => true,
        Change::Base { .. } => is_first,
        _ => !is_first,
    }
}

// Plays the change of a body, where it may come, and keeps the body. After a refusal nothing has changed.
#[tactic(auto, unfolding(crate::specs::Replayed::kept_with))]
fn play(
    alloc: Global,
    is_first: bool,
    features: &mut Features,
    bodies: &mut Bodies,
    change: Change,
    body: &[u8],
) -> Result<(), ReplayFault>
    requires { AreQueriesOf features.old.schema change }
    ensures kept { GivesBut NoMemory (λ _. features.new.kept) result
        (kept_with features.old.schema is_first features.old.kept change) }
    ensures same { OnErr result (features.new.kept ≡ features.old.kept) }
    ensures schema { features.new.schema ≡ features.old.schema }
    ensures bodies { bodies.new ≡ taken_after result bodies.old body.now }
{
    if !may_stand(is_first, &change) || !features.accepts(alloc, &change)? {
        return Err(ReplayFault::NotOfSchema);
    }
    features.reserve(&change)?;
    bodies.push(body)?;
    features.apply(change);
    Ok(())
}

// Takes a body behind others, on what they came to. After a refusal nothing has changed.
#[tactic(auto, using(crate::proofs::Restoring::said_asked), unfolding(crate::specs::Replayed::kept_after))]
fn take(
    alloc: Global,
    signature: &Text,
    features: &mut Features,
    bodies: &mut Bodies,
    is_first: bool,
    body: &[u8],
) -> Result<(), ReplayFault>
    requires { signature.now ≡ signature_text features.old.schema }
    ensures kept { GivesBut NoMemory (λ _. features.new.kept) result
        (kept_after features.old.schema is_first features.old.kept body.now) }
    ensures same { OnErr result (features.new.kept ≡ features.old.kept) }
    ensures schema { features.new.schema ≡ features.old.schema }
    ensures bodies { bodies.new ≡ taken_after result bodies.old body.now }
{
    let change = change_in(alloc, features.schema(), signature, body)?;
    play(alloc, is_first, features, bodies, change, body)
}

// Puts a value in a place.
fn set<T: Drop>(place: &mut T, value: T)
    ensures { place.new ≡ value }
{
    *place = value;
}

impl Rebuild {
    /// A replay for journals of this schema, which has taken no body.
    ///
    /// # Errors
    ///
    /// `OutOfMemory`.
    pub fn new(alloc: Global, schema: &Schema) -> Mem<Rebuild>
        ensures { IfOk result (λ r. r ≡ record { schema = schema.now; taken = [] }) }
    {
        Ok(Rebuild {
            alloc,
            signature: signature(alloc, schema)?,
            empty: Features::new(alloc, schema)?,
            played: None,
            bodies: Bodies::new(alloc),
        })
    }

    /// What the bodies that were taken come to.
    pub fn features(&self) -> &Features
        ensures schema { result.now.schema ≡ self.now.schema }
        ensures kept { replayed self.now.schema self.now.taken ≡ Ok result.now.kept }
    {
        match &self.played {
            Some(features) => features,
            None => &self.empty,
        }
    }

    /// What the bodies that were taken come to, and the bodies. It takes no memory.
    pub fn into_parts(self) -> (Features, Bodies)
        ensures schema { result.0.schema ≡ self.schema }
        ensures kept { replayed self.schema self.taken ≡ Ok result.0.kept }
        ensures bodies { result.1 ≡ self.taken }
        ensures bytes { All AreBytes result.1 }
    {
        // this call tells that each body is a list of bytes
        let _count = self.bodies.count();
        let Rebuild {
            empty,
            played,
            bodies,
            ..
        } = self;
        match played {
            Some(features) => (features, bodies),
            None => (empty, bodies),
        }
    }
}

impl Replay for Rebuild {
    ghost use Rattle.feature_values.specs.declared.schema.Schema.{Schema};
    ghost use Rattle.journal_replay.specs.Replayed.{verdict_on};

    ghost Setting = { Schema };

    ghost setting = { λ r. r.schema };

    ghost taken = { λ r. r.taken };

    ghost verdict = { λ r. verdict_on r.schema };

    fn restart(&mut self) {
        self.played = None;
        self.bodies.clear();
    }

    fn take_record(&mut self, number: u64, body: &[u8]) -> Result<(), ReplayFault> {
        let is_first = number == 0;
        match &mut self.played {
            Some(features) => take(
                self.alloc,
                &self.signature,
                features,
                &mut self.bodies,
                is_first,
                body,
            ),
            None => {
                let mut features = self.empty.copy(self.alloc)?;
                take(
                    self.alloc,
                    &self.signature,
                    &mut features,
                    &mut self.bodies,
                    is_first,
                    body,
                )?;
                set(&mut self.played, Some(features));
                Ok(())
            }
        }
    }
}
