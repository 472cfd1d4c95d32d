//! Laws of the definitions. Each is the contract of a function that does nothing.

ghost use Rattle.std.specs.Prelude.{◌≡◌, ◌≤◌, ℕ, List, All, Some, take, true};
ghost use Rattle.feature_values.specs.declared.schema.Schema.{Schema};
ghost use Rattle.wfs_model.specs.declared.change.Change.{Change};
ghost use Rattle.wfs_model.specs.declared.entry.Entry.{Entry};
ghost use Rattle.wfs_model.specs.declared.reply.Refusal.{Refusal};
ghost use Rattle.wfs_model.specs.declared.reply.Reply.TheVariants.{Refused};
ghost use Rattle.wfs_model.specs.declared.request.Request.{Request};
ghost use Rattle.wfs_model.specs.State.{State, Durable, durable};
ghost use Rattle.wfs_model.specs.Kept.{IsKept};
ghost use Rattle.wfs_model.specs.OfSchema.{IsOfSchema};
ghost use Rattle.wfs_model.specs.Changing.{IsChange};
ghost use Rattle.wfs_model.specs.Step.{step};
ghost use Rattle.wfs_model.specs.History.{after};
ghost use Rattle.wfs_model.specs.Played.{accepted, change_of, played, played_one};
ghost use Rattle.wfs_model.specs.Playable.{AreQueriesOf, is_playable, most_number};

/// What outlives the process is, after each beginning of a history, what the changes of its entries leave: nothing else is
/// needed to have it again.
pub fn changes_tell_what_is_kept()
    ensures { (schema : Schema) (opening : State) (entries : List Entry) (n : ℕ)
        → IsKept schema (durable opening)
        → durable (after schema opening entries n)
        ≡ played (durable opening) (accepted schema opening (take n entries)) }
{}

/// A request that is refused changes the last moment alone.
pub fn refused_changes_nothing()
    ensures { (schema : Schema) (state : State) (moment : ℕ) (request : Request) (refusal : Refusal)
        → IsChange request → (step schema state moment request).0 ≡ Refused refusal
        → (step schema state moment request).1 ≡ record state { last = moment } }
{}

/// The last moment of a step is its moment.
pub fn each_step_sets_the_moment()
    ensures { (schema : Schema) (state : State) (moment : ℕ) (request : Request) → IsChange request
        → (step schema state moment request).1.last ≡ moment }
{}

/// A step keeps well what outlives the process: features stand in order, each such as the schema allows and under a number that was
/// given, and stored queries are such as it allows, under identifiers of their own.
pub fn steps_keep_what_is_kept_well()
    ensures { (schema : Schema) (state : State) (moment : ℕ) (request : Request)
        → IsKept schema (durable state) → IsOfSchema schema request
        → IsKept schema (durable (step schema state moment request).1) }
{}

/// A change that may be played keeps well what outlives the process, where what its stored queries ask is such as the schema allows.
pub fn playing_keeps_what_is_kept_well()
    ensures { (schema : Schema) (kept : Durable) (change : Change) → IsKept schema kept
        → AreQueriesOf schema change → is_playable schema kept change ≡ true
        → IsKept schema (played_one kept change) }
{}

/// The change that a step makes may be played, where no number that was given then is beyond the limit.
pub fn changes_of_steps_may_be_played()
    ensures { (schema : Schema) (state : State) (moment : ℕ) (request : Request) (change : Change)
        → IsKept schema (durable state) → IsOfSchema schema request
        → change_of schema state moment request ≡ Some change
        → All (λ n. n ≤ most_number) (step schema state moment request).1.counters
        → is_playable schema (durable state) change ≡ true }
{}
