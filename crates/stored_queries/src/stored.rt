//! The list of stored queries.

ghost use Rattle.std.specs.Prelude.{◌≡◌, ◌≢◌, ◌<◌, ◌≤◌, ◌+◌, ◌∷◌, ◌++◌, [], length, get_or, IfOk, OnOk, OnErr, IfErr, IsOk, vec_len, vec_capacity};
ghost use Rattle.std.specs.Option.{option_copied};
ghost use Rattle.wfs_ends.specs.Read.{GivesBut};
ghost use Rattle.wfs_model.specs.declared.stored.StoredQuery.{StoredQuery as Definition};
ghost use Rattle.wfs_model.specs.declared.fault.StoredFault.TheVariants.{OutOfMemory as NoMemory};
ghost use Rattle.wfs_model.specs.Playable.{is_ok};
ghost use Rattle.wfs_model.specs.Stored.{is_id_query, is_there, is_known, stored_at, built_in, created, dropped, without_query};
ghost use Rattle.stored_queries.specs.Listed.{left, IsFirstKnown};

use std::alloc::Global;
use std::marker::Model;
use wfs_ends::{List, Mem, Text};
use wfs_model::{ID_QUERY_URN, StoredFault, StoredQuery, is_id_query};

/// The built-in query as it stands in replies.
pub(crate) fn built_in(alloc: Global) -> Mem<StoredQuery>
    ensures { IfOk result (λ query. query ≡ built_in) }
{
    let id = Text::of(alloc, ID_QUERY_URN)?;
    let title = Text::of(alloc, "")?;
    let parameters = only(alloc, "id")?;
    let text = Text::of(alloc, "")?;
    Ok(StoredQuery {
        id,
        title,
        parameters,
        queries: List::of(Vec::new(alloc)),
        text,
    })
}

fn only(alloc: Global, text: &str) -> Mem<List<Text>>
    ensures { IfOk result (λ all. all ≡ text.now ∷ []) }
{
    let mut all = Vec::new(alloc);
    all.push(Text::of(alloc, text)?)?;
    Ok(List::of(all))
}

/// The first stored query with an identifier.
pub(crate) fn stored_at<'a>(stored: &'a [StoredQuery], id: &str) -> Option<&'a StoredQuery>
    ensures { option_copied result ≡ stored_at stored.now id.now }
{
    stored.iter().find(|query| query.id.as_str() == id)
}

/// Whether there is a stored query with an identifier. The built-in one is not meant.
pub fn is_there(stored: &[StoredQuery], id: &str) -> bool
    ensures { result ≡ is_there stored.now id.now }
{
    stored.iter().any(|query| query.id.as_str() == id)
}

/// Whether an identifier is that of the built-in query or of one that is there.
pub(crate) fn is_known(stored: &[StoredQuery], id: &str) -> bool
    ensures { result ≡ is_known stored.now id.now }
{
    is_id_query(id) || is_there(stored, id)
}

/// The same where those of another list are there too.
#[tactic(auto, using(crate::proofs::Created::known_behind))]
fn is_taken(stored: &[StoredQuery], before: &[StoredQuery], id: &str) -> bool
    ensures { result ≡ is_known (stored.now ++ before.now) id.now }
{
    is_known(stored, id) || is_there(before, id)
}

/// The first of new stored queries whose identifier is known: built in, there, or that of one before it. `None`: they may be made.
#[tactic(auto, using(crate::proofs::Created::none_judged, crate::proofs::Created::is_refused, crate::proofs::Created::goes_on, crate::proofs::Created::all_new))]
pub fn first_known(stored: &[StoredQuery], definitions: &[StoredQuery]) -> Option<usize>
    ensures { IsFirstKnown stored.now definitions.now result }
{
    for i in 0..definitions.len() {
        if is_taken(stored, &definitions[..i], definitions[i].id.as_str()) {
            return Some(i);
        }
    }
    None
}

/// The identifier of one of some stored queries.
fn id_at(definitions: List<StoredQuery>, i: usize) -> Text
    requires { i < length definitions }
    ensures { (d : Definition) → result ≡ (get_or definitions i d).id }
{
    let mut definitions = definitions.into_items();
    let StoredQuery { id, .. } = definitions.remove(i);
    id
}

/// Takes out the stored queries with an identifier.
fn take_out(queries: &mut Vec<StoredQuery>, id: &str)
    ensures items { queries.new.items ≡ without_query queries.old.items id.now }
    ensures len { vec_len queries.new ≤ vec_len queries.old }
    ensures capacity { vec_capacity queries.new ≡ vec_capacity queries.old }
{
    queries.retain(|query| query.id.as_str() != id);
}

/// The stored queries but the built-in one, in the order in which they were made. Contracts see the list, and for how many more
/// it takes no memory.
#[derive(Drop)]
pub struct Stored {
    queries: Vec<StoredQuery>,
}

impl Model for Stored {
    ghost use Rattle.std.specs.Prelude.{◌-◌, vec_len, vec_capacity};
    ghost use Rattle.std.specs.Coded.{codes};
    ghost use Rattle.fes_filter.specs.contracts.filter.Filter as filter_row;
    ghost use Rattle.stored_queries.specs.Listed.{Listed};

    ghost Value = { Listed };

    ghost coded = { Prim.hlevel (codes, filter_row.the_row.coded) };

    ghost view = { λ s. record {
      list = s.queries.items;
      spare = vec_capacity s.queries - vec_len s.queries;
    } };
}

impl Stored {
    /// No stored queries. It takes no memory.
    pub fn new(alloc: Global) -> Stored
        ensures { result.list ≡ [] }
    {
        Stored {
            queries: Vec::new(alloc),
        }
    }

    /// The stored queries, in the order in which they were made.
    pub fn list(&self) -> &[StoredQuery]
        ensures { result.now ≡ self.now.list }
    {
        self.queries.as_slice()
    }

    /// Whether one of the stored queries has an identifier. The built-in one is none of them.
    pub fn has(&self, id: &str) -> bool
        ensures { result ≡ is_there self.now.list id.now }
    {
        is_there(self.queries.as_slice(), id)
    }

    /// Whether `create` would make these stored queries: each has a new identifier.
    #[tactic(auto, using(crate::proofs::Created::is_accepted))]
    pub fn accepts(&self, definitions: &[StoredQuery]) -> bool
        ensures { result ≡ is_ok (created self.now.list definitions.now) }
    {
        first_known(self.queries.as_slice(), definitions).is_none()
    }

    /// Makes room, so that so many more stored queries can be made without memory.
    pub fn reserve(&mut self, more: u64) -> Mem<()>
        ensures room { OnOk result (more ≤ self.new.spare) }
        ensures kept { self.old.spare ≤ self.new.spare }
        ensures same { self.new.list ≡ self.old.list }
    {
        self.queries.reserve(more as usize)?;
        Ok(())
    }

    /// Makes stored queries, all of them or none (OGC 09-025r2, section 14.5). After a fault the list is as before.
    ///
    /// # Errors
    ///
    /// `DuplicateId`, with the first identifier that is that of the built-in query, of one that is there, or of one before it
    /// among the new ones. `OutOfMemory` comes only where there is no room for all.
    pub fn create(&mut self, definitions: List<StoredQuery>) -> Result<(), StoredFault>
        ensures value { GivesBut NoMemory (λ _. self.new.list) result
            (created self.old.list definitions) }
        ensures err { OnErr result (self.new.list ≡ self.old.list) }
        ensures memory { length definitions ≤ self.old.spare
            → IfErr result (λ fault. fault ≢ NoMemory) }
        ensures room { self.old.spare ≤ self.new.spare + length definitions }
    {
        if let Some(i) = first_known(self.queries.as_slice(), definitions.items()) {
            return Err(StoredFault::DuplicateId(id_at(definitions, i)));
        }
        Ok(self.append(definitions)?)
    }

    fn append(&mut self, definitions: List<StoredQuery>) -> Mem<()>
        ensures ok { OnOk result (self.new.list ≡ self.old.list ++ definitions) }
        ensures err { OnErr result (self.new.list ≡ self.old.list) }
        ensures memory { length definitions ≤ self.old.spare → IsOk result }
        ensures room { self.old.spare ≤ self.new.spare + length definitions }
    {
        let mut definitions = definitions.into_items();
        self.queries.append(&mut definitions)?;
        Ok(())
    }

    /// Takes the stored query with an identifier away (OGC 09-025r2, section 14.6). It takes no memory, and after a fault the
    /// list is as before.
    ///
    /// # Errors
    ///
    /// `Unknown`, with the identifier, where there is none.
    #[tactic(auto, unfolding(wfs_model::specs::Stored::dropped))]
    pub fn drop_query(&mut self, id: Text) -> Result<(), StoredFault>
        ensures value { left self.new.list result ≡ dropped self.old.list id }
        ensures err { OnErr result (self.new.list ≡ self.old.list) }
        ensures room { self.old.spare ≤ self.new.spare }
    {
        if !is_there(self.queries.as_slice(), id.as_str()) {
            return Err(StoredFault::Unknown(id));
        }
        take_out(&mut self.queries, id.as_str());
        Ok(())
    }
}
