//! The pairs of names and values of a query, and what they say by listed names.

ghost use Rattle.std.specs.Prelude.{◌≡◌, ◌++◌, [], ◌∷◌, OnOk, IfOk, option_map};
ghost use Rattle.std.specs.Cow.{cow_str_bytes};
ghost use Rattle.std.specs.List.{list_any};
ghost use Rattle.std.specs.Option.{option_copied};
ghost use Rattle.wfs_ends.specs.Read.{GivesBut};
ghost use Rattle.kvp_queries.specs.Pairs.{pairs_of, counts, is_listed, is_repeat, added, next_listed, listed_of, value_of, is_parameter, parameters_of};

use crate::names::{is_same, is_type_names, listed_name, lists, repeated_name};
use form_urlencoded::parse;
use request_parameters::{Given, Operation};
use std::alloc::Global;
use std::borrow::CowStr;
use wfs_ends::{List, Mem, OutOfMemory, Text};
use wfs_model::{AskFault, refused};

/// What pairs say by listed names. No name comes twice among them.
#[derive(Drop)]
pub(crate) struct Listed {
    pub(crate) pairs: List<(Text, Text)>,
}

impl Given for Listed {
    ghost use Rattle.kvp_queries.specs.Pairs.{said_by};

    ghost said = { λ listed. said_by listed.pairs };

    fn value_of(&self, name: &str) -> Option<&Text> {
        value_among(self.pairs.items(), name)
    }
}

// The value of a name.
#[tactic(auto, unfolding(crate::specs::Pairs::value_of), using(crate::proofs::Finds::value_turn))]
fn value_among<'a>(pairs: &'a [(Text, Text)], name: &str) -> Option<&'a Text>
    ensures { option_copied result ≡ value_of name.now pairs.now }
{
    for pair in pairs {
        if is_same(name, pair.0.as_str()) {
            return Some(&pair.1);
        }
    }
    None
}

// ---- all pairs

fn push_pair(pairs: &mut Vec<(Text, Text)>, name: Text, value: Text) -> Mem<()>
    ensures { OnOk result (pairs.new.items ≡ pairs.old.items ++ (name, value) ∷ []) }
{
    pairs.push((name, value))?;
    Ok(())
}

fn push_decoded(
    alloc: Global,
    pairs: &mut Vec<(Text, Text)>,
    name: CowStr<'_>,
    value: CowStr<'_>,
) -> Mem<()>
    ensures { OnOk result (pairs.new.items ≡ pairs.old.items
        ++ (cow_str_bytes name.entry, cow_str_bytes value.entry) ∷ []) }
{
    let name = Text::of(alloc, name.as_str())?;
    let value = Text::of(alloc, value.as_str())?;
    push_pair(pairs, name, value)
}

// The pairs of a query, in order.
#[tactic(auto, unfolding(crate::specs::Pairs::pairs_of))]
pub(crate) fn pairs_of(alloc: Global, query: &[u8]) -> Mem<Vec<(Text, Text)>>
    ensures { IfOk result (λ pairs. pairs.items ≡ pairs_of query.now) }
{
    let mut pairs = Vec::new(alloc);
    for pair in parse(alloc, query) {
        let Ok((name, value)) = pair else {
            return Err(OutOfMemory);
        };
        push_decoded(alloc, &mut pairs, name, value)?;
    }
    Ok(pairs)
}

// ---- listed names

// Whether neither a name nor its value is empty.
#[tactic(auto, unfolding(crate::specs::Pairs::counts))]
fn counts(name: &str, value: &str) -> bool
    ensures { result ≡ counts (name.now, value.now) }
{
    !name.is_empty() && !value.is_empty()
}

// Whether a pair says something by a name that some operation lists.
#[tactic(auto, unfolding(crate::specs::Pairs::is_listed))]
fn is_listed(name: &str, value: &str) -> bool
    ensures { result ≡ is_listed (name.now, value.now) }
{
    counts(name, value) && listed_name(name).is_some()
}

// Whether two pairs may not stand beside each other.
#[tactic(auto, unfolding(crate::specs::Pairs::is_repeat))]
fn is_repeat(name: &str, value: &str, other: &str, other_value: &str) -> bool
    ensures { result ≡ is_repeat (name.now, value.now) (other.now, other_value.now) }
{
    is_same(name, other) || (is_type_names(name) && is_type_names(other) && value != other_value)
}

// Whether a pair may not stand beside one of these.
fn is_repeated(before: &[(Text, Text)], name: &str, value: &str) -> bool
    ensures { result ≡ list_any (is_repeat (name.now, value.now)) before.now }
{
    before.iter().any(|other| is_repeat(name, value, other.0.as_str(), other.1.as_str()))
}

fn push_copy(alloc: Global, pairs: &mut Vec<(Text, Text)>, pair: &(Text, Text)) -> Mem<()>
    ensures { OnOk result (pairs.new.items ≡ pairs.old.items ++ pair.now ∷ []) }
{
    let name = pair.0.copy(alloc)?;
    let value = pair.1.copy(alloc)?;
    push_pair(pairs, name, value)
}

// Adds a pair, which may not repeat one before it.
#[tactic(auto, unfolding(crate::specs::Pairs::added, wfs_ends::specs::Read::unless))]
fn add(alloc: Global, before: &mut Vec<(Text, Text)>, pair: &(Text, Text)) -> Result<(), AskFault>
    ensures { GivesBut AskFault.OutOfMemory (λ _. before.new.items) result
        (added before.old.items pair.now) }
{
    if is_repeated(before, pair.0.as_str(), pair.1.as_str()) {
        return Err(refused(alloc, 8, repeated_name(pair.0.as_str())));
    }
    push_copy(alloc, before, pair)?;
    Ok(())
}

// Adds a pair that says something by a listed name.
#[tactic(auto, unfolding(crate::specs::Pairs::next_listed))]
fn add_listed(
    alloc: Global,
    before: &mut Vec<(Text, Text)>,
    pair: &(Text, Text),
) -> Result<(), AskFault>
    ensures { GivesBut AskFault.OutOfMemory (λ _. before.new.items) result
        (next_listed before.old.items pair.now) }
{
    if !is_listed(pair.0.as_str(), pair.1.as_str()) {
        return Ok(());
    }
    add(alloc, before, pair)
}

// The pairs that say something by listed names. There are no more of them than names are listed.
#[tactic(auto, unfolding(crate::specs::Pairs::listed_of))]
pub(crate) fn listed_of(
    alloc: Global,
    pairs: &[(Text, Text)],
) -> Result<Vec<(Text, Text)>, AskFault>
    ensures { GivesBut AskFault.OutOfMemory (λ v. v.items) result (listed_of pairs.now) }
{
    let mut listed = Vec::new(alloc);
    for pair in pairs {
        add_listed(alloc, &mut listed, pair)?;
    }
    Ok(listed)
}

// ---- parameters of stored queries

// Whether a pair is a parameter of the stored query that an operation uses.
#[tactic(auto, unfolding(crate::specs::Pairs::is_parameter))]
fn is_parameter(operation: Operation, name: &str, value: &str) -> bool
    ensures { result ≡ is_parameter operation (name.now, value.now) }
{
    counts(name, value) && !lists(operation, name)
}

// Adds a pair, if it is such a parameter.
#[tactic(auto, unfolding(crate::specs::Pairs::parameters_of))]
fn add_parameter(
    alloc: Global,
    operation: Operation,
    found: &mut Vec<(Text, Text)>,
    pair: &(Text, Text),
) -> Mem<()>
    ensures { OnOk result (found.new.items ≡ found.old.items
        ++ parameters_of operation (pair.now ∷ [])) }
{
    if is_parameter(operation, pair.0.as_str(), pair.1.as_str()) {
        push_copy(alloc, found, pair)?;
    }
    Ok(())
}

// Adds the parameters of the stored query that an operation uses.
#[tactic(auto, unfolding(crate::specs::Pairs::parameters_of))]
pub(crate) fn add_parameters(
    alloc: Global,
    operation: Operation,
    found: &mut Vec<(Text, Text)>,
    pairs: &[(Text, Text)],
) -> Mem<()>
    ensures { OnOk result (found.new.items ≡ found.old.items ++ parameters_of operation pairs.now) }
{
    for pair in pairs {
        add_parameter(alloc, operation, found, pair)?;
    }
    Ok(())
}
