//! The parameters of a use of a stored query: which text is given for each name.

ghost use Rattle.std.specs.Prelude.{◌≡◌, ◌∷◌, ◌++◌, [], OnOk};
ghost use Rattle.std.specs.List.{find, list_any};
ghost use Rattle.std.specs.Option.{option_copied};
ghost use Rattle.wfs_ends.specs.Read.{GivesBut, each};
ghost use Rattle.wfs_model.specs.declared.fault.StoredFault.TheVariants.{OutOfMemory};
ghost use Rattle.wfs_model.specs.Expand.{is_same_name, given_for, with_text, is_stray, no_stray, texts_for};

use crate::readable::is_readable;
use feature_values::Schema;
use fes_filter::Query;
use std::alloc::Global;
use wfs_ends::{Mem, Text};
use wfs_model::{StoredFault, StoredQuery};

/// Whether two names of parameters are the same, whatever the case of their letters is.
fn is_same_name(a: &str, b: &str) -> bool
    ensures { result ≡ is_same_name a.now b.now }
{
    a.eq_ignore_ascii_case(b)
}

/// The first value that is given under a name.
#[tactic(auto, unfolding(wfs_model::specs::Expand::given_for))]
fn given_for<'a>(given: &'a [(Text, Text)], name: &str) -> Option<&'a Text>
    ensures { option_copied result ≡ given_for given.now name.now }
{
    let pair = given
        .iter()
        .find(|pair| is_same_name(pair.0.as_str(), name))?;
    Some(&pair.1)
}

fn is_declared(names: &[Text], name: &str) -> bool
    ensures { result ≡ list_any (is_same_name name.now) names.now }
{
    names.iter().any(|other| is_same_name(name, other.as_str()))
}

/// Whether nothing is declared under a name that is given. Under the empty name stands no parameter, but the property whose values
/// are asked for.
fn is_stray(names: &[Text], pair: &(Text, Text)) -> bool
    ensures { result ≡ is_stray names.now pair.now }
{
    let name = pair.0.as_str();
    !name.is_empty() && !is_declared(names, name)
}

fn first_stray<'a>(names: &[Text], given: &'a [(Text, Text)]) -> Option<&'a (Text, Text)>
    ensures { option_copied result ≡ find (is_stray names.now) given.now }
{
    given.iter().find(|pair| is_stray(names, pair))
}

fn no_stray(alloc: Global, names: &[Text], given: &[(Text, Text)]) -> Result<(), StoredFault>
    ensures { GivesBut OutOfMemory (λ u. u) result
        (no_stray (find (is_stray names.now) given.now)) }
{
    match first_stray(names, given) {
        None => Ok(()),
        Some(pair) => Err(StoredFault::BadParameter(pair.0.copy(alloc)?)),
    }
}

fn push_copy(alloc: Global, texts: &mut Vec<Text>, text: &Text) -> Mem<()>
    ensures { OnOk result (texts.new.items ≡ texts.old.items ++ text.now ∷ []) }
{
    texts.push(text.copy(alloc)?)?;
    Ok(())
}

/// Adds the value of the parameter of a name, which has the place behind those whose values are here.
fn add_text(
    alloc: Global,
    schema: &Schema,
    queries: &[Query],
    texts: &mut Vec<Text>,
    name: &Text,
    text: Option<&Text>,
) -> Result<(), StoredFault>
    ensures { GivesBut OutOfMemory (λ _. texts.new.items) result
        (with_text schema.now queries.now texts.old.items name.now (option_copied text.entry)) }
{
    let Some(text) = text else {
        return Err(StoredFault::MissingParameter(name.copy(alloc)?));
    };
    if !is_readable(alloc, schema, queries, texts.len(), text)? {
        return Err(StoredFault::BadParameter(name.copy(alloc)?));
    }
    Ok(push_copy(alloc, texts, text)?)
}

/// Adds the value that is given under a name.
fn add_given(
    alloc: Global,
    schema: &Schema,
    queries: &[Query],
    texts: &mut Vec<Text>,
    name: &Text,
    given: &[(Text, Text)],
) -> Result<(), StoredFault>
    ensures { GivesBut OutOfMemory (λ _. texts.new.items) result
        (with_text schema.now queries.now texts.old.items name.now (given_for given.now name.now)) }
{
    add_text(
        alloc,
        schema,
        queries,
        texts,
        name,
        given_for(given, name.as_str()),
    )
}

/// The values of the declared parameters, by place.
fn declared(
    alloc: Global,
    schema: &Schema,
    queries: &[Query],
    names: &[Text],
    given: &[(Text, Text)],
) -> Result<Vec<Text>, StoredFault>
    ensures { GivesBut OutOfMemory (λ v. v.items) result
        (each (λ texts name. with_text schema.now queries.now texts name (given_for given.now name))
        [] names.now) }
{
    let mut texts = Vec::new(alloc);
    for name in names {
        add_given(alloc, schema, queries, &mut texts, name, given)?;
    }
    Ok(texts)
}

/// The values of a stored query's parameters, by place (OGC 09-025r2, section 7.9.3). First the declared ones are judged, in order:
/// each has to be given, and to read at all its places. Then the first that is given and not declared is refused.
#[tactic(auto, unfolding(wfs_model::specs::Expand::texts_for))]
pub(crate) fn texts_for(
    alloc: Global,
    schema: &Schema,
    query: &StoredQuery,
    given: &[(Text, Text)],
) -> Result<Vec<Text>, StoredFault>
    ensures { GivesBut OutOfMemory (λ v. v.items) result
        (texts_for schema.now query.now given.now) }
{
    let names = query.parameters.items();
    let texts = declared(alloc, schema, query.queries.items(), names, given)?;
    no_stray(alloc, names, given)?;
    Ok(texts)
}
