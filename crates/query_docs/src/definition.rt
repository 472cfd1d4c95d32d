//! Definitions of stored queries.

ghost use Rattle.std.specs.Prelude.{◌≡◌, [], ◌∷◌, ◌++◌, OnOk, IfOk, map, unwrap_or};
ghost use Rattle.wfs_ends.specs.Read.{GivesBut, each};
ghost use Rattle.doc_laws.specs.InDocument.{IsInDocument};
ghost use Rattle.feature_schema.specs.Rules.{KeepsRules};
ghost use Rattle.wfs_model.specs.OfSchema.{IsStoredOf};
ghost use Rattle.query_docs.specs.Definitions.{is_language, language_of, expression_others, next_query, queries_of, no_parts, with_title, with_name, with_queries, next_part, declared_by, declared_in, definition_others, definition_of};
ghost use Rattle.query_docs.specs.Texts.{stored_text};
ghost use Rattle.query_docs.specs.Reading.{IsKeptText};
ghost use Rattle.query_docs.specs.Seen.{HasDeclared};

use crate::asked::name_of;
use crate::elements::{no_children, text_alone};
use crate::query::query_of;
use crate::seen::{Seen, none_seen, note_without_case};
use crate::text::text_of;
use doc_tree::Element;
use feature_values::Schema;
use fes_filter::Query;
use request_parameters::{Attributes, Given, is_wfs, misplaced, no_others, required_of};
use std::alloc::Global;
use wfs_ends::{List, Mem, Text};
use wfs_model::{AskFault, StoredQuery, refused};

/// The parts of a definition that were read so far.
#[derive(Drop)]
pub(crate) struct Parts {
    title: Option<Text>,
    names: List<Text>,
    queries: Option<List<Query>>,
}

// ---- the queries

#[tactic(auto, unfolding(crate::specs::Definitions::is_language))]
fn is_language(text: &str) -> bool
    ensures { result ≡ is_language text.now }
{
    text == "urn:ogc:def:queryLanguage:OGC-WFS::WFS_QueryExpression"
        || text == "urn:ogc:def:queryLanguage:OGC-WFS::WFSQueryExpression"
}

// Refuses other languages of queries.
#[tactic(auto, unfolding(crate::specs::Definitions::language_of, wfs_ends::specs::Read::unless))]
fn language_of(alloc: Global, element: &Element) -> Result<(), AskFault>
    ensures { GivesBut AskFault.OutOfMemory (λ x. x) result (language_of element.now) }
{
    let said = Attributes { of: element };
    let Some(text) = said.value_of("language") else {
        return Ok(());
    };
    if !is_language(text.as_str()) {
        return Err(refused(alloc, 12, "language"));
    }
    Ok(())
}

#[tactic(auto, unfolding(crate::specs::Definitions::expression_others))]
fn expression_others(alloc: Global, element: &Element) -> Result<(), AskFault>
    ensures { GivesBut AskFault.OutOfMemory (λ x. x) result (expression_others element.now) }
{
    no_others(
        alloc,
        element,
        &["returnFeatureTypes", "language", "isPrivate"],
    )
}

fn push_query(found: &mut Vec<Query>, query: Query) -> Mem<()>
    ensures { OnOk result (found.new.items ≡ found.old.items ++ query ∷ []) }
{
    found.push(query)?;
    Ok(())
}

#[tactic(auto, unfolding(crate::specs::Definitions::next_query, wfs_ends::specs::Read::unless))]
fn add_query(
    alloc: Global,
    names: &List<Text>,
    schema: &Schema,
    found: &mut Vec<Query>,
    element: &Element,
) -> Result<(), AskFault>
    ensures { GivesBut AskFault.OutOfMemory (λ _. found.new.items) result
        (next_query names.now schema.now found.old.items element.now) }
{
    if !is_wfs(element, "Query") {
        return Err(misplaced(alloc, element));
    }
    let query = query_of(alloc, Some(names), schema, element)?;
    push_query(found, query)?;
    Ok(())
}

/// Several queries, in which parameters of these names may stand.
pub(crate) fn all_queries(
    alloc: Global,
    names: &List<Text>,
    schema: &Schema,
    elements: &[Element],
) -> Result<Vec<Query>, AskFault>
    ensures { GivesBut AskFault.OutOfMemory (λ v. v.items) result
        (each (next_query names.now schema.now) [] elements.now) }
{
    let mut found = Vec::new(alloc);
    for element in elements {
        add_query(alloc, names, schema, &mut found, element)?;
    }
    Ok(found)
}

// The queries of a QueryExpressionText.
#[tactic(auto, unfolding(crate::specs::Definitions::queries_of, wfs_ends::specs::Read::unless))]
fn queries_of(
    alloc: Global,
    names: &List<Text>,
    schema: &Schema,
    element: &Element,
) -> Result<List<Query>, AskFault>
    ensures { GivesBut AskFault.OutOfMemory (λ x. x) result
        (queries_of names.now schema.now element.now) }
{
    language_of(alloc, element)?;
    expression_others(alloc, element)?;
    let queries = all_queries(alloc, names, schema, element.children.items())?;
    if element.children.items().is_empty() {
        return Err(misplaced(alloc, element));
    }
    Ok(List::of(queries))
}

// ---- the parts

// A Title, of which there is one.
#[tactic(auto, unfolding(crate::specs::Definitions::with_title, wfs_ends::specs::Read::unless))]
fn with_title(alloc: Global, found: Parts, element: &Element) -> Result<Parts, AskFault>
    ensures gives { GivesBut AskFault.OutOfMemory (λ x. x) result (with_title found element.now) }
    ensures names { IfOk result (λ parts. parts.names ≡ found.names) }
{
    if found.title.is_some() {
        return Err(misplaced(alloc, element));
    }
    let title = text_alone(alloc, element)?.copy(alloc)?;
    Ok(Parts {
        title: Some(title),
        names: found.names,
        queries: found.queries,
    })
}

fn with_last(names: List<Text>, name: Text) -> Mem<List<Text>>
    ensures { IfOk result (λ all. all ≡ names ++ name ∷ []) }
{
    let mut all = names.into_items();
    all.push(name)?;
    Ok(List::of(all))
}

// A Parameter. Its name is looked up in the set of those that came before.
#[tactic(auto, unfolding(crate::specs::Definitions::with_name, wfs_ends::specs::Read::unless))]
fn with_name(
    alloc: Global,
    seen: &mut Seen,
    found: Parts,
    element: &Element,
) -> Result<Parts, AskFault>
    requires seen { HasDeclared seen.old found.names }
    ensures gives { GivesBut AskFault.OutOfMemory (λ x. x) result (with_name found element.now) }
    ensures seen { IfOk result (λ parts. HasDeclared seen.new parts.names) }
{
    let name = name_of(alloc, element)?;
    no_others(alloc, element, &["name", "type"])?;
    if !note_without_case(alloc, seen, name.as_str())? {
        return Err(refused(alloc, 22, name.as_str()));
    }
    no_children(alloc, element.children.items())?;
    Ok(Parts {
        title: found.title,
        names: with_last(found.names, name)?,
        queries: found.queries,
    })
}

// A QueryExpressionText, of which there is one.
#[tactic(auto, unfolding(crate::specs::Definitions::with_queries, wfs_ends::specs::Read::unless))]
fn with_queries(
    alloc: Global,
    names: &List<Text>,
    schema: &Schema,
    found: Parts,
    element: &Element,
) -> Result<Parts, AskFault>
    ensures gives { GivesBut AskFault.OutOfMemory (λ x. x) result
        (with_queries names.now schema.now found element.now) }
    ensures names { IfOk result (λ parts. parts.names ≡ found.names) }
{
    if found.queries.is_some() {
        return Err(misplaced(alloc, element));
    }
    let queries = queries_of(alloc, names, schema, element)?;
    Ok(Parts {
        title: found.title,
        names: found.names,
        queries: Some(queries),
    })
}

// One part more.
#[tactic(auto, unfolding(crate::specs::Definitions::next_part))]
fn next_part(
    alloc: Global,
    names: &List<Text>,
    schema: &Schema,
    seen: &mut Seen,
    found: Parts,
    element: &Element,
) -> Result<Parts, AskFault>
    requires seen { HasDeclared seen.old found.names }
    ensures gives { GivesBut AskFault.OutOfMemory (λ x. x) result
        (next_part names.now schema.now found element.now) }
    ensures seen { IfOk result (λ parts. HasDeclared seen.new parts.names) }
{
    if is_wfs(element, "Title") {
        return with_title(alloc, found, element);
    }
    if is_wfs(element, "Abstract") {
        return Ok(found);
    }
    if is_wfs(element, "Parameter") {
        return with_name(alloc, seen, found, element);
    }
    if is_wfs(element, "QueryExpressionText") {
        return with_queries(alloc, names, schema, found, element);
    }
    Err(misplaced(alloc, element))
}

// All parts.
fn all_parts(
    alloc: Global,
    names: &List<Text>,
    schema: &Schema,
    elements: &[Element],
) -> Result<Parts, AskFault>
    ensures { GivesBut AskFault.OutOfMemory (λ x. x) result
        (each (next_part names.now schema.now) no_parts elements.now) }
{
    let mut seen = none_seen(alloc);
    let mut found = Parts {
        title: None,
        names: List::of(Vec::new(alloc)),
        queries: None,
    };
    for element in elements {
        found = next_part(alloc, names, schema, &mut seen, found, element)?;
    }
    Ok(found)
}

// ---- the whole

// Adds the name that an element declares.
#[tactic(auto, unfolding(crate::specs::Definitions::declared_by))]
fn add_declared(alloc: Global, names: &mut Vec<Text>, element: &Element) -> Mem<()>
    ensures { OnOk result (names.new.items ≡ names.old.items ++ declared_by element.now) }
{
    if !is_wfs(element, "Parameter") {
        return Ok(());
    }
    let said = Attributes { of: element };
    match said.value_of("name") {
        None => Ok(()),
        Some(name) => {
            names.push(name.copy(alloc)?)?;
            Ok(())
        }
    }
}

// All names that elements declare.
fn declared_in(alloc: Global, elements: &[Element]) -> Mem<List<Text>>
    ensures { IfOk result (λ names. names ≡ declared_in elements.now) }
{
    let mut names = Vec::new(alloc);
    for element in elements {
        add_declared(alloc, &mut names, element)?;
    }
    Ok(List::of(names))
}

#[tactic(auto, unfolding(crate::specs::Definitions::definition_others))]
fn definition_others(alloc: Global, element: &Element) -> Result<(), AskFault>
    ensures { GivesBut AskFault.OutOfMemory (λ x. x) result (definition_others element.now) }
{
    no_others(alloc, element, &["id"])
}

fn title_of(alloc: Global, title: Option<Text>) -> Mem<Text>
    ensures { IfOk result (λ t. t ≡ unwrap_or title []) }
{
    match title {
        None => Text::of(alloc, ""),
        Some(title) => Ok(title),
    }
}

// A stored query of these parts.
fn stored_of(
    alloc: Global,
    schema: &Schema,
    id: Text,
    title: Option<Text>,
    names: List<Text>,
    queries: List<Query>,
) -> Mem<StoredQuery>
    ensures { IfOk result (λ stored. stored ≡ record {
      id = id;
      title = unwrap_or title [];
      parameters = names;
      queries = queries;
      text = stored_text schema.now names queries;
    }) }
{
    let title = title_of(alloc, title)?;
    let text = text_of(alloc, &queries, &names, schema)?;
    Ok(StoredQuery {
        id,
        title,
        parameters: names,
        queries,
        text,
    })
}

#[tactic(auto, unfolding(crate::specs::Definitions::definition_of, wfs_ends::specs::Read::unless))]
fn definition_of(alloc: Global, element: &Element, schema: &Schema) -> Result<StoredQuery, AskFault>
    ensures { GivesBut AskFault.OutOfMemory (λ x. x) result (definition_of schema.now element.now) }
{
    if !is_wfs(element, "StoredQueryDefinition") {
        return Err(misplaced(alloc, element));
    }
    let id = required_of(alloc, &Attributes { of: element }, "id")?;
    definition_others(alloc, element)?;
    let names = declared_in(alloc, element.children.items())?;
    let parts = all_parts(alloc, &names, schema, element.children.items())?;
    let Parts {
        title,
        names,
        queries,
    } = parts;
    let Some(queries) = queries else {
        return Err(misplaced(alloc, element));
    };
    Ok(stored_of(alloc, schema, id, title, names, queries)?)
}

/// Reads a StoredQueryDefinition (OGC 09-025r2, section 14.2) for the types of a schema.
///
/// Its parts are judged as `read_asked` says of elements; the first refusal is answered. It has `id` (required), and holds in any
/// order:
///
/// - at most one Title, a text alone; without it the title is empty;
/// - any number of Abstract, which are passed over;
/// - any number of Parameter, each with `name` (required, not empty) and `type`, which is not judged. A name that is equal to an
///   earlier one but for the case of ASCII letters is row 22 with the name;
/// - one QueryExpressionText, with `language` (the WFS query expression, else row 12), `returnFeatureTypes` and `isPrivate`, which
///   are not judged, and with one Query or more. In their filters a literal or a `rid` that is `${name}` stands for the parameter of
///   just this name, wherever that is declared; a name that is not declared is row 10 with the name.
///
/// The text is the one that `text_of` writes for the queries, and `read_text` reads it back as them. `OutOfMemory`: there is no memory for the stored query, or for the
/// name that a refusal points at.
pub fn read_definition(
    alloc: Global,
    element: &Element,
    schema: &Schema,
) -> Result<StoredQuery, AskFault>
    ensures gives { GivesBut AskFault.OutOfMemory (λ x. x) result
        (definition_of schema.now element.now) }
    ensures of_schema { IfOk result (λ stored. IsStoredOf schema.now stored) }
    // The text reads back, where the schema is one of a schema file, and the element one of a document.
    ensures kept { KeepsRules schema.now → IsInDocument element.now
        → IfOk result (IsKeptText schema.now) }
{
    definition_of(alloc, element, schema)
}
