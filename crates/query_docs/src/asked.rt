//! What a document asks for of the features: a query, or a use of a stored one.

ghost use Rattle.std.specs.Prelude.{◌≡◌, [], ◌∷◌, ◌++◌, None, OnOk, IfOk, map};
ghost use Rattle.wfs_ends.specs.Read.{GivesBut, each};
ghost use Rattle.query_docs.specs.Seen.{HasGiven};
ghost use Rattle.query_docs.specs.Asked.{name_of, next_given, use_others, use_of, plain_of, asked_of, IsAskedOf};

use crate::query::query_of;
use crate::seen::{Seen, none_seen, note};
use doc_tree::Element;
use feature_values::Schema;
use request_parameters::{Attributes, is_wfs, misplaced, no_others, required_of, text_in};
use std::alloc::Global;
use wfs_ends::{List, Mem, Text};
use wfs_model::{AskFault, Asked, refused};

// The name of a parameter.
#[tactic(auto, unfolding(crate::specs::Asked::name_of, wfs_ends::specs::Read::unless))]
pub(crate) fn name_of(alloc: Global, element: &Element) -> Result<Text, AskFault>
    ensures { GivesBut AskFault.OutOfMemory (λ x. x) result (name_of element.now) }
{
    let name = required_of(alloc, &Attributes { of: element }, "name")?;
    if name.as_str().is_empty() {
        return Err(refused(alloc, 11, "name"));
    }
    Ok(name)
}

fn push_given(given: &mut Vec<(Text, Text)>, name: Text, value: Text) -> Mem<()>
    ensures { OnOk result (given.new.items ≡ given.old.items ++ (name, value) ∷ []) }
{
    given.push((name, value))?;
    Ok(())
}

// One Parameter more. Its name is looked up in the set of those that came before.
#[tactic(auto, unfolding(crate::specs::Asked::next_given, wfs_ends::specs::Read::unless))]
fn add_given(
    alloc: Global,
    seen: &mut Seen,
    given: &mut Vec<(Text, Text)>,
    element: &Element,
) -> Result<(), AskFault>
    requires seen { HasGiven seen.old given.old.items }
    ensures gives { GivesBut AskFault.OutOfMemory (λ _. given.new.items) result
        (next_given given.old.items element.now) }
    ensures seen { OnOk result (HasGiven seen.new given.new.items) }
{
    if !is_wfs(element, "Parameter") {
        return Err(misplaced(alloc, element));
    }
    let name = name_of(alloc, element)?;
    no_others(alloc, element, &["name"])?;
    if !note(alloc, seen, name.as_str())? {
        return Err(misplaced(alloc, element));
    }
    let value = text_in(alloc, element)?.copy(alloc)?;
    push_given(given, name, value)?;
    Ok(())
}

// All that is given.
fn all_given(alloc: Global, elements: &[Element]) -> Result<Vec<(Text, Text)>, AskFault>
    ensures { GivesBut AskFault.OutOfMemory (λ v. v.items) result
        (each next_given [] elements.now) }
{
    let mut seen = none_seen(alloc);
    let mut given = Vec::new(alloc);
    for element in elements {
        add_given(alloc, &mut seen, &mut given, element)?;
    }
    Ok(given)
}

#[tactic(auto, unfolding(crate::specs::Asked::use_others))]
fn use_others(alloc: Global, element: &Element) -> Result<(), AskFault>
    ensures { GivesBut AskFault.OutOfMemory (λ x. x) result (use_others element.now) }
{
    no_others(alloc, element, &["id", "handle"])
}

// A use of a stored query.
#[tactic(auto, unfolding(crate::specs::Asked::use_of))]
fn use_of(alloc: Global, element: &Element) -> Result<Asked, AskFault>
    ensures { GivesBut AskFault.OutOfMemory (λ x. x) result (use_of element.now) }
{
    let id = required_of(alloc, &Attributes { of: element }, "id")?;
    use_others(alloc, element)?;
    let given = all_given(alloc, element.children.items())?;
    Ok(Asked::Stored {
        id,
        given: List::of(given),
    })
}

// A query, in which no parameters stand.
#[tactic(auto, unfolding(crate::specs::Asked::plain_of))]
fn plain_of(alloc: Global, schema: &Schema, element: &Element) -> Result<Asked, AskFault>
    ensures { GivesBut AskFault.OutOfMemory (λ x. x) result (plain_of schema.now element.now) }
{
    let query = query_of(alloc, None, schema, element)?;
    Ok(Asked::Plain(query))
}

// What an element asks for.
#[tactic(auto, unfolding(crate::specs::Asked::asked_of))]
fn asked_of(alloc: Global, element: &Element, schema: &Schema) -> Result<Asked, AskFault>
    ensures { GivesBut AskFault.OutOfMemory (λ x. x) result (asked_of schema.now element.now) }
{
    if is_wfs(element, "Query") {
        return plain_of(alloc, schema, element);
    }
    if is_wfs(element, "StoredQuery") {
        return use_of(alloc, element);
    }
    Err(misplaced(alloc, element))
}

/// Reads what an element asks for of the features of a schema (OGC 09-025r2, section 7.9): a Query, or a StoredQuery, which is a use
/// of a stored one.
///
/// Each element is judged in this order, and the first refusal is answered, by its row of the table of refusals (docs/FORMATS.md)
/// and the name of the part that it points at. Its name is allowed where it stands, else row 8 with its local name. Its listed
/// attributes, in the order of the list: one that is required and missing is row 10, a value that is none row 11, each with the
/// attribute's name. Other attributes in no namespace: the first by name is row 12. Its children in document order. Children that
/// are missing are row 8 with the local name of the element that wants them. Attributes of namespaces are not looked at, nor is
/// text beside child elements.
///
/// - A Query has `typeNames` (required; one type of the schema, whose prefix is not judged; several names with white space between
///   are row 12), `srsName` (one of the schema's) and `handle`; `aliases` and `featureVersion` are row 12. In it stand at most one
///   `fes:Filter`, whose faults are refused as `fes_docs` says, and then at most one `fes:SortBy`; a PropertyName is row 12.
/// - A SortBy (OGC 09-026r2, section 7.13) holds one SortProperty or more, each with a ValueReference and then at most one
///   SortOrder. A property that the type has not is row 11 with its name as it was given, a geometry row 11 with `sortBy`, and an
///   order other than `ASC` and `DESC` row 11 with `SortOrder`.
/// - A StoredQuery has `id` (required) and `handle`, and holds any number of Parameter, each with `name` (required, not empty) and
///   a text. A name that comes again, in the same case, is row 8 with `Parameter`.
///
/// Texts are shared with the tree. `OutOfMemory`: there is no memory for what is asked, or for the name that a refusal points at.
pub fn read_asked(alloc: Global, element: &Element, schema: &Schema) -> Result<Asked, AskFault>
    ensures gives { GivesBut AskFault.OutOfMemory (λ x. x) result
        (asked_of schema.now element.now) }
    ensures of_schema { IfOk result (λ asked. IsAskedOf schema.now asked) }
{
    asked_of(alloc, element, schema)
}
