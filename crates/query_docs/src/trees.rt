//! Queries written as elements.

ghost use Rattle.std.specs.Prelude.{◌≡◌, ◌∷◌, [], ◌++◌, map, IfOk, codes};
ghost use Rattle.std.specs.Option.{option_copied};
ghost use Rattle.wfs_ends.specs.Ends.{joined};
ghost use Rattle.doc_tree.specs.Tree.{prefixed};
ghost use Rattle.fes_filter.specs.Check.{type_in};
ghost use Rattle.fes_docs.specs.Written.{element, leaf, parent, attribute, property_name, reference, type_name};
ghost use Rattle.query_docs.specs.Texts.{order_trees, key_tree, sort_trees, filter_trees, query_tree, query_prefixes};

use doc_tree::{Attribute, Element, Prefixes, QName};
use feature_values::{FeatureType, Schema};
use fes_docs::{FES, filter_tree_in};
use fes_filter::{Filter, Query, SortKey, type_in};
use gml_docs::GML;
use request_parameters::WFS;
use std::alloc::Global;
use wfs_ends::{List, Mem, Text};

// ---- names and elements

fn name_of(alloc: Global, space: &str, local: &str) -> Mem<QName>
    ensures { IfOk result (λ n. n ≡ record { space = space.now; local = local.now }) }
{
    let space = Text::of(alloc, space)?;
    let local = Text::of(alloc, local)?;
    Ok(QName { space, local })
}

fn alone<T: Drop>(alloc: Global, item: T) -> Mem<Vec<T>>
    ensures { IfOk result (λ v. v.items ≡ item ∷ []) }
{
    let mut items = Vec::new(alloc);
    items.push(item)?;
    Ok(items)
}

fn both<T: Drop>(alloc: Global, first: T, second: T) -> Mem<Vec<T>>
    ensures { IfOk result (λ v. v.items ≡ first ∷ second ∷ []) }
{
    let mut items = Vec::new(alloc);
    items.push(first)?;
    items.push(second)?;
    Ok(items)
}

// An element of FES, without attributes.
#[tactic(auto, unfolding(fes_docs::specs::Written::element))]
fn element(alloc: Global, local: &str, children: Vec<Element>, text: Text) -> Mem<Element>
    ensures { IfOk result (λ e. e ≡ element local.now [] children.items text) }
{
    Ok(Element {
        name: name_of(alloc, FES, local)?,
        attributes: List::of(Vec::new(alloc)),
        children: List::of(children),
        text,
    })
}

// One that has a text alone.
#[tactic(auto, unfolding(fes_docs::specs::Written::leaf))]
fn leaf(alloc: Global, local: &str, text: Text) -> Mem<Element>
    ensures { IfOk result (λ e. e ≡ leaf local.now text) }
{
    element(alloc, local, Vec::new(alloc), text)
}

// One that has children alone.
#[tactic(auto, unfolding(fes_docs::specs::Written::parent))]
fn parent(alloc: Global, local: &str, children: Vec<Element>) -> Mem<Element>
    ensures { IfOk result (λ e. e ≡ parent local.now children.items) }
{
    let text = Text::of(alloc, "")?;
    element(alloc, local, children, text)
}

// A name with the prefix of the schema.
#[tactic(auto, unfolding(doc_tree::specs::Tree::prefixed, wfs_ends::specs::Ends::joined))]
fn prefixed(alloc: Global, schema: &Schema, local: &str) -> Mem<Text>
    ensures { IfOk result (λ t. t ≡ prefixed schema.now.prefix local.now) }
{
    let mut name = String::new(alloc);
    name.push_str(schema.prefix.as_str())?;
    name.push_str(":")?;
    name.push_str(local)?;
    Text::of_string(name)
}

// ---- SortBy

fn property_name(of_type: Option<&FeatureType>, property: u32) -> &str
    ensures { result.now ≡ property_name (option_copied of_type.entry) property }
{
    let Some(of_type) = of_type else {
        return "";
    };
    match of_type.properties.items().get(property as usize) {
        None => "",
        Some(property) => property.name.as_str(),
    }
}

// A ValueReference: the name of a property.
#[tactic(auto, unfolding(fes_docs::specs::Written::reference))]
fn reference(alloc: Global, schema: &Schema, kind: Option<u32>, property: u32) -> Mem<Element>
    ensures { IfOk result (λ e. e ≡ reference schema.now kind property) }
{
    let name = property_name(type_in(schema, kind), property);
    let text = prefixed(alloc, schema, name)?;
    leaf(alloc, "ValueReference", text)
}

// The elements in a SortProperty: a ValueReference, and a SortOrder where the order goes down.
fn key_children(alloc: Global, property: Element, descending: bool) -> Mem<Vec<Element>>
    ensures { IfOk result (λ v. v.items ≡ property ∷ order_trees descending) }
{
    if !descending {
        return alone(alloc, property);
    }
    let text = Text::of(alloc, "DESC")?;
    both(alloc, property, leaf(alloc, "SortOrder", text)?)
}

// A SortProperty.
#[tactic(auto, unfolding(crate::specs::Texts::key_tree))]
fn key_tree(alloc: Global, schema: &Schema, kind: Option<u32>, key: SortKey) -> Mem<Element>
    ensures { IfOk result (λ e. e ≡ key_tree schema.now kind key) }
{
    let property = reference(alloc, schema, kind, key.property)?;
    let children = key_children(alloc, property, key.descending)?;
    parent(alloc, "SortProperty", children)
}

fn key_trees(
    alloc: Global,
    schema: &Schema,
    kind: Option<u32>,
    keys: &[SortKey],
) -> Mem<Vec<Element>>
    ensures { IfOk result (λ v. v.items ≡ map (key_tree schema.now kind) keys.now) }
{
    let mut trees = Vec::new(alloc);
    for key in keys {
        trees.push(key_tree(alloc, schema, kind, *key)?)?;
    }
    Ok(trees)
}

// A SortBy, where features are sorted.
fn sort_trees(
    alloc: Global,
    schema: &Schema,
    kind: Option<u32>,
    keys: &[SortKey],
) -> Mem<Vec<Element>>
    ensures { IfOk result (λ v. v.items ≡ sort_trees schema.now kind keys.now) }
{
    match keys {
        [] => Ok(Vec::new(alloc)),
        [_, ..] => {
            let children = key_trees(alloc, schema, kind, keys)?;
            alone(alloc, parent(alloc, "SortBy", children)?)
        }
    }
}

// ---- Query

// A Filter, where there is one.
fn filter_trees(
    alloc: Global,
    names: &List<Text>,
    schema: &Schema,
    kind: Option<u32>,
    filter: Option<&Filter>,
) -> Mem<Vec<Element>>
    ensures { IfOk result (λ v. v.items ≡ filter_trees names.now schema.now kind
        (option_copied filter.entry)) }
{
    match filter {
        None => Ok(Vec::new(alloc)),
        Some(filter) => alone(alloc, filter_tree_in(alloc, filter, kind, names, schema)?),
    }
}

fn joined_trees(first: Vec<Element>, more: Vec<Element>) -> Mem<Vec<Element>>
    ensures { IfOk result (λ v. v.items ≡ first.items ++ more.items) }
{
    let mut all = first;
    let mut more = more;
    all.append(&mut more)?;
    Ok(all)
}

fn type_name(of_type: Option<&FeatureType>) -> &str
    ensures { result.now ≡ type_name (option_copied of_type.entry) }
{
    match of_type {
        None => "",
        Some(of_type) => of_type.name.as_str(),
    }
}

#[tactic(auto, unfolding(fes_docs::specs::Written::attribute, gml_docs::specs::Written::plain_name))]
fn type_names(alloc: Global, schema: &Schema, kind: Option<u32>) -> Mem<Attribute>
    ensures { IfOk result (λ a. a ≡ attribute (codes "typeNames")
        (prefixed schema.now.prefix (type_name (type_in schema.now kind)))) }
{
    let name = name_of(alloc, "", "typeNames")?;
    let value = prefixed(alloc, schema, type_name(type_in(schema, kind)))?;
    Ok(Attribute { name, value })
}

// A query as an element, in which the parameters have these names.
#[tactic(auto, unfolding(crate::specs::Texts::query_tree))]
fn query_tree(alloc: Global, names: &List<Text>, schema: &Schema, query: &Query) -> Mem<Element>
    ensures { IfOk result (λ e. e ≡ query_tree names.now schema.now query.now) }
{
    let attributes = alone(alloc, type_names(alloc, schema, query.kind)?)?;
    let filter = filter_trees(alloc, names, schema, query.kind, query.filter.as_ref())?;
    let sort = sort_trees(alloc, schema, query.kind, query.sort.items())?;
    Ok(Element {
        name: name_of(alloc, WFS, "Query")?,
        attributes: List::of(attributes),
        children: List::of(joined_trees(filter, sort)?),
        text: Text::of(alloc, "")?,
    })
}

/// Queries as elements, in which the parameters have these names.
pub(crate) fn query_trees(
    alloc: Global,
    names: &List<Text>,
    schema: &Schema,
    queries: &[Query],
) -> Mem<Vec<Element>>
    ensures { IfOk result (λ v. v.items ≡ map (query_tree names.now schema.now) queries.now) }
{
    let mut trees = Vec::new(alloc);
    for query in queries {
        trees.push(query_tree(alloc, names, schema, query)?)?;
    }
    Ok(trees)
}

// ---- prefixes

fn prefix(alloc: Global, prefix: &str, space: &str) -> Mem<(Text, Text)>
    ensures { IfOk result (λ p. p ≡ (prefix.now, space.now)) }
{
    let prefix = Text::of(alloc, prefix)?;
    let space = Text::of(alloc, space)?;
    Ok((prefix, space))
}

/// The prefixes that each element declares.
pub(crate) fn query_prefixes(alloc: Global, schema: &Schema) -> Mem<Prefixes>
    ensures { IfOk result (λ p. p ≡ query_prefixes schema.now) }
{
    let mut pairs = Vec::with_capacity(alloc, 4)?;
    pairs.push(prefix(alloc, "wfs", WFS)?)?;
    pairs.push(prefix(alloc, "fes", FES)?)?;
    pairs.push(prefix(alloc, "gml", GML)?)?;
    pairs.push((schema.prefix.copy(alloc)?, schema.space.copy(alloc)?))?;
    Ok(Prefixes {
        pairs: List::of(pairs),
    })
}
