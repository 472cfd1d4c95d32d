//! Properties, literals and identifiers, as they are written.

ghost use Rattle.std.specs.Prelude.{◌≡◌, ◌∷◌, [], codes, decimal, slice_get, IfOk};
ghost use Rattle.std.specs.Option.{option_copied};
ghost use Rattle.std.specs.Fmt.{signed_decimal};
ghost use Rattle.wfs_ends.specs.Ends.{joined};
ghost use Rattle.doc_tree.specs.Tree.{prefixed};
ghost use Rattle.fes_docs.specs.Written.{property_name, reference, value_text, use_of, place_text, side, type_name, id_text, id_tree};

use crate::written::{alone, attribute, element, leaf, three};
use doc_tree::Element;
use feature_values::{FeatureType, Rid, Schema, Value};
use fes_filter::{Expr, IdRef, type_in};
use itoa::Buffer;
use std::alloc::Global;
use wfs_ends::{List, Mem, Text};

// ---- properties

fn property_name(alloc: Global, of_type: Option<&FeatureType>, property: u32) -> Mem<Text>
    ensures { IfOk result (λ t. t ≡ property_name (option_copied of_type.entry) property) }
{
    let Some(of_type) = of_type else {
        return Text::of(alloc, "");
    };
    match of_type.properties.items().get(property as usize) {
        None => Text::of(alloc, ""),
        Some(property) => property.name.copy(alloc),
    }
}

#[tactic(auto, unfolding(doc_tree::specs::Tree::prefixed))]
fn prefixed(alloc: Global, prefix: &Text, local: &Text) -> Mem<Text>
    ensures { IfOk result (λ t. t ≡ prefixed prefix.now local.now) }
{
    three(alloc, prefix.as_str(), ":", local.as_str())
}

// A ValueReference: the name of a property, with the prefix of the schema.
#[tactic(auto, unfolding(crate::specs::Written::reference))]
pub(crate) fn reference(
    alloc: Global,
    schema: &Schema,
    kind: Option<u32>,
    property: u32,
) -> Mem<Element>
    ensures { IfOk result (λ e. e ≡ reference schema.now kind property) }
{
    let name = property_name(alloc, type_in(schema, kind), property)?;
    let text = prefixed(alloc, &schema.prefix, &name)?;
    leaf(alloc, "ValueReference", text)
}

// ---- literals

// A whole number in decimal.
pub(crate) fn whole_text(alloc: Global, number: i64) -> Mem<Text>
    ensures { IfOk result (λ t. t ≡ signed_decimal number) }
{
    let mut buffer = Buffer::new();
    Text::of(alloc, buffer.format(number))
}

fn value_text(alloc: Global, value: &Value) -> Mem<Text>
    ensures { IfOk result (λ t. t ≡ value_text value.now) }
{
    match value {
        Value::Words(text) => text.copy(alloc),
        Value::Whole(number) => whole_text(alloc, *number),
        Value::Truth(true) => Text::of(alloc, "true"),
        Value::Truth(false) => Text::of(alloc, "false"),
        Value::Null | Value::Shape(_) => Text::of(alloc, ""),
    }
}

#[tactic(auto, unfolding(crate::specs::Written::use_of))]
fn use_of(alloc: Global, name: &Text) -> Mem<Text>
    ensures { IfOk result (λ t. t ≡ use_of name.now) }
{
    three(alloc, "${", name.as_str(), "}")
}

fn place_text(alloc: Global, parameters: Option<&List<Text>>, place: u32) -> Mem<Text>
    ensures { IfOk result (λ t. t ≡ place_text (option_copied parameters.entry) place) }
{
    let Some(names) = parameters else {
        return Text::of(alloc, "");
    };
    match names.items().get(place as usize) {
        None => Text::of(alloc, ""),
        Some(name) => use_of(alloc, name),
    }
}

// A side of a comparison, or a bound.
pub(crate) fn side(
    alloc: Global,
    parameters: Option<&List<Text>>,
    schema: &Schema,
    kind: Option<u32>,
    expr: &Expr,
) -> Mem<Element>
    ensures { IfOk result (λ e. e ≡ side (option_copied parameters.entry) schema.now kind
        expr.now) }
{
    match expr {
        Expr::Property(property) => reference(alloc, schema, kind, *property),
        Expr::Literal(value) => leaf(alloc, "Literal", value_text(alloc, value)?),
        Expr::Parameter(place) => leaf(alloc, "Literal", place_text(alloc, parameters, *place)?),
    }
}

// ---- identifiers

fn type_name(schema: &Schema, kind: u32) -> &str
    ensures { result.now ≡ type_name (slice_get schema.now.types kind) }
{
    match schema.types.items().get(kind as usize) {
        None => "",
        Some(of_type) => of_type.name.as_str(),
    }
}

fn rid_text(alloc: Global, schema: &Schema, id: Rid) -> Mem<Text>
    ensures { IfOk result (λ t. t ≡ joined (type_name (slice_get schema.now.types id.kind)
        ∷ codes "." ∷ decimal id.number ∷ [])) }
{
    let mut buffer = Buffer::new();
    let number = buffer.format(id.number);
    three(alloc, type_name(schema, id.kind), ".", number)
}

fn id_text(alloc: Global, parameters: Option<&List<Text>>, schema: &Schema, id: IdRef) -> Mem<Text>
    ensures { IfOk result (λ t. t ≡ id_text (option_copied parameters.entry) schema.now id) }
{
    match id {
        IdRef::Known(id) => rid_text(alloc, schema, id),
        IdRef::Nobody => Text::of(alloc, ""),
        IdRef::Parameter(place) => place_text(alloc, parameters, place),
    }
}

// A ResourceId.
#[tactic(auto, unfolding(crate::specs::Written::id_tree))]
pub(crate) fn id_tree(
    alloc: Global,
    parameters: Option<&List<Text>>,
    schema: &Schema,
    id: IdRef,
) -> Mem<Element>
    ensures { IfOk result (λ e. e ≡ id_tree (option_copied parameters.entry) schema.now id) }
{
    let value = id_text(alloc, parameters, schema, id)?;
    let attributes = alone(alloc, attribute(alloc, "rid", value)?)?;
    let text = Text::of(alloc, "")?;
    element(alloc, "ResourceId", attributes, Vec::new(alloc), text)
}
