//! The signature of a schema, by which a journal knows it.

ghost use Rattle.std.specs.Prelude.{◌≡◌, ◌++◌, IfOk, OnOk, string_bytes};
ghost use Rattle.std.specs.List.{flat_map};
ghost use Rattle.feature_schema.specs.Signature.{kind_word, property_text, next_text, properties_text, type_text, signature_text};

use feature_values::{FeatureType, Property, Schema, ValueKind};
use std::alloc::Global;
use wfs_ends::{Mem, Text};

// The word of a kind.
fn kind_word(kind: ValueKind) -> &'static str
    ensures { result.now ≡ kind_word kind }
{
    match kind {
        ValueKind::Words => "text",
        ValueKind::Whole => "integer",
        ValueKind::Truth => "boolean",
        ValueKind::Point => "point",
        ValueKind::Line => "line",
        ValueKind::Polygon => "polygon",
    }
}

fn add(line: &mut String, text: &str) -> Mem<()>
    ensures { OnOk result (string_bytes line.new ≡ string_bytes line.old ++ text.now) }
{
    line.push_str(text)?;
    Ok(())
}

#[tactic(auto, using(crate::proofs::Lines::three), unfolding(crate::specs::Signature::property_text))]
fn add_property(line: &mut String, property: &Property) -> Mem<()>
    ensures { OnOk result (string_bytes line.new
        ≡ string_bytes line.old ++ property_text property.now) }
{
    add(line, property.name.as_str())?;
    add(line, ":")?;
    add(line, kind_word(property.kind))?;
    Ok(())
}

#[tactic(auto, using(crate::proofs::Lines::two), unfolding(crate::specs::Signature::next_text))]
fn add_next(line: &mut String, property: &Property) -> Mem<()>
    ensures { OnOk result (string_bytes line.new
        ≡ string_bytes line.old ++ next_text property.now) }
{
    add(line, ",")?;
    add_property(line, property)?;
    Ok(())
}

fn add_rest(line: &mut String, properties: &[Property]) -> Mem<()>
    ensures { OnOk result (string_bytes line.new
        ≡ string_bytes line.old ++ flat_map next_text properties.now) }
{
    for property in properties {
        add_next(line, property)?;
    }
    Ok(())
}

#[tactic(auto, unfolding(crate::specs::Signature::properties_text))]
fn add_properties(line: &mut String, properties: &[Property]) -> Mem<()>
    ensures { OnOk result (string_bytes line.new
        ≡ string_bytes line.old ++ properties_text properties.now) }
{
    match properties {
        [first, rest @ ..] => {
            add_property(line, first)?;
            add_rest(line, rest)
        }
        [] => Ok(()),
    }
}

#[tactic(auto, using(crate::proofs::Lines::four), unfolding(crate::specs::Signature::type_text))]
fn add_type(line: &mut String, of_type: &FeatureType) -> Mem<()>
    ensures { OnOk result (string_bytes line.new ≡ string_bytes line.old ++ type_text of_type.now) }
{
    add(line, of_type.name.as_str())?;
    add(line, "(")?;
    add_properties(line, of_type.properties.items())?;
    add(line, ");")?;
    Ok(())
}

fn add_types(line: &mut String, types: &[FeatureType]) -> Mem<()>
    ensures { OnOk result (string_bytes line.new
        ≡ string_bytes line.old ++ flat_map type_text types.now) }
{
    for of_type in types {
        add_type(line, of_type)?;
    }
    Ok(())
}

/// The signature of a schema, by which a journal knows the schema that it was written under: for each type in order its
/// name, `(`, its properties as `NAME:KIND` with `,` between them, and `);`.
pub fn signature(alloc: Global, schema: &Schema) -> Mem<Text>
    ensures { IfOk result (λ t. t ≡ signature_text schema.now) }
{
    let mut line = String::new(alloc);
    add_types(&mut line, schema.types.items())?;
    Text::of_string(line)
}
