//! The names of types and properties, and the identifiers of features as text.

ghost use Rattle.std.specs.Prelude.{◌≡◌};
ghost use Rattle.feature_values.specs.Ids.{type_named, property_named, without_prefix, number_of, rid_of};

use crate::feature::Rid;
use crate::schema::{FeatureType, Schema};

impl Schema {
    /// The number of the first type with this name.
    #[tactic(auto, unfolding(crate::specs::Ids::type_named))]
    pub fn type_named(&self, name: &str) -> Option<u32>
        ensures { result ≡ type_named self.now name.now }
    {
        let types = self.types.items();
        for i in 0..types.len() {
            if types[i].name.as_str() == name {
                return u32::try_from(i).ok();
            }
        }
        None
    }
}

impl FeatureType {
    /// The number of the first property with this name.
    #[tactic(auto, unfolding(crate::specs::Ids::property_named))]
    pub fn property_named(&self, name: &str) -> Option<u32>
        ensures { result ≡ property_named self.now name.now }
    {
        let properties = self.properties.items();
        for i in 0..properties.len() {
            if properties[i].name.as_str() == name {
                return u32::try_from(i).ok();
            }
        }
        None
    }
}

/// The name of a type or a property behind its prefix: what stands after the first colon, or all where there is none. The
/// prefix is not judged.
#[tactic(auto, unfolding(crate::specs::Ids::without_prefix))]
pub fn without_prefix(name: &str) -> &str
    ensures { result.now ≡ without_prefix name.now }
{
    match name.split_once(':') {
        None => name,
        Some((_, local)) => local,
    }
}

/// Reads a number of an identifier: from 1 on, of at most 64 bits (so up to 18,446,744,073,709,551,615), in decimal
/// digits without a sign, white space or a leading zero. `None`: the text is none.
#[tactic(auto, unfolding(crate::specs::Ids::number_of))]
pub fn read_number(text: &str) -> Option<u64>
    ensures { result ≡ number_of text.now }
{
    let bytes = text.as_bytes();
    if bytes.is_empty() || bytes[0] == b'0' || bytes[0] == b'+' {
        return None;
    }
    text.parse::<u64>().ok()
}

/// Reads the identifier of a feature: the name of a type of the schema, a dot, and a number from 1 on of at most 64
/// bits, in decimal digits without a leading zero. `None`: the text is none.
///
/// Of several types with one name it is the first, and a type's name with a dot in it is never found: the first dot
/// ends the name.
#[tactic(auto, unfolding(crate::specs::Ids::rid_of))]
pub fn read_rid(schema: &Schema, text: &str) -> Option<Rid>
    ensures { result ≡ rid_of schema.now text.now }
{
    let (name, digits) = text.split_once('.')?;
    let number = read_number(digits)?;
    let kind = schema.type_named(name)?;
    Some(Rid { kind, number })
}
