//! The feature types of a service, and what values their properties have.

ghost use Rattle.std.specs.Prelude.{◌≡◌, IfOk};

use std::alloc::Global;
use wfs_ends::{List, Mem, Text};

/// What values a property has.
#[derive(Clone, Copy, Debug, PartialEq, Eq)]
pub enum ValueKind {
    /// Texts.
    Words,
    /// Whole numbers of 64 bits with sign.
    Whole,
    /// True and false.
    Truth,
    /// Points.
    Point,
    /// Line strings.
    Line,
    /// Polygons.
    Polygon,
}

/// A property of a feature type.
#[derive(Debug, PartialEq, Eq, Drop)]
pub struct Property {
    pub name: Text,
    pub kind: ValueKind,
    /// Whether each feature of the type has a value of it, and none is null.
    pub required: bool,
    /// How many characters a text of it has at most. It says nothing of the other kinds.
    pub max: u32,
}

/// A feature type. Its number is its index in the schema, and a property's number is its index here.
#[derive(Debug, PartialEq, Eq, Drop)]
pub struct FeatureType {
    pub name: Text,
    pub properties: List<Property>,
}

/// What a service offers: its feature types, and how it names itself and them.
#[derive(Debug, PartialEq, Eq, Drop)]
pub struct Schema {
    /// The title of the service.
    pub title: Text,
    /// The address that requests are sent to.
    pub address: Text,
    /// The namespace name of the types and their properties.
    pub space: Text,
    /// The prefix that stands for this namespace in what the service writes.
    pub prefix: Text,
    /// The names of the one coordinate reference system. The first is written, and all are read.
    pub srs: List<Text>,
    pub types: List<FeatureType>,
}

impl Property {
    /// An equal property.
    pub fn copy(&self, alloc: Global) -> Mem<Property>
        ensures { IfOk result (λ p. p ≡ self.now) }
    {
        Ok(Property {
            name: self.name.copy(alloc)?,
            kind: self.kind,
            required: self.required,
            max: self.max,
        })
    }
}

impl FeatureType {
    /// An equal feature type.
    pub fn copy(&self, alloc: Global) -> Mem<FeatureType>
        ensures { IfOk result (λ t. t ≡ self.now) }
    {
        let name = self.name.copy(alloc)?;
        let properties = copy_properties(alloc, self.properties.items())?;
        Ok(FeatureType { name, properties })
    }
}

impl Schema {
    /// An equal schema.
    pub fn copy(&self, alloc: Global) -> Mem<Schema>
        ensures { IfOk result (λ s. s ≡ self.now) }
    {
        let title = self.title.copy(alloc)?;
        let address = self.address.copy(alloc)?;
        let space = self.space.copy(alloc)?;
        let prefix = self.prefix.copy(alloc)?;
        let srs = copy_texts(alloc, self.srs.items())?;
        let types = copy_types(alloc, self.types.items())?;
        Ok(Schema {
            title,
            address,
            space,
            prefix,
            srs,
            types,
        })
    }
}

fn copy_texts(alloc: Global, texts: &[Text]) -> Mem<List<Text>>
    ensures { IfOk result (λ all. all ≡ texts.now) }
{
    let mut all = Vec::with_capacity(alloc, texts.len())?;
    for text in texts {
        all.push(text.copy(alloc)?)?;
    }
    Ok(List::of(all))
}

fn copy_properties(alloc: Global, properties: &[Property]) -> Mem<List<Property>>
    ensures { IfOk result (λ all. all ≡ properties.now) }
{
    let mut all = Vec::with_capacity(alloc, properties.len())?;
    for property in properties {
        all.push(property.copy(alloc)?)?;
    }
    Ok(List::of(all))
}

fn copy_types(alloc: Global, types: &[FeatureType]) -> Mem<List<FeatureType>>
    ensures { IfOk result (λ all. all ≡ types.now) }
{
    let mut all = Vec::with_capacity(alloc, types.len())?;
    for feature_type in types {
        all.push(feature_type.copy(alloc)?)?;
    }
    Ok(List::of(all))
}
