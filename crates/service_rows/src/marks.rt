//! Marks with a size: their schema, a view without any of them, and filters that choose one or all.

ghost use Rattle.std.specs.Prelude.{◌≡◌, IfOk, Ok, Some};
ghost use Rattle.feature_values.specs.Fits.{feature_fits};
ghost use Rattle.wfs_model.specs.OfSchema.{IsFilterOf};
ghost use Rattle.transaction_core.specs.Marks.{AreMarks, IsOne, mark_properties, mark_types};

use crate::samples::schema_of;
use feature_values::{Feature, FeatureType, Property, Rid, Schema, Value, ValueKind, fits};
use fes_filter::{FeatureView, Filter, IdRef, check};
use geom_core::Box2;
use std::alloc::Global;
use wfs_ends::{Boxed, List, Mem, OutOfMemory, Text};

/// A view without features.
#[derive(Drop)]
pub struct Nothing {
    pub schema: Schema,
}

impl FeatureView for Nothing {
    ghost use Rattle.std.specs.Prelude.{[]};

    ghost features = { λ _. [] };

    ghost schema = { λ nothing. nothing.schema };

    ghost most_near = { λ _ _ _. 0 };

    fn get(&self, _id: Rid) -> Option<&Feature> {
        None
    }

    fn next(&self, after: Option<Rid>) -> Option<&Feature> {
        match after {
            None | Some(_) => None,
        }
    }

    fn near(&self, alloc: Global, _kind: u32, _area: &Box2) -> Mem<List<Rid>> {
        Ok(List::of(Vec::new(alloc)))
    }
}

fn size(alloc: Global) -> Mem<List<Property>>
    ensures { IfOk result (λ properties. properties ≡ mark_properties) }
{
    let mut properties = Vec::new(alloc);
    properties.push(Property {
        name: Text::of(alloc, "size")?,
        kind: ValueKind::Whole,
        required: false,
        max: 1,
    })?;
    Ok(List::of(properties))
}

fn mark_type(alloc: Global) -> Mem<List<FeatureType>>
    ensures { IfOk result (λ types. types ≡ mark_types) }
{
    let mut types = Vec::new(alloc);
    types.push(FeatureType {
        name: Text::of(alloc, "Mark")?,
        properties: size(alloc)?,
    })?;
    Ok(List::of(types))
}

// A schema whose one type is Mark, with a size.
fn schema(alloc: Global) -> Mem<Schema>
    ensures { IfOk result AreMarks }
{
    schema_of(alloc, List::of(Vec::new(alloc)), mark_type(alloc)?)
}

/// A view of marks without any of them.
pub fn no_marks(alloc: Global) -> Mem<Nothing>
    ensures { IfOk result (λ none. AreMarks none.schema) }
{
    Ok(Nothing {
        schema: schema(alloc)?,
    })
}

/// The identifier of a mark.
pub fn mark(number: u64) -> Rid
    ensures { result ≡ record { kind = 0; number = number } }
{
    Rid { kind: 0, number }
}

fn sized(alloc: Global, number: u64, size: i64) -> Mem<Feature>
    ensures { IfOk result (λ f. f.id ≡ record { kind = 0; number = number }) }
{
    let mut values = Vec::new(alloc);
    values.push(Value::Whole(size))?;
    Feature::of(alloc, mark(number), values)
}

/// A mark that the schema allows.
pub fn allowed(alloc: Global, schema: &Schema, number: u64, size: i64) -> Mem<Feature>
    ensures id { IfOk result (λ f. f.id ≡ record { kind = 0; number = number }) }
    ensures fits { IfOk result (λ f. feature_fits schema.now f ≡ Ok tt) }
{
    let feature = sized(alloc, number, size)?;
    match fits(schema, &feature) {
        Ok(()) => Ok(feature),
        Err(_) => Err(OutOfMemory),
    }
}

fn of_one(alloc: Global, number: u64) -> Mem<Filter>
    ensures { IfOk result IsOne }
{
    let mut ids = Vec::new(alloc);
    ids.push(IdRef::Known(mark(number)))?;
    Ok(Filter::Ids(List::of(ids)))
}

fn of_all(alloc: Global) -> Mem<Filter>
    ensures { IfOk result IsOne }
{
    Ok(Filter::Not(Boxed::new(alloc, Filter::IsNull(0))?))
}

fn chosen(alloc: Global, number: Option<u64>) -> Mem<Filter>
    ensures { IfOk result IsOne }
{
    match number {
        Some(number) => of_one(alloc, number),
        None => of_all(alloc),
    }
}

/// A filter that the schema allows, of one mark or of all.
#[tactic(auto, using(transaction_core::proofs::Marks::one_is_of))]
pub fn filter(alloc: Global, schema: &Schema, number: Option<u64>) -> Mem<Filter>
    requires { AreMarks schema.now }
    ensures { IfOk result (λ f. IsFilterOf schema.now (Some 0) 0 f) }
{
    let filter = chosen(alloc, number)?;
    match check(&filter, Some(0), schema) {
        Ok(()) => Ok(filter),
        Err(_) => Err(OutOfMemory),
    }
}
