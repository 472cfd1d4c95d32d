//! A view of three marks.

ghost use Rattle.std.specs.Prelude.{◌≡◌, IsTrue, All, Ok};
ghost use Rattle.std.specs.List.{find};
ghost use Rattle.std.specs.Option.{option_copied};
ghost use Rattle.feature_values.specs.Fits.{feature_fits};
ghost use Rattle.fes_filter.specs.View.{is_before, is_same, IsInOrder};

use crate::samples::{property, schema_of};
use feature_values::{Feature, FeatureType, Rid, Schema, Value, ValueKind, fits};
use fes_filter::FeatureView;
use geom_core::Box2;
use std::alloc::Global;
use std::marker::Model;
use wfs_ends::{List, Mem, OutOfMemory, Text};

/// A few features in order.
#[derive(Drop)]
pub struct SampleView {
    features: List<Feature>,
    schema: Schema,
}

impl Model for SampleView {
    ghost use Rattle.std.specs.Prelude.{List};
    ghost use Rattle.feature_values.specs.declared.feature.Feature.{Feature};
    ghost use Rattle.feature_values.specs.declared.schema.Schema.{Schema};
    ghost use Rattle.fes_filter.specs.View.{IsView};

    ghost Value = { List Feature × Schema };

    ghost view = { λ s. (s.features, s.schema) };

    ghost invariant = { λ s. IsView s.schema s.features };
}

impl FeatureView for SampleView {
    ghost features = { λ s. s.0 };

    ghost schema = { λ s. s.1 };

    ghost most_near = { λ _ _ _. 0 };

    fn get(&self, id: Rid) -> Option<&Feature> {
        feature_at(self.features.items(), id)
    }

    fn next(&self, after: Option<Rid>) -> Option<&Feature> {
        match after {
            None => self.features.items().first(),
            Some(id) => first_behind(self.features.items(), id),
        }
    }

    // No query asks for it yet.
    fn near(&self, _alloc: Global, _kind: u32, _area: &Box2) -> Mem<List<Rid>> {
        Err(OutOfMemory)
    }
}

fn is_same(a: Rid, b: Rid) -> bool
    ensures { result ≡ is_same a b }
{
    a.kind == b.kind && a.number == b.number
}

fn is_before(a: Rid, b: Rid) -> bool
    ensures { result ≡ is_before a b }
{
    a.kind < b.kind || (a.kind == b.kind && a.number < b.number)
}

fn feature_at(features: &[Feature], id: Rid) -> Option<&Feature>
    ensures { option_copied result ≡ find (λ f. is_same f.id id) features.now }
{
    features.iter().find(|f| is_same(f.id, id))
}

fn first_behind(features: &[Feature], id: Rid) -> Option<&Feature>
    ensures { option_copied result ≡ find (λ f. is_before id f.id) features.now }
{
    features.iter().find(|f| is_before(id, f.id))
}

fn is_before_all(id: Rid, features: &[Feature]) -> bool
    ensures { IsTrue result → All (λ f. IsTrue (is_before id f.id)) features.now }
{
    for feature in features {
        if !is_before(id, feature.id) {
            return false;
        }
    }
    true
}

fn are_in_order(features: &[Feature]) -> bool
    ensures { IsTrue result → IsInOrder features.now }
{
    match features {
        [] => true,
        [first, rest @ ..] => is_before_all(first.id, rest) && are_in_order(rest),
    }
}

fn do_all_fit(schema: &Schema, features: &[Feature]) -> bool
    ensures { IsTrue result → All (λ f. feature_fits schema.now f ≡ Ok tt) features.now }
{
    for feature in features {
        let Ok(()) = fits(schema, feature) else {
            return false;
        };
    }
    true
}

fn mark(alloc: Global) -> Mem<FeatureType> {
    let mut properties = Vec::new(alloc);
    properties.push(property(alloc, "label", ValueKind::Words, 10)?)?;
    properties.push(property(alloc, "size", ValueKind::Whole, 10)?)?;
    Ok(FeatureType {
        name: Text::of(alloc, "Mark")?,
        properties: List::of(properties),
    })
}

fn types(alloc: Global) -> Mem<List<FeatureType>> {
    let mut types = Vec::new(alloc);
    types.push(mark(alloc)?)?;
    Ok(List::of(types))
}

/// The schema of one type.
pub fn schema(alloc: Global) -> Mem<Schema> {
    schema_of(alloc, List::of(Vec::new(alloc)), types(alloc)?)
}

fn feature(alloc: Global, number: u64, label: &str, size: Value) -> Mem<Feature> {
    let mut values = Vec::new(alloc);
    values.push(Value::Words(Text::of(alloc, label)?))?;
    values.push(size)?;
    Feature::of(alloc, Rid { kind: 0, number }, values)
}

fn three_marks(alloc: Global) -> Mem<Vec<Feature>> {
    let mut all = Vec::new(alloc);
    all.push(feature(alloc, 1, "A", Value::Null)?)?;
    all.push(feature(alloc, 2, "B", Value::Whole(7))?)?;
    all.push(feature(alloc, 3, "C", Value::Whole(9))?)?;
    Ok(all)
}

impl SampleView {
    /// What the features are of.
    pub fn schema(&self) -> &Schema
        ensures { result.now ≡ self.now.1 }
    {
        &self.schema
    }
}

/// Three marks, of which the first has no size; where they are not in order or do not fit, as if there were no memory.
pub fn sample(alloc: Global) -> Mem<SampleView> {
    let features = three_marks(alloc)?;
    let schema = schema(alloc)?;
    if !are_in_order(&features) || !do_all_fit(&schema, &features) {
        return Err(OutOfMemory);
    }
    Ok(SampleView {
        features: List::of(features),
        schema,
    })
}
