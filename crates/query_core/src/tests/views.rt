//! A view of the features.

ghost use Rattle.std.specs.Prelude.{◌≡◌, IfOk, IsTrue, All, Ok, map};
ghost use Rattle.std.specs.List.{find};
ghost use Rattle.std.specs.Option.{option_copied};
ghost use Rattle.feature_values.specs.Fits.{feature_fits};
ghost use Rattle.fes_filter.specs.View.{is_before, is_same, IsInOrder};

use super::features;
use feature_values::{Feature, FeatureType, Property, Rid, Schema, ValueKind, fits};
use fes_filter::FeatureView;
use geom_core::Box2;
use std::alloc::Global;
use std::marker::Model;
use std::sync::atomic::{AtomicU64, Ordering};
use wfs_ends::{List, Mem, OutOfMemory, Text};

/// A few features in order, which a schema allows. It counts how often the one behind another is asked for.
#[derive(Drop)]
pub struct SampleView {
    features: List<Feature>,
    schema: Schema,
    walked: AtomicU64,
}

impl SampleView {
    /// How often the feature behind another was asked for.
    pub fn walked(&self) -> u64 {
        self.walked.load(Ordering::Relaxed)
    }
}

impl Model for SampleView {
    ghost use Rattle.std.specs.Prelude.{List};
    ghost use Rattle.feature_values.specs.declared.feature.Feature.{Feature};
    ghost use Rattle.feature_values.specs.declared.schema.Schema.{Schema};
    ghost use Rattle.fes_filter.specs.View.{IsView};

    ghost Value = { List Feature × Schema };

    ghost view = { λ s. (s.features, s.schema) };

    ghost invariant = { λ s. IsView s.schema s.features };
}

impl FeatureView for SampleView {
    ghost use Rattle.std.specs.Prelude.{length};

    ghost features = { λ s. s.0 };

    ghost schema = { λ s. s.1 };

    ghost most_near = { λ s _ _. length s.0 };

    fn get(&self, id: Rid) -> Option<&Feature> {
        feature_at(self.features.items(), id)
    }

    fn next(&self, after: Option<Rid>) -> Option<&Feature> {
        match after {
            None => self.features.items().first(),
            Some(id) => {
                self.walked.fetch_add(1, Ordering::Relaxed);
                first_behind(self.features.items(), id)
            }
        }
    }

    // All features are given, of whatever type, near or not.
    fn near(&self, alloc: Global, _kind: u32, _area: &Box2) -> Mem<List<Rid>> {
        ids_of(alloc, self.features.items())
    }
}

fn ids_of(alloc: Global, features: &[Feature]) -> Mem<List<Rid>>
    ensures { IfOk result (λ ids. ids ≡ map (λ f. f.id) features.now) }
{
    let mut ids = Vec::new(alloc);
    for feature in features {
        ids.push(feature.id)?;
    }
    Ok(List::of(ids))
}

fn is_same(a: Rid, b: Rid) -> bool
    ensures { result ≡ is_same a b }
{
    a.kind == b.kind && a.number == b.number
}

fn is_before(a: Rid, b: Rid) -> bool
    ensures { result ≡ is_before a b }
{
    a.kind < b.kind || (a.kind == b.kind && a.number < b.number)
}

fn feature_at(features: &[Feature], id: Rid) -> Option<&Feature>
    ensures { option_copied result ≡ find (λ f. is_same f.id id) features.now }
{
    features.iter().find(|f| is_same(f.id, id))
}

fn first_behind(features: &[Feature], id: Rid) -> Option<&Feature>
    ensures { option_copied result ≡ find (λ f. is_before id f.id) features.now }
{
    features.iter().find(|f| is_before(id, f.id))
}

fn is_before_all(id: Rid, features: &[Feature]) -> bool
    ensures { IsTrue result → All (λ f. IsTrue (is_before id f.id)) features.now }
{
    for feature in features {
        if !is_before(id, feature.id) {
            return false;
        }
    }
    true
}

fn are_in_order(features: &[Feature]) -> bool
    ensures { IsTrue result → IsInOrder features.now }
{
    match features {
        [] => true,
        [first, rest @ ..] => is_before_all(first.id, rest) && are_in_order(rest),
    }
}

fn do_all_fit(schema: &Schema, features: &[Feature]) -> bool
    ensures { IsTrue result → All (λ f. feature_fits schema.now f ≡ Ok tt) features.now }
{
    for feature in features {
        let Ok(()) = fits(schema, feature) else {
            return false;
        };
    }
    true
}

static PROPERTIES: [(&str, ValueKind); 3] = [
    ("label", ValueKind::Words),
    ("size", ValueKind::Whole),
    ("course", ValueKind::Line),
];

fn feature_type(alloc: Global, name: &str) -> Mem<FeatureType> {
    let mut properties = Vec::new(alloc);
    for row in PROPERTIES.iter() {
        let (name, kind) = *row;
        properties.push(Property {
            name: Text::of(alloc, name)?,
            kind,
            required: false,
            max: 1,
        })?;
    }
    Ok(FeatureType {
        name: Text::of(alloc, name)?,
        properties: List::of(properties),
    })
}

fn schema(alloc: Global) -> Mem<Schema> {
    let mut types = Vec::new(alloc);
    for name in ["Mark", "Field", "Way"] {
        types.push(feature_type(alloc, name)?)?;
    }
    Ok(Schema {
        title: Text::of(alloc, "Marks")?,
        address: Text::of(alloc, "http://localhost/wfs")?,
        space: Text::of(alloc, "urn:marks")?,
        prefix: Text::of(alloc, "m")?,
        srs: List::of(Vec::new(alloc)),
        types: List::of(types),
    })
}

fn view_of(schema: Schema, features: Vec<Feature>) -> Mem<SampleView> {
    if !are_in_order(&features) || !do_all_fit(&schema, &features) {
        return Err(OutOfMemory);
    }
    Ok(SampleView {
        features: List::of(features),
        schema,
        walked: AtomicU64::new(0),
    })
}

/// The features; where they are not in order or do not fit, as if there were no memory.
pub fn sample(alloc: Global) -> Mem<SampleView> {
    let features = features(alloc)?;
    let schema = schema(alloc)?;
    view_of(schema, features)
}
