//! A view of a few features, each of which has a mark and stands at the origin.

ghost use Rattle.std.specs.Prelude.{◌≡◌, IsTrue, IfOk, All, Ok, map};
ghost use Rattle.std.specs.List.{find};
ghost use Rattle.std.specs.Option.{option_copied};
ghost use Rattle.feature_values.specs.Fits.{feature_fits};
ghost use Rattle.fes_filter.specs.View.{is_before, is_same, IsInOrder, IsView};
ghost use Rattle.feature_overlay.specs.Views.{view_prop};

use super::Mark;
use crate::walking::is_before;
use feature_values::{Feature, FeatureType, Property, Rid, Schema, Value, ValueKind, fits};
use fes_filter::FeatureView;
use geom_core::{Box2, Geometry, Pos};
use std::alloc::Global;
use wfs_ends::{List, Mem, OutOfMemory, Text};

/// A few features in order, which a schema allows.
#[derive(Drop)]
pub struct SampleView {
    pub schema: Schema,
    features: List<Feature>,
    ghost is_view: { IsView schema features } by { view_prop schema features },
}

impl FeatureView for SampleView {
    ghost use Rattle.std.specs.Prelude.{length};

    ghost features = { λ view. view.features };

    ghost schema = { λ view. view.schema };

    ghost most_near = { λ view _ _. length view.features };

    fn get(&self, id: Rid) -> Option<&Feature> {
        feature_at(self.features.items(), id)
    }

    fn next(&self, after: Option<Rid>) -> Option<&Feature> {
        match after {
            None => self.features.items().first(),
            Some(id) => first_behind(self.features.items(), id),
        }
    }

    // All features are given, near or not.
    fn near(&self, alloc: Global, _kind: u32, _area: &Box2) -> Mem<List<Rid>> {
        ids_of(alloc, self.features.items())
    }
}

fn is_same(a: Rid, b: Rid) -> bool
    ensures { result ≡ is_same a b }
{
    a.kind == b.kind && a.number == b.number
}

fn feature_at(features: &[Feature], id: Rid) -> Option<&Feature>
    ensures { option_copied result ≡ find (λ f. is_same f.id id) features.now }
{
    features.iter().find(|f| is_same(f.id, id))
}

fn first_behind(features: &[Feature], id: Rid) -> Option<&Feature>
    ensures { option_copied result ≡ find (λ f. is_before id f.id) features.now }
{
    features.iter().find(|f| is_before(id, f.id))
}

fn ids_of(alloc: Global, features: &[Feature]) -> Mem<List<Rid>>
    ensures { IfOk result (λ ids. ids ≡ map (λ f. f.id) features.now) }
{
    let mut ids = Vec::new(alloc);
    for feature in features {
        ids.push(feature.id)?;
    }
    Ok(List::of(ids))
}

fn is_before_all(id: Rid, features: &[Feature]) -> bool
    ensures { IsTrue result → All (λ f. IsTrue (is_before id f.id)) features.now }
{
    for feature in features {
        if !is_before(id, feature.id) {
            return false;
        }
    }
    true
}

fn are_in_order(features: &[Feature]) -> bool
    ensures { IsTrue result → IsInOrder features.now }
{
    match features {
        [] => true,
        [first, rest @ ..] => is_before_all(first.id, rest) && are_in_order(rest),
    }
}

/// Where all features stand.
pub const ORIGIN: Pos = Pos { x: 0, y: 0 };

/// A feature with this mark.
pub fn marked(alloc: Global, of: Mark) -> Mem<Feature> {
    let ((kind, number), mark) = of;
    let mut values = Vec::new(alloc);
    values.push(Value::Whole(mark))?;
    values.push(Value::Shape(Geometry::At(ORIGIN)))?;
    Feature::of(alloc, Rid { kind, number }, values)
}

fn do_all_fit(schema: &Schema, features: &[Feature]) -> bool
    ensures { IsTrue result → All (λ f. feature_fits schema.now f ≡ Ok tt) features.now }
{
    for feature in features {
        let Ok(()) = fits(schema, feature) else {
            return false;
        };
    }
    true
}

fn property(alloc: Global, name: &str, kind: ValueKind) -> Mem<Property> {
    Ok(Property {
        name: Text::of(alloc, name)?,
        kind,
        required: true,
        max: 0,
    })
}

/// A type of features that have a mark and a place.
fn marks(alloc: Global, name: &str) -> Mem<FeatureType> {
    let mut properties = Vec::new(alloc);
    properties.push(property(alloc, "mark", ValueKind::Whole)?)?;
    properties.push(property(alloc, "at", ValueKind::Point)?)?;
    Ok(FeatureType {
        name: Text::of(alloc, name)?,
        properties: List::of(properties),
    })
}

fn schema(alloc: Global) -> Mem<Schema> {
    let mut types = Vec::new(alloc);
    for name in ["First", "Second", "Third", "Fourth"] {
        types.push(marks(alloc, name)?)?;
    }
    Ok(Schema {
        title: Text::of(alloc, "Marks")?,
        address: Text::of(alloc, "http://localhost/wfs")?,
        space: Text::of(alloc, "urn:marks")?,
        prefix: Text::of(alloc, "m")?,
        srs: List::of(Vec::new(alloc)),
        types: List::of(types),
    })
}

/// The view of these features; where they are not in order or do not fit, as if there were no memory.
fn view_of(schema: Schema, features: Vec<Feature>) -> Mem<SampleView> {
    if !are_in_order(&features) || !do_all_fit(&schema, &features) {
        return Err(OutOfMemory);
    }
    Ok(SampleView {
        schema,
        features: List::of(features),
    })
}

pub fn sample(alloc: Global, marks: &[Mark]) -> Mem<SampleView> {
    let mut features = Vec::new(alloc);
    for mark in marks {
        features.push(marked(alloc, *mark)?)?;
    }
    let schema = schema(alloc)?;
    view_of(schema, features)
}
