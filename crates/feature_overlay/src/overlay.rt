//! A view with changes laid over it.

ghost use Rattle.std.specs.Prelude.{◌≡◌, ◌+◌, OnErr, OnOk, Some, None, Ok, length};
ghost use Rattle.std.proofs.Props.{props};
ghost use Rattle.feature_values.specs.Fits.{feature_fits};
ghost use Rattle.fes_filter.specs.View.{IsView};
ghost use Rattle.feature_overlay.specs.Views.{view_prop, fitting_prop};
ghost use Rattle.feature_overlay.specs.Changed.{AreKeyed, AreFitting};
ghost use Rattle.feature_overlay.specs.Laid.{laid, all_laid};

use crate::changes::{Changes, change, changed, kept_ids, next_put, push_put};
use crate::walking::{lesser, next_kept};
use feature_values::{Feature, Rid};
use fes_filter::FeatureView;
use geom_core::Box2;
use std::alloc::Global;
use std::collections::BTreeMap;
use wfs_ends::{List, Mem};

/// A view, and beside it what has changed: a feature under its identifier, or none any more.
#[derive(Drop)]
pub struct Overlay<'a, V: FeatureView> {
    view: &'a V,
    changes: Changes,
    ghost is_view: { IsView (V.schema view.now) (V.features view.now) } by { view_prop (V.schema view.now) (V.features view.now) },
    ghost keyed: { AreKeyed changes.entries } by { Prim.hlevel props },
    ghost fitting: { AreFitting (V.schema view.now) changes.entries } by { fitting_prop (V.schema view.now) changes.entries },
}

impl<'a, V: FeatureView> Overlay<'a, V> {
    /// A view without changes. The one call of `next` tells that its features are in order and fit its schema.
    pub fn over(alloc: Global, view: &'a V) -> Overlay<'a, V>
        ensures features { ⟦<Overlay<'a, V> as FeatureView>⟧.features result ≡ V.features view.now }
        ensures schema { ⟦<Overlay<'a, V> as FeatureView>⟧.schema result ≡ V.schema view.now }
    {
        let _ = view.next(None);
        Overlay {
            view,
            changes: BTreeMap::new(alloc),
        }
    }

    /// The feature stands under its identifier, whether one stood there before or not. The view's schema allows it.
    pub fn put(&mut self, feature: Feature) -> Mem<()>
        requires { feature_fits (⟦<Overlay<'a, V> as FeatureView>⟧.schema self.old) feature
            ≡ Ok tt }
        ensures ok { let features = ⟦<Overlay<'a, V> as FeatureView>⟧.features in OnOk result
            (features self.new ≡ laid (features self.old) feature.id (Some feature)) }
        ensures err { let features = ⟦<Overlay<'a, V> as FeatureView>⟧.features in OnErr result
            (features self.new ≡ features self.old) }
        ensures schema { let schema = ⟦<Overlay<'a, V> as FeatureView>⟧.schema in schema self.new
            ≡ schema self.old }
    {
        change(&mut self.changes, feature.id, Some(feature))
    }

    /// No feature stands under this identifier any more.
    pub fn remove(&mut self, id: Rid) -> Mem<()>
        ensures ok { let features = ⟦<Overlay<'a, V> as FeatureView>⟧.features in OnOk result
            (features self.new ≡ laid (features self.old) id None) }
        ensures err { let features = ⟦<Overlay<'a, V> as FeatureView>⟧.features in OnErr result
            (features self.new ≡ features self.old) }
        ensures schema { let schema = ⟦<Overlay<'a, V> as FeatureView>⟧.schema in schema self.new
            ≡ schema self.old }
    {
        change(&mut self.changes, id, None)
    }
}

impl<'a, V: FeatureView> FeatureView for Overlay<'a, V> {
    ghost features = { λ overlay. all_laid (V.features overlay.view.now) overlay.changes.entries };

    ghost schema = { λ overlay. V.schema overlay.view.now };

    ghost most_near = { λ overlay kind area. V.most_near overlay.view.now kind area + length
        overlay.changes.entries };

    fn get(&self, id: Rid) -> Option<&Feature> {
        match changed(&self.changes, id) {
            Some(change) => change.as_ref(),
            None => self.view.get(id),
        }
    }

    fn next(&self, after: Option<Rid>) -> Option<&Feature> {
        let mut place = 0;
        self.walk(after, &mut place)
    }

    // The place is the view's.
    fn walk(&self, after: Option<Rid>, place: &mut u64) -> Option<&Feature> {
        lesser(
            next_kept(self.view, &self.changes, after, place),
            next_put(&self.changes, after),
        )
    }

    fn near(&self, alloc: Global, kind: u32, area: &Box2) -> Mem<List<Rid>> {
        let near = self.view.near(alloc, kind, area)?;
        let mut ids = kept_ids(alloc, near.items(), &self.changes)?;
        push_put(&mut ids, &self.changes, kind)?;
        Ok(List::of(ids))
    }
}
