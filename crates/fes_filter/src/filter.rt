//! Filters: operators with their parts.

ghost use Rattle.std.specs.Prelude.{◌≡◌, IfOk};

use crate::expr::{By, Expr};
use crate::ids::{IdRef, copy_ids};
use crate::pattern::{LikePart, copy_pattern};
use geom_core::{Box2, Geometry};
use std::alloc::Global;
use wfs_ends::{Boxed, List, Mem};

/// A filter (OGC 09-026r2, clause 7): an operator with its parts. Properties are named by their index in the feature
/// type. `truth` says what each operator means.
#[derive(Debug, PartialEq, Eq, Drop)]
pub enum Filter {
    /// And.
    Both(List<Filter>),
    /// Or.
    Either(List<Filter>),
    Not(Boxed<Filter>),
    /// PropertyIsEqualTo and its like.
    Compare {
        by: By,
        left: Expr,
        right: Expr,
        /// Whether texts are compared without their case (`matchCase="false"`).
        fold: bool,
    },
    /// PropertyIsLike.
    Like {
        property: u32,
        pattern: List<LikePart>,
    },
    /// PropertyIsNull.
    IsNull(u32),
    /// PropertyIsBetween. The bounds belong to the range.
    Between {
        property: u32,
        low: Expr,
        high: Expr,
    },
    /// ResourceId, of which one is enough.
    Ids(List<IdRef>),
    /// BBOX. Without a property it asks for some geometry property that meets the box.
    InBox {
        property: Option<u32>,
        area: Box2,
    },
    /// Intersects.
    Meets {
        property: u32,
        shape: Geometry,
    },
    /// Disjoint.
    Apart {
        property: u32,
        shape: Geometry,
    },
}

impl Filter {
    /// An equal filter.
    #[cycle(copy)]
    pub fn copy(&self, alloc: Global) -> Mem<Filter>
        ensures { IfOk result (λ f. f ≡ self.now) }
    {
        match self {
            Filter::Both(parts) => Ok(Filter::Both(copy_parts(alloc, parts)?)),
            Filter::Either(parts) => Ok(Filter::Either(copy_parts(alloc, parts)?)),
            Filter::Not(part) => {
                let copied = part.item().copy(alloc)?;
                Ok(Filter::Not(Boxed::new(alloc, copied)?))
            }
            Filter::Compare {
                by,
                left,
                right,
                fold,
            } => {
                let left = left.copy(alloc)?;
                let right = right.copy(alloc)?;
                Ok(Filter::Compare {
                    by: *by,
                    left,
                    right,
                    fold: *fold,
                })
            }
            Filter::Like { property, pattern } => Ok(Filter::Like {
                property: *property,
                pattern: copy_pattern(alloc, pattern.items())?,
            }),
            Filter::IsNull(property) => Ok(Filter::IsNull(*property)),
            Filter::Between {
                property,
                low,
                high,
            } => {
                let low = low.copy(alloc)?;
                let high = high.copy(alloc)?;
                Ok(Filter::Between {
                    property: *property,
                    low,
                    high,
                })
            }
            Filter::Ids(ids) => Ok(Filter::Ids(copy_ids(alloc, ids.items())?)),
            Filter::InBox { property, area } => Ok(Filter::InBox {
                property: *property,
                area: *area,
            }),
            Filter::Meets { property, shape } => Ok(Filter::Meets {
                property: *property,
                shape: shape.copy()?,
            }),
            Filter::Apart { property, shape } => Ok(Filter::Apart {
                property: *property,
                shape: shape.copy()?,
            }),
        }
    }
}

#[cycle(copy)]
fn copy_parts(alloc: Global, parts: &List<Filter>) -> Mem<List<Filter>>
    ensures { IfOk result (λ all. all ≡ parts.now) }
{
    let mut all = Vec::new(alloc);
    for part in parts.items() {
        all.push(part.copy(alloc)?)?;
    }
    Ok(List::of(all))
}
