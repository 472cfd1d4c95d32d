//! Expressions: the sides of comparisons and the bounds of ranges.

ghost use Rattle.std.specs.Prelude.{◌≡◌, IfOk};

use feature_values::Value;
use std::alloc::Global;
use wfs_ends::Mem;

/// One side of a comparison, or a bound (OGC 09-026r2, section 7.3).
#[derive(Debug, PartialEq, Eq, Drop)]
pub enum Expr {
    /// A property of the feature, by its index in the feature type.
    Property(u32),
    Literal(Value),
    /// A parameter of a stored query, by its place in the query's list. A value is put in its place before the filter
    /// is used; until then it stands for nothing.
    Parameter(u32),
}

impl Expr {
    /// An equal expression.
    pub fn copy(&self, alloc: Global) -> Mem<Expr>
        ensures { IfOk result (λ e. e ≡ self.now) }
    {
        match self {
            Expr::Property(property) => Ok(Expr::Property(*property)),
            Expr::Literal(value) => Ok(Expr::Literal(value.copy(alloc)?)),
            Expr::Parameter(place) => Ok(Expr::Parameter(*place)),
        }
    }
}

/// How the two sides of a comparison have to stand to each other (OGC 09-026r2, section 7.7).
#[derive(Clone, Copy, Debug, PartialEq, Eq)]
pub enum By {
    Equal,
    NotEqual,
    Less,
    Greater,
    LessEqual,
    GreaterEqual,
}
