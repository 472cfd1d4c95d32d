//! Values of properties, and their order.

ghost use Rattle.std.specs.Prelude.{◌≡◌, IfOk};
ghost use Rattle.feature_values.specs.Order.{order_of};

use geom_core::Geometry;
use std::alloc::Global;
use std::cmp::Ordering;
use wfs_ends::{Mem, Text};

/// A value of a property.
#[derive(Debug, PartialEq, Eq, Drop)]
pub enum Value {
    /// No value.
    Null,
    Words(Text),
    Whole(i64),
    Truth(bool),
    Shape(Geometry),
}

impl Value {
    /// An equal value.
    pub fn copy(&self, alloc: Global) -> Mem<Value>
        ensures { IfOk result (λ v. v ≡ self.now) }
    {
        match self {
            Value::Null => Ok(Value::Null),
            Value::Words(text) => Ok(Value::Words(text.copy(alloc)?)),
            Value::Whole(number) => Ok(Value::Whole(*number)),
            Value::Truth(truth) => Ok(Value::Truth(*truth)),
            Value::Shape(shape) => Ok(Value::Shape(shape.copy()?)),
        }
    }
}

/// How two values of one kind stand to each other: texts by their bytes, whole numbers by value, and false before
/// true. There is no order, and so `None`, exactly where one of them is null or a geometry, or where they are of two
/// kinds.
pub fn compare(a: &Value, b: &Value) -> Option<Ordering>
    ensures { result ≡ order_of a.now b.now }
{
    match (a, b) {
        (Value::Words(a), Value::Words(b)) => Some(a.as_str().cmp(b.as_str())),
        (Value::Whole(a), Value::Whole(b)) => Some(a.cmp(b)),
        (Value::Truth(a), Value::Truth(b)) => Some(a.cmp(b)),
        _ => None,
    }
}
