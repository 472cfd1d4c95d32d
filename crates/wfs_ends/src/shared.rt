//! A value that its copies share, seen by contracts as the value alone.

ghost use Rattle.std.specs.Prelude.{◌≡◌, IfOk};

use crate::Mem;
use std::alloc::Global;
use std::marker::Model;
use std::sync::Arc;

/// A value that its copies share. Contracts see the value alone.
#[derive(Debug, Drop)]
pub struct Shared<T> {
    inner: Arc<T>,
}

impl<T> Model for Shared<T> {
    ghost Value = { T };

    ghost coded = { T.code };

    ghost view = { λ s. s.inner.value };
}

impl<T> Shared<T> {
    /// The value.
    pub fn item(&self) -> &T
        ensures { result.now ≡ self.now }
    {
        &self.inner
    }
}

impl<T: Drop> Shared<T> {
    /// This value, for copies to share.
    pub fn new(alloc: Global, value: T) -> Mem<Shared<T>>
        ensures { IfOk result (λ s. s ≡ value) }
    {
        Ok(Shared {
            inner: Arc::new(alloc, value)?,
        })
    }

    /// The same value. It takes no memory: `OutOfMemory` comes only where the count of copies is full, at 2 ^ 63 - 1.
    pub fn copy(&self) -> Mem<Shared<T>>
        ensures { IfOk result (λ s. s ≡ self.now) }
    {
        Ok(Shared {
            inner: Arc::try_clone(&self.inner)?,
        })
    }
}

impl<T: PartialEq> PartialEq for Shared<T> {
    ghost use Rattle.std.proofs.Common.{rules};
    ghost use Rattle.std.specs.Cmp.Rules.{comparing};

    ghost eq = { T.eq };

    ghost laws = { Prim.search (comparing, rules) };

    fn eq(&self, other: &Shared<T>) -> bool {
        self.item() == other.item()
    }
}

impl<T: Eq> Eq for Shared<T> {
    ghost use Rattle.std.proofs.Common.{rules};
    ghost use Rattle.std.specs.Cmp.Rules.{comparing};

    ghost laws = { Prim.search (comparing, rules) };
}
