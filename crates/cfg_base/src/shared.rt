//! A value that its copies share.
ghost use Rattle.std.specs.Prelude.{◌≡◌, IfOk};

use crate::copies::TryCopy;
use crate::memory::OutOfMemory;
use std::alloc::Global;
use std::fmt;
use std::marker::Model;
use std::sync::Arc;

/// A value behind a pointer that its copies share: a copy counts, and copies nothing. Contracts see the value.
#[derive(Drop)]
pub struct Shared<T> {
    inner: Arc<T, Global>,
}

impl<T> Model for Shared<T> {
    ghost use Rattle.std.specs.Arc.{arc_value};

    ghost Value = { T };

    ghost coded = { T.code };

    ghost view = { λ s. arc_value s.inner };
}

impl<T> Shared<T> {
    /// The value, lent.
    pub fn get(&self) -> &T
        ensures { result.now ≡ self.now }
    {
        &self.inner
    }
}

impl<T: Drop> Shared<T> {
    /// The value behind a pointer. `OutOfMemory` where memory runs out; the value is given up then.
    pub fn new(alloc: Global, value: T) -> Result<Shared<T>, OutOfMemory>
        ensures { IfOk result (λ s. s ≡ value) }
    {
        let inner = Arc::new(alloc, value)?;
        Ok(Shared { inner })
    }
}

impl<T: Drop> TryCopy for Shared<T> {
    fn copy(&self, _: Global) -> Result<Shared<T>, OutOfMemory> {
        let inner = Arc::try_clone(&self.inner)?;
        Ok(Shared { inner })
    }
}

impl<T: fmt::Debug> fmt::Debug for Shared<T> {
    ghost debug_output = { T.debug_output };

    fn fmt<W: fmt::Write>(&self, f: &mut fmt::Formatter<W>) -> fmt::Result {
        fmt::Debug::fmt(self.get(), f)
    }
}

impl<T: PartialEq> PartialEq for Shared<T> {
    ghost eq = { T.eq };

    ghost laws = { T.PartialEq.laws };

    fn eq(&self, other: &Shared<T>) -> bool {
        *self.get() == *other.get()
    }
}

impl<T: Eq> Eq for Shared<T> {
    ghost laws = { T.Eq.laws };
}
