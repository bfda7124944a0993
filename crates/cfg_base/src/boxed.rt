//! A value behind a pointer.
ghost use Rattle.std.specs.Prelude.{◌≡◌, IfOk};

use crate::memory::OutOfMemory;
use std::alloc::Global;
use std::fmt;
use std::marker::Model;

/// A value behind a pointer, so that an error may hold an error. Contracts see the value.
// To a contract a `Box` is a pointer, an allocator and a value, and no clause could say which error an
// error holds.
#[derive(Drop)]
pub struct Boxed<T> {
    inner: Box<T>,
}

impl<T> Model for Boxed<T> {
    ghost Value = { T };

    ghost coded = { T.code };

    ghost view = { λ b. b.inner.value };
}

impl<T> Boxed<T> {
    /// The value, lent.
    pub fn get(&self) -> &T
        ensures { result.now ≡ self.now }
    {
        &self.inner
    }

    /// The value, out of its box.
    pub fn into_inner(self) -> T
        ensures { result ≡ self }
    {
        let Boxed { inner } = self;
        Box::into_inner(inner)
    }
}

impl<T: Drop> Boxed<T> {
    /// The value in a box. `OutOfMemory` where memory runs out; the value is given up then.
    pub fn new(alloc: Global, value: T) -> Result<Boxed<T>, OutOfMemory>
        ensures { IfOk result (λ b. b ≡ value) }
    {
        Ok(Boxed {
            inner: Box::new(alloc, value)?,
        })
    }
}

impl<T: fmt::Debug> fmt::Debug for Boxed<T> {
    ghost debug_output = { T.debug_output };

    fn fmt<W: fmt::Write>(&self, f: &mut fmt::Formatter<W>) -> fmt::Result {
        fmt::Debug::fmt(self.get(), f)
    }
}

impl<T: PartialEq> PartialEq for Boxed<T> {
    ghost eq = { T.eq };

    ghost laws = { T.PartialEq.laws };

    fn eq(&self, other: &Boxed<T>) -> bool {
        *self.get() == *other.get()
    }
}

impl<T: Eq> Eq for Boxed<T> {
    ghost laws = { T.Eq.laws };
}
