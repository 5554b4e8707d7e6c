use crate::copied::Copied;
use crate::errors::WantOfMemory;
use std::alloc::Global;
use std::marker::Model;
use std::rc::Rc;

/// A value on the heap, so that moving it moves only a pointer. Contracts see the value.
#[derive(Drop)]
pub struct Boxed<T> {
    inner: Box<T>,
}

impl<T> Model for Boxed<T> {
    ghost Value = { T };

    ghost coded = { T.code };

    ghost view = { λ boxed. boxed.inner.value };
}

impl<T: Drop> Boxed<T> {
    ghost use Rattle.std.specs.Prelude.{◌≡◌, IfOk};

    /// Allocates memory for the value, which is dropped if that fails.
    pub fn new(alloc: Global, value: T) -> Result<Boxed<T>, WantOfMemory>
        ensures { IfOk result (λ boxed. boxed ≡ value) }
    {
        match Box::new(alloc, value) {
            Ok(inner) => Ok(Boxed { inner }),
            Err(_) => Err(WantOfMemory),
        }
    }

    /// The value.
    pub fn get(&self) -> &T
        ensures { result.now ≡ self.now }
    {
        &*self.inner
    }

    ghost use Rattle.std.specs.Borrow.{sem};
    ghost use Rattle.st_base.specs.Lists.{lends_value};

    /// A mutable reference to the value in place.
    pub fn get_mut(&mut self) -> &mut T
        ensures* writes_back { sem 𝓛 (lends_value T.row self.entry result) }
        ensures value { result.now ≡ self.old }
    {
        self.inner.as_mut()
    }

    /// The value, taken out.
    pub fn take(self) -> T
        ensures { result ≡ self }
    {
        let Boxed { inner } = self;
        Box::into_inner(inner)
    }
}

impl<T: Copied + Drop> Copied for Boxed<T> {
    /// A new box with a copy of the value.
    fn copy(&self, alloc: Global) -> Result<Boxed<T>, WantOfMemory> {
        let value = self.get().copy(alloc)?;
        Boxed::new(alloc, value)
    }
}

/// A value shared by several owners: a copy only adds to a count. Contracts see the value.
#[derive(Drop)]
pub struct Shared<T> {
    inner: Rc<T, Global>,
}

impl<T> Model for Shared<T> {
    ghost Value = { T };

    ghost coded = { T.code };

    ghost view = { λ shared. shared.inner.value };
}

impl<T: Drop> Shared<T> {
    ghost use Rattle.std.specs.Prelude.{◌≡◌, IfOk};

    /// The first reference to the value.
    pub fn new(alloc: Global, value: T) -> Result<Shared<T>, WantOfMemory>
        ensures { IfOk result (λ shared. shared ≡ value) }
    {
        match Rc::new(alloc, value) {
            Ok(inner) => Ok(Shared { inner }),
            Err(_) => Err(WantOfMemory),
        }
    }

    /// The value.
    pub fn get(&self) -> &T
        ensures { result.now ≡ self.now }
    {
        self.inner.as_ref()
    }
}

impl<T: Drop> Copied for Shared<T> {
    /// Another reference to the same value.
    fn copy(&self, _alloc: Global) -> Result<Shared<T>, WantOfMemory> {
        match self.inner.clone() {
            Ok(inner) => Ok(Shared { inner }),
            Err(_) => Err(WantOfMemory),
        }
    }
}
