ghost use Rattle.std.specs.Prelude.{◌≡◌, IfOk};

use crate::bytes::{Bytes, Text};
use crate::errors::WantOfMemory;
use crate::list::List;
use std::alloc::Global;

/// A value that can be copied; a copy may share immutable parts.
pub trait Copied: Drop {
    /// An equal value.
    fn copy(&self, alloc: Global) -> Result<Self, WantOfMemory>
        ensures { IfOk result (λ copied. copied ≡ self.now) };
}

impl Copied for u8 {
    fn copy(&self, _alloc: Global) -> Result<u8, WantOfMemory> {
        Ok(*self)
    }
}

impl Copied for u16 {
    fn copy(&self, _alloc: Global) -> Result<u16, WantOfMemory> {
        Ok(*self)
    }
}

impl Copied for u32 {
    fn copy(&self, _alloc: Global) -> Result<u32, WantOfMemory> {
        Ok(*self)
    }
}

impl Copied for u64 {
    fn copy(&self, _alloc: Global) -> Result<u64, WantOfMemory> {
        Ok(*self)
    }
}

impl Copied for u128 {
    fn copy(&self, _alloc: Global) -> Result<u128, WantOfMemory> {
        Ok(*self)
    }
}

impl Copied for usize {
    fn copy(&self, _alloc: Global) -> Result<usize, WantOfMemory> {
        Ok(*self)
    }
}

impl Copied for i8 {
    fn copy(&self, _alloc: Global) -> Result<i8, WantOfMemory> {
        Ok(*self)
    }
}

impl Copied for i16 {
    fn copy(&self, _alloc: Global) -> Result<i16, WantOfMemory> {
        Ok(*self)
    }
}

impl Copied for i32 {
    fn copy(&self, _alloc: Global) -> Result<i32, WantOfMemory> {
        Ok(*self)
    }
}

impl Copied for i64 {
    fn copy(&self, _alloc: Global) -> Result<i64, WantOfMemory> {
        Ok(*self)
    }
}

impl Copied for i128 {
    fn copy(&self, _alloc: Global) -> Result<i128, WantOfMemory> {
        Ok(*self)
    }
}

impl Copied for isize {
    fn copy(&self, _alloc: Global) -> Result<isize, WantOfMemory> {
        Ok(*self)
    }
}

impl Copied for Bytes {
    fn copy(&self, alloc: Global) -> Result<Bytes, WantOfMemory> {
        Bytes::from_slice(alloc, self.as_slice())
    }
}

impl Copied for Text {
    fn copy(&self, alloc: Global) -> Result<Text, WantOfMemory> {
        Text::from_text(alloc, self.as_str())
    }
}

impl<T: Copied> Copied for List<T> {
    fn copy(&self, alloc: Global) -> Result<List<T>, WantOfMemory> {
        let mut copies = List::new(alloc);
        for item in self.as_slice() {
            copies.push(alloc, item.copy(alloc)?)?;
        }
        Ok(copies)
    }
}
