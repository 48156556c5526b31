//! The clones of numbers, truth values and options.

ghost use Rattle.std.specs.Prelude.{◌≡◌};

use crate::try_clone::TryClone;
use std::alloc::{AllocError, Global};

impl TryClone for u8 {
    fn try_clone(&self, _alloc: Global) -> Result<u8, AllocError> {
        Ok(*self)
    }
}

impl TryClone for u16 {
    fn try_clone(&self, _alloc: Global) -> Result<u16, AllocError> {
        Ok(*self)
    }
}

impl TryClone for u32 {
    fn try_clone(&self, _alloc: Global) -> Result<u32, AllocError> {
        Ok(*self)
    }
}

impl TryClone for u64 {
    fn try_clone(&self, _alloc: Global) -> Result<u64, AllocError> {
        Ok(*self)
    }
}

impl TryClone for u128 {
    fn try_clone(&self, _alloc: Global) -> Result<u128, AllocError> {
        Ok(*self)
    }
}

impl TryClone for usize {
    fn try_clone(&self, _alloc: Global) -> Result<usize, AllocError> {
        Ok(*self)
    }
}

impl TryClone for i8 {
    fn try_clone(&self, _alloc: Global) -> Result<i8, AllocError> {
        Ok(*self)
    }
}

impl TryClone for i16 {
    fn try_clone(&self, _alloc: Global) -> Result<i16, AllocError> {
        Ok(*self)
    }
}

impl TryClone for i32 {
    fn try_clone(&self, _alloc: Global) -> Result<i32, AllocError> {
        Ok(*self)
    }
}

impl TryClone for i64 {
    fn try_clone(&self, _alloc: Global) -> Result<i64, AllocError> {
        Ok(*self)
    }
}

impl TryClone for i128 {
    fn try_clone(&self, _alloc: Global) -> Result<i128, AllocError> {
        Ok(*self)
    }
}

impl TryClone for isize {
    fn try_clone(&self, _alloc: Global) -> Result<isize, AllocError> {
        Ok(*self)
    }
}

impl TryClone for bool {
    fn try_clone(&self, _alloc: Global) -> Result<bool, AllocError> {
        Ok(*self)
    }
}

impl<T: TryClone + Drop> TryClone for Option<T> {
    fn try_clone(&self, alloc: Global) -> Result<Option<T>, AllocError> {
        match self {
            Some(item) => Ok(Some(item.try_clone(alloc)?)),
            None => Ok(None),
        }
    }
}
