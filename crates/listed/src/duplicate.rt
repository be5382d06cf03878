//! Copies that may want memory.

ghost use Rattle.std.specs.Prelude.{◌≡◌, IfOk};

use crate::memory::Memory;

/// A value that can be copied where there is memory for it. The copy is equal to the value.
pub trait Duplicate: Sized {
    fn copy(&self) -> Result<Self, Memory>
        ensures { IfOk result (λ made. made ≡ self.now) };
}

impl Duplicate for u8 {
    fn copy(&self) -> Result<u8, Memory> {
        Ok(*self)
    }
}

impl Duplicate for u32 {
    fn copy(&self) -> Result<u32, Memory> {
        Ok(*self)
    }
}

impl Duplicate for u64 {
    fn copy(&self) -> Result<u64, Memory> {
        Ok(*self)
    }
}

impl Duplicate for i64 {
    fn copy(&self) -> Result<i64, Memory> {
        Ok(*self)
    }
}

impl<A: Duplicate + Drop, B: Duplicate> Duplicate for (A, B) {
    fn copy(&self) -> Result<(A, B), Memory> {
        let first = self.0.copy()?;
        let second = self.1.copy()?;
        Ok((first, second))
    }
}

impl<T: Duplicate> Duplicate for Option<T> {
    fn copy(&self) -> Result<Option<T>, Memory> {
        match self {
            Some(value) => {
                let made = value.copy()?;
                Ok(Some(made))
            }
            None => Ok(None),
        }
    }
}
