//! Why a list is no integer point.

ghost use Rattle.std.specs.Prelude.{◌≡◌};
ghost use Rattle.point_decode.specs.declared.broken.Broken.TheVariants.{Memory as WantOfMemory};

use ct_base::Memory;
use thiserror::Error;

/// Why a list of values is no integer point of a program. Columns and rows are numbered from 0.
#[derive(Clone, Copy, Debug, PartialEq, Eq, Error)]
pub enum Broken {
    /// There are so many values, and not one for each column.
    #[error("there are {0} values, and not one for each column")]
    Length(u64),
    /// The value of this column is outside its bounds, and that of no column before it is.
    #[error("the value of column {0} is outside its bounds")]
    Column(u32),
    /// All values are within their bounds, and this is the first row that they do not meet.
    #[error("row {0} is not met")]
    Row(u32),
    /// There was not enough memory.
    #[error("there was not enough memory")]
    Memory,
}

impl From<Memory> for Broken {
    ghost from_gives = { λ _ fault. fault ≡ WantOfMemory };

    fn from(_error: Memory) -> Broken {
        Broken::Memory
    }
}
