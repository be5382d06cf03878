//! Why a text is no certificate.

ghost use Rattle.std.specs.Prelude.{◌≡◌};
ghost use Rattle.cert_format.specs.declared.fault.CertFault.TheVariants.{Memory as WantOfMemory};

use listed::Memory;
use thiserror::Error;

/// Why a text is no certificate. Lines are counted from 1.
#[derive(Clone, Copy, Debug, PartialEq, Eq, Error)]
pub enum CertFault {
    /// The line is of no form, lacks its line feed, is missing, or comes where another has to be.
    #[error("line {0} is of no form, lacks its line feed, is missing or comes where another has to be")]
    Form(u64),
    /// Bytes stand behind the line `end`, as the line with this number.
    #[error("line {0} stands behind the end")]
    Tail(u64),
    /// There was not enough memory.
    #[error("there was not enough memory")]
    Memory,
}

impl From<Memory> for CertFault {
    ghost from_gives = { λ _ fault. fault ≡ WantOfMemory };

    fn from(_error: Memory) -> CertFault {
        CertFault::Memory
    }
}
