//! Why a network file is not read, and where.

ghost use Rattle.std.specs.Prelude.{◌≡◌};
ghost use Rattle.network_file.specs.declared.fault.NetFault.TheVariants.{Memory as WantOfMemory};

use std::fmt;
use thiserror::Error;

/// A table of a network file. All numbers are counted from 0 in the order of the file.
#[derive(Clone, Copy, Debug, PartialEq, Eq)]
pub enum At {
    /// The top table.
    Top,
    /// A link.
    Link(u32),
    /// A branch of a link: the link, and the place in its `turns`.
    Turn(u32, u32),
    /// A piece of a link's demand: the link, and the place in its `demand`.
    Piece(u32, u32),
    /// A signal.
    Signal(u32),
    /// A phase of a signal: the signal, and the place in its `phase`.
    Phase(u32, u32),
}

impl fmt::Display for At {
    fn fmt<W: fmt::Write>(&self, f: &mut fmt::Formatter<W>) -> fmt::Result {
        match self {
            At::Top => write!(f, "the top table"),
            At::Link(link) => write!(f, "link {link}"),
            At::Turn(link, place) => write!(f, "branch {place} of link {link}"),
            At::Piece(link, place) => write!(f, "piece {place} of link {link}"),
            At::Signal(signal) => write!(f, "signal {signal}"),
            At::Phase(signal, phase) => write!(f, "phase {phase} of signal {signal}"),
        }
    }
}

/// Why a network file was not read, in the order of the stages that judge it.
#[derive(Clone, Copy, Debug, PartialEq, Eq, Error)]
pub enum NetFault {
    /// The bytes are no UTF-8, or no TOML document.
    #[error("the file is no TOML document")]
    Toml,
    /// The file does not say `format = 1`.
    #[error("the file does not say `format = 1`")]
    Format,
    /// A key is missing, or its value is of another type; with key 0 some key is unknown.
    #[error("in {table}, key {key} is missing or of another type; 0 stands for an unknown key")]
    Key { table: At, key: u8 },
    /// A number, a length or the shape of a name is out of its range.
    #[error("in {table}, the value of key {key} is out of its range")]
    Range { table: At, key: u8 },
    /// A name that an earlier link, an earlier signal or an earlier phase of the same signal has.
    #[error("the name of {table} is taken already")]
    Name { table: At },
    /// There was not enough memory.
    #[error("there was not enough memory")]
    Memory,
}

impl From<ct_base::Memory> for NetFault {
    ghost from_gives = { λ _ fault. fault ≡ WantOfMemory };

    fn from(_error: ct_base::Memory) -> NetFault {
        NetFault::Memory
    }
}
