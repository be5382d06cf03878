//! Why the links and signals of a file make no network.

ghost use Rattle.std.specs.Prelude.{◌≡◌};
ghost use Rattle.cell_build.specs.declared.fault.BuildFault.TheVariants.{Memory as WantOfMemory};

use ct_base::Memory;
use demand::DemandFault;
use std::alloc::AllocError;
use std::fmt;
use thiserror::Error;

/// Where a phase is named that its signal does not have.
#[derive(Clone, Copy, Debug, PartialEq, Eq)]
pub enum PhaseAt {
    /// Among the greens of a link: the link, and the place in its list.
    Green(u32, u32),
    /// As the start of a signal.
    Start(u32),
    /// Among those that may follow: the signal, the phase, and the place in its list.
    Next(u32, u32, u32),
}

impl fmt::Display for PhaseAt {
    fn fmt<W: fmt::Write>(&self, f: &mut fmt::Formatter<W>) -> fmt::Result {
        match self {
            PhaseAt::Green(link, place) => write!(f, "green {place} of link {link}"),
            PhaseAt::Start(signal) => write!(f, "the start of signal {signal}"),
            PhaseAt::Next(signal, phase, place) => {
                write!(f, "follower {place} of phase {phase} of signal {signal}")
            }
        }
    }
}

/// Why a network was not built, in the order in which the rules are judged. A rule bears the word that is printed for it
/// (`UnknownLink` is `unknownlink`). Links, signals, phases and places are counted from 0.
#[derive(Clone, Copy, Debug, PartialEq, Eq, Error)]
pub enum BuildFault {
    /// A link leads to a link that is not there. `to` counts as place 0, and the branches as the places from 1 on.
    #[error("link {link} leads to a link that is not there, at place {place}")]
    UnknownLink { link: u32, place: u32 },
    /// A link names a signal that is not there.
    #[error("link {link} names a signal that is not there")]
    UnknownSignal { link: u32 },
    /// A phase is named that its signal does not have.
    #[error("{at} is no phase of its signal")]
    UnknownPhase { at: PhaseAt },
    /// A link has both `to` and `turns`.
    #[error("link {link} has both `to` and `turns`")]
    OutBoth { link: u32 },
    /// A link leads to itself.
    #[error("link {link} leads to itself")]
    Itself { link: u32 },
    /// Two branches of a link name one link; the place is that of the later branch.
    #[error("branch {place} of link {link} names the link of an earlier branch")]
    TwiceTurn { link: u32, place: u32 },
    /// A link has demand, and another link leads into it.
    #[error("link {link} has demand and is led into")]
    Fed { link: u32 },
    /// Several links lead into it, and no one signal separates them.
    #[error("several links lead into link {link}, and no one signal separates them")]
    OpenMerge { link: u32 },
    /// The initial units are not one number per cell, or one of them is above the storage.
    #[error("the units of link {link} at step 0 do not fit its cells")]
    Initial { link: u32 },
    /// There are more than 256 cells.
    #[error("there are {count} cells, and at most 256 may be")]
    Cells { count: u32 },
    /// The demand of a link is out of range.
    #[error("the demand of link {link}: {fault}")]
    Demand { link: u32, fault: DemandFault },
    /// A phase has a minimum above its maximum, no phase that may follow it, or itself among them.
    #[error("phase {phase} of signal {signal} has a minimum above its maximum, no follower, or itself as one")]
    Phase { signal: u32, phase: u32 },
    /// There was not enough memory.
    #[error("there was not enough memory")]
    Memory,
}

impl From<AllocError> for BuildFault {
    ghost from_gives = { λ _ fault. fault ≡ WantOfMemory };

    fn from(_error: AllocError) -> BuildFault {
        BuildFault::Memory
    }
}

impl From<Memory> for BuildFault {
    ghost from_gives = { λ _ fault. fault ≡ WantOfMemory };

    fn from(_error: Memory) -> BuildFault {
        BuildFault::Memory
    }
}
