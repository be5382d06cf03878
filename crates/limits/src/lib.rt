//! The limits of all that the planner reads and makes, in one table (docs/LIMITS.md): each with its unit and its reason. Code and
//! definitions name them from here. To change one, change it here and on the page; where something rests on the old number, a
//! proof fails there.
#![tactic(auto)]

/// The most bytes of a network file, and of a plan file: each lies in memory whole, and what the library makes of a network
/// file takes many times as much.
pub const MAX_FILE_BYTES: u64 = 1_048_576;

/// The most bytes of a name of a link, a signal or a phase: names fill the lines of a table.
pub const MAX_NAME_BYTES: usize = 24;

/// The most digits of the green of a run in a plan file: more than any horizon needs.
pub const GREEN_DIGITS: usize = 4;

/// The most steps of a horizon.
pub const MAX_STEPS: u32 = 240;

/// The most links, each two of which the rules of joining compare.
pub const MAX_LINKS: usize = 64;

/// The most cells, queues among them: with the horizon they are the size of a replay and of its table.
pub const MAX_CELLS: u32 = 256;

/// The most signals, each of which has a word in a plan.
pub const MAX_SIGNALS: usize = 16;

/// The least phases of a signal: one phase needs no signal.
pub const MIN_PHASES: usize = 2;

/// The most phases of a signal: a set of phases has 8 bits.
pub const MAX_PHASES: usize = 8;

/// The most phases that a list names: twice those of a signal, since a name may come again.
pub const MAX_NAMED_PHASES: usize = 16;

/// The most green steps of a run: two minutes at steps of two seconds.
pub const MAX_GREEN: u32 = 60;

/// The most clearing steps after a green.
pub const MAX_CLEAR: u32 = 20;

/// The most units that enter or leave a cell in a step: a step's sums and products fit 32 bits.
pub const MAX_CAPACITY: u32 = 1000;

/// The most units that a road cell holds.
pub const MAX_STORAGE: u32 = 10_000;

/// The greatest denominator of a wave ratio.
pub const MAX_WAVE: u32 = 100;

/// The most units that arrive at a queue in a step.
pub const MAX_DEMAND: u32 = 1000;

/// The least branches of a diverge: one branch is no diverge.
pub const MIN_BRANCHES: usize = 2;

/// The most branches of a diverge: a junction seldom has more than four ways out.
pub const MAX_BRANCHES: usize = 4;

/// The most units of a parcel that go to one branch: shares in hundredths.
pub const MAX_PARCEL: u32 = 100;
