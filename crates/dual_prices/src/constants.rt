//! Which changes of a price are tried, and which are kept.

/// A price is changed by 1, 2, 4 and so on up to 2 to this power, in 1024ths of a unit of delay: up to 64 units.
pub const MOST_POWER: u32 = 16;

/// A change is kept where the value rises by so much or more, in 1024ths of a unit of delay: by a sixteenth of a unit.
pub const LEAST_GAIN: u32 = 64;

/// So many changes that are kept raise the value by one unit of delay.
pub const GAINS_A_UNIT: u32 = 16;
