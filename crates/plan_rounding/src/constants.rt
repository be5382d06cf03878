//! How far a climb looks, and where climbs start.

/// By how many steps a change makes a green longer or shorter at most. On the intersection of `search_tests` a climb from `short`
/// with changes of up to three steps ends at a delay of 2550; with four it comes to 2521, which is the least.
pub const MOST_STEPS_OF_A_CHANGE: u32 = 4;

/// How many changes a rounding tries from the best of its starts, and from the plan of its point. Climbs on networks of one to four
/// signals and up to 60 steps ended by themselves after at most 1,500.
pub const TRIES_OF_A_ROUNDING: u32 = 2000;

/// How many changes a rounding tries from each of its starts, before it goes on from the best. With 600 it ends at the same delay or
/// a higher one on each network of docs/search.md, and takes up to a third more.
pub const TRIES_OF_A_START: u32 = 400;

/// How many plans of fixed splits a rounding starts from, beside `short`.
pub const STARTS_OF_A_ROUNDING: u32 = 3;

/// How many greens a phase has among the fixed splits: from its minimum on, one part more each.
pub const LEVELS_OF_A_SPLIT: usize = 9;

/// How many parts the way from the minimum green of a phase to its maximum has. With 9 levels the longest green of a split stands
/// halfway: from long greens a climb ends higher, since it has few runs to change.
pub const PARTS_OF_A_GREEN: u32 = 16;
