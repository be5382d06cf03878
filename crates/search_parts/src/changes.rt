//! Changes of prices: at random, and of each price in turn.

ghost use Rattle.std.specs.Prelude.{◌≡◌, ◌<◌, ◌≤◌, length, unsigned_abs};
ghost use Rattle.kept_value.specs.Kept.{IsKeptOf};

use kept_value::KeptValue;
use sparse_program::Program;

/// So many changes of prices at random, in 1024ths of a unit of delay: of any row, by less than 64 units, where the price stays lawful.
pub fn change_at_random(program: &Program, kept: &mut KeptValue, count: u32)
    requires { IsKeptOf program.now kept.old }
    ensures { IsKeptOf program.now kept.new }
{
    let mut state = 1u32;
    for _ in 0..count {
        state = next(state);
        let row = state >> 4;
        state = next(state);
        let size = (state >> 16) as i64;
        let by = if state >> 15 & 1 == 0 { size } else { -size };
        if 0 < program.rows() {
            change(program, kept, row % program.rows(), by);
        }
    }
}

/// The number behind another one in a sequence that looks like chance (Lehmer 1951; the constants of Press and others 1992).
fn next(state: u32) -> u32 {
    state.wrapping_mul(1_664_525).wrapping_add(1_013_904_223)
}

/// So many times each price is raised by 64 in turn, and taken back.
pub fn sweep(program: &Program, kept: &mut KeptValue, count: u32)
    requires { IsKeptOf program.now kept.old }
    ensures { IsKeptOf program.now kept.new }
{
    for _ in 0..count {
        raise_all(program, kept);
    }
}

/// Raises each price by 64, and takes that back.
fn raise_all(program: &Program, kept: &mut KeptValue)
    requires { IsKeptOf program.now kept.old }
    ensures { IsKeptOf program.now kept.new }
{
    for row in 0..program.rows() {
        change(program, kept, row, 64);
        change(program, kept, row, -64);
    }
}

/// Changes a price by a number, where it stays lawful.
fn change(program: &Program, kept: &mut KeptValue, row: u32, by: i64)
    requires of { IsKeptOf program.now kept.old }
    requires there { row < length program.now.rows }
    requires few { unsigned_abs by ≤ 65536 }
    ensures { IsKeptOf program.now kept.new }
{
    if kept.can_change(program, row, by) {
        kept.change(program, row, by);
    }
}
