//! Where the columns of a network stand.

ghost use Rattle.std.specs.Prelude.{◌≡◌, ◌<◌, ◌+◌, ◌*◌, ◌≤◌, ◌↔◌, IsTrue, true, IfOk, length};
ghost use Rattle.ct_base.specs.Validity.{IsValid};
ghost use Rattle.ct_base.specs.declared.net.Net.{Net};
ghost use Rattle.program_layout.specs.Layout.{IsLayout};
ghost use Rattle.program_model.specs.Columns.{has_room};
ghost use Rattle.program_model.specs.Numbers.{bits_before, bits_of_step, first_column};

pub mod making;
pub mod numbers;

use ct_base::{Listed, Net};
pub use making::{layout_of, term_count};

/// How many columns stand before those of a signal or of a cell, which is worked out once.
#[derive(Drop)]
pub struct Layout {
    /// The plan columns.
    pub plan: u32,
    /// The plan columns of a step.
    pub bits_of_step: u32,
    /// For each signal the plan columns of a step before its own.
    pub bits_before: Listed<u32>,
    /// The columns of a step of all cells.
    pub cells_of_step: u32,
    /// For each cell the columns of a step before its own.
    pub cells_before: Listed<u32>,
    /// For each cell whether the units that it has room for are a column.
    pub rooms: Listed<bool>,
}

/// The number of the first bit of signal s at step t.
pub fn first_bit(net: &Net, layout: &Layout, t: u32, s: u32) -> u32
    requires valid { IsValid net.now }
    requires layout { IsLayout net.now layout.now }
    requires before { t < net.now.steps }
    requires inside { s < length net.now.signals }
    ensures { result ≡ t * bits_of_step net.now.signals + bits_before net.now.signals s }
{
    let _ = net;
    t * layout.bits_of_step + layout.bits_before.as_slice()[s as usize]
}

/// The number of the first column of cell i at step t.
pub fn first_column(net: &Net, layout: &Layout, t: u32, i: u32) -> u32
    requires valid { IsValid net.now }
    requires layout { IsLayout net.now layout.now }
    requires before { t < net.now.steps }
    requires inside { i < length net.now.cells }
    ensures { result ≡ first_column net.now t i }
{
    let _ = net;
    layout.plan + t * layout.cells_of_step + layout.cells_before.as_slice()[i as usize]
}

/// Whether the units that cell i has room for are a column.
pub fn has_room(net: &Net, layout: &Layout, i: u32) -> bool
    requires layout { IsLayout net.now layout.now }
    requires inside { i < length net.now.cells }
    ensures { result ≡ has_room net.now.cells i }
{
    let _ = net;
    layout.rooms.as_slice()[i as usize]
}
