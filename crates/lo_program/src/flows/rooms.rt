//! The units that cells have room for, as expressions.

ghost use Rattle.std.specs.Prelude.{◌≡◌, ◌<◌, ◌-◌, [], ◌∷◌, pos, neg_ℤ, true, false, length, IfOk};
ghost use Rattle.ct_base.specs.Access.{cell_of};
ghost use Rattle.ct_base.specs.Validity.{IsValid};
ghost use Rattle.program_model.specs.Columns.{has_room};
ghost use Rattle.program_model.specs.FlowRows.{room};
ghost use Rattle.program_model.specs.Numbers.{first_column, number_of};
ghost use Rattle.program_model.specs.Sparse.{by_number};
ghost use Rattle.program_layout.specs.Layout.{IsLayout};

use ct_base::{Memory, Net};
use program_layout::{Layout, first_column, has_room};
use sparse_program::{Linear, Terms};
use std::alloc::Global;

/// The units that cell b has room for at step t: a column, or its free storage.
pub(crate) fn room(
    alloc: Global,
    net: &Net,
    layout: &Layout,
    t: u32,
    b: u32,
) -> Result<Linear, Memory>
    requires valid { IsValid net.now }
    requires layout { IsLayout net.now layout.now }
    requires before { t < net.now.steps }
    requires inside { b < length net.now.cells }
    ensures constant { IfOk result (λ linear. linear.constant ≡ (room net.now.cells t b).constant) }
    ensures terms { IfOk result (λ linear. linear.terms ≡ by_number (number_of net.now) (room net.now.cells t b).terms) }
{
    let units = first_column(net, layout, t, b);
    let mut terms = Terms::new(alloc);
    let constant = if has_room(net, layout, b) {
        terms.push((units + 1, 1))?;
        0
    } else {
        terms.push((units, -1))?;
        i64::from(net.cell(b as usize).store)
    };
    Ok(Linear { constant, terms })
}
