//! The sending and the receiving terms of a move, by the numbers of their columns.

ghost use Rattle.std.specs.Prelude.{◌≡◌, ◌+◌, ◌<◌, ◌≤◌, ◌++◌, [], ◌∷◌, length, map, IfOk, OnOk};
ghost use Rattle.listed.specs.Below.{sum_below};
ghost use Rattle.ct_base.specs.Access.{cell_of};
ghost use Rattle.ct_base.specs.Validity.{IsValid};
ghost use Rattle.ct_base.specs.declared.cell.Kind.TheVariants.{Road};
ghost use Rattle.ct_base.specs.declared.cell.Out.TheVariants.{Turns};
ghost use Rattle.traffic_model.specs.Occupancy.{demand_at};
ghost use Rattle.program_model.specs.FlowRows.{branch_terms, further_terms, room_most};
ghost use Rattle.program_layout.specs.Layout.{IsLayout};
ghost use Rattle.lo_program.specs.inner.Moves.{branch_by_number, column_term, room_term, term_by_number};

use crate::flows::rooms::room;
use ct_base::{Listed, Memory, Net, Out};
use flow_switches::Term;
use program_columns::{least_units, most_room, most_units, units_of_flow};
use program_layout::{Layout, columns_of_branch, first_column, has_room, parcels_column};
use sparse_program::{Linear, Terms};
use std::alloc::Global;

/// The sending and the receiving terms of the move out of cell i at step t, where so many units have arrived at it before.
pub(super) fn further_terms(
    alloc: Global,
    net: &Net,
    layout: &Layout,
    t: u32,
    i: u32,
    arrived: u32,
) -> Result<Listed<Term>, Memory>
    requires valid { IsValid net.now }
    requires layout { IsLayout net.now layout.now }
    requires before { t < net.now.steps }
    requires inside { i < length net.now.cells }
    requires arrived { arrived ≡ sum_below t (demand_at (cell_of net.now.cells i)) }
    ensures { IfOk result (λ terms. terms ≡ map (term_by_number net.now) (further_terms net.now.cells t i (cell_of net.now.cells i).out)) }
{
    let cell = net.cell(i as usize);
    let units = first_column(net, layout, t, i);
    let most = most_units(cell, arrived, t);
    let mut terms = Listed::new(alloc);
    match &cell.out {
        Out::Exit => push_column(alloc, &mut terms, units, most)?,
        Out::To(target) => {
            push_column(alloc, &mut terms, units, most)?;
            push_room(alloc, &mut terms, net, layout, t, *target)?;
        }
        Out::Turns(turns) => {
            let parcels = parcels_column(net, layout, t, i);
            push_column(alloc, &mut terms, parcels, most / units_of_flow(&cell.out))?;
            push_branches(alloc, &mut terms, net, layout, t, i, turns.as_slice())?;
        }
    }
    Ok(terms)
}

/// Adds the term of a column that comes to at most so much.
fn push_column(
    alloc: Global,
    terms: &mut Listed<Term>,
    column: u32,
    most: u32,
) -> Result<(), Memory>
    ensures { OnOk result (terms.new ≡ terms.old ++ column_term column most ∷ []) }
{
    let mut of = Terms::new(alloc);
    of.push((column, 1))?;
    let of = Linear {
        constant: 0,
        terms: of,
    };
    let most = i64::from(most);
    terms.push(Term { of, most })?;
    Ok(())
}

/// Adds the term of what cell b has room for.
fn push_room(
    alloc: Global,
    terms: &mut Listed<Term>,
    net: &Net,
    layout: &Layout,
    t: u32,
    b: u32,
) -> Result<(), Memory>
    requires valid { IsValid net.now }
    requires layout { IsLayout net.now layout.now }
    requires before { t < net.now.steps }
    requires inside { b < length net.now.cells }
    requires road { (cell_of net.now.cells b).kind ≡ Road }
    ensures { OnOk result (terms.new ≡ terms.old ++ room_term net.now t b ∷ []) }
{
    let of = room(alloc, net, layout, t, b)?;
    let most = i64::from(room_most(net, layout, t, b));
    terms.push(Term { of, most })?;
    Ok(())
}

/// The most that cell b has room for.
fn room_most(net: &Net, layout: &Layout, t: u32, b: u32) -> u32
    requires valid { IsValid net.now }
    requires layout { IsLayout net.now layout.now }
    requires inside { b < length net.now.cells }
    requires road { (cell_of net.now.cells b).kind ≡ Road }
    ensures { result ≡ room_most net.now.cells t b }
{
    let cell = net.cell(b as usize);
    if has_room(net, layout, b) {
        most_room(cell)
    } else {
        cell.store - least_units(cell, t)
    }
}

/// Adds the terms of the branches of cell i.
fn push_branches(
    alloc: Global,
    terms: &mut Listed<Term>,
    net: &Net,
    layout: &Layout,
    t: u32,
    i: u32,
    branches: &[(u32, u32)],
) -> Result<(), Memory>
    requires valid { IsValid net.now }
    requires layout { IsLayout net.now layout.now }
    requires before { t < net.now.steps }
    requires inside { i < length net.now.cells }
    requires out { (cell_of net.now.cells i).out ≡ Turns branches.now }
    ensures { OnOk result (terms.new ≡ terms.old ++ map (term_by_number net.now) (branch_terms net.now.cells t i 0 branches.now)) }
{
    let mut column = parcels_column(net, layout, t, i) + 2;
    for branch in branches {
        push_branch(alloc, terms, net, layout, t, column, *branch)?;
        column += columns_of_branch(branch.1);
    }
    Ok(())
}

/// Adds the term of a branch, whose columns begin with `column` where it has any.
fn push_branch(
    alloc: Global,
    terms: &mut Listed<Term>,
    net: &Net,
    layout: &Layout,
    t: u32,
    column: u32,
    branch: (u32, u32),
) -> Result<(), Memory>
    requires valid { IsValid net.now }
    requires layout { IsLayout net.now layout.now }
    requires before { t < net.now.steps }
    requires inside { branch.0 < length net.now.cells }
    requires road { (cell_of net.now.cells branch.0).kind ≡ Road }
    ensures { OnOk result (terms.new ≡ terms.old ++ branch_by_number net.now t column branch ∷ []) }
{
    let (target, units) = branch;
    if units > 1 {
        let most = most_room(net.cell(target as usize));
        push_column(alloc, terms, column, most / units)
    } else {
        push_room(alloc, terms, net, layout, t, target)
    }
}
