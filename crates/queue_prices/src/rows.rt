//! Where the rows stand that have prices (docs/program.md, "Rule rows" and "Flow rows"). Nothing that is found here is trusted: a price
//! on a wrong row would be lawful all the same, and worth less.

ghost use Rattle.std.specs.Prelude.{◌<◌, length};
ghost use Rattle.ct_base.specs.Validity.{IsSplit, IsValid};
ghost use Rattle.program_layout.specs.Layout.{IsLayout};

use crate::places::place;
use ct_base::{Memory, Net, Out};
use lo_program::rule_row_count;
use program_layout::{Layout, columns_of_split, has_room, layout_of, term_count};
use std::alloc::Global;

/// The rows of all cells, and those of gates.
#[derive(Debug, Drop)]
pub(crate) struct Rows {
    /// How many rule rows there are.
    pub(crate) rules: u32,
    /// How many flow rows a step has behind which another comes.
    pub(crate) of_step: u32,
    pub(crate) cells: Vec<CellRows>,
    pub(crate) gates: Vec<GateRow>,
}

/// Where the rows of a cell stand.
#[derive(Clone, Copy, Debug)]
pub(crate) struct CellRows {
    /// How many flow rows of a step stand before those of the cell.
    pub(crate) before: u32,
    /// Behind the first row of the cell: the floor of the parcels, at a diverge.
    pub(crate) parcels: u32,
    /// The lower row of the cap; that of what the cell can send comes next.
    pub(crate) cap: u32,
    /// The row of what the cell holds in the next step.
    pub(crate) holds: u32,
}

/// A gate at a step.
#[derive(Clone, Copy, Debug)]
pub(crate) struct GateRow {
    /// The place of the step and the cell in a table that has a row for each step and a column for each cell.
    pub(crate) place: usize,
    /// The lower row of the cap.
    pub(crate) row: u32,
}

impl Rows {
    /// The rows of a network's program.
    pub(crate) fn of(alloc: Global, net: &Net) -> Result<Rows, Memory>
        requires { IsValid net.now }
    {
        let layout = layout_of(alloc, net)?;
        let mut rows = Rows {
            rules: rule_row_count(net).min(u32::MAX as u64) as u32,
            of_step: 0,
            cells: Vec::new(alloc),
            gates: Vec::new(alloc),
        };
        rows.add_cells(net, &layout)?;
        for t in 0..net.steps {
            rows.add_gates(net, t)?;
        }
        Ok(rows)
    }

    /// The first flow row of cell i at step t: without a next step no cell has a row of what it holds then.
    pub(crate) fn first(&self, net: &Net, t: u32, i: u32) -> u32 {
        let wanting = if t.saturating_add(1) < net.steps {
            0
        } else {
            i
        };
        self.rules
            .saturating_add(t.saturating_mul(self.of_step))
            .saturating_add(self.cell(i).before)
            .saturating_sub(wanting)
    }

    /// Where the rows of cell i stand.
    pub(crate) fn cell(&self, i: u32) -> CellRows {
        match self.cells.get(i as usize) {
            Some(cell) => *cell,
            None => CellRows {
                before: 0,
                parcels: 0,
                cap: 0,
                holds: 0,
            },
        }
    }

    /// Adds the rows of all cells.
    fn add_cells(&mut self, net: &Net, layout: &Layout) -> Result<(), Memory>
        requires valid { IsValid net.now }
        requires layout { IsLayout net.now layout.now }
    {
        for i in 0..net.cells.len() as u32 {
            let room = has_room(net, layout, i);
            self.add_cell(&net.cell(i as usize).out, room)?;
        }
        Ok(())
    }

    /// Adds the rows of the next cell.
    fn add_cell(&mut self, out: &Out, has_room: bool) -> Result<(), Memory>
        requires { IsSplit out.now }
    {
        let parcels = if has_room { 1 } else { 0 };
        // Each floor has two columns. The sum of the switches stands before the cap.
        let cap = parcels + columns_of_split(out) / 2 + 1;
        let holds = cap + 2 * term_count(out);
        let before = self.of_step;
        self.cells.push(CellRows {
            before,
            parcels,
            cap,
            holds,
        })?;
        self.of_step = before.saturating_add(holds).saturating_add(1);
        Ok(())
    }

    /// Adds the gates of step t.
    fn add_gates(&mut self, net: &Net, t: u32) -> Result<(), Memory>
        requires { IsValid net.now }
    {
        for i in 0..net.cells.len() as u32 {
            if net.cell(i as usize).gate.is_some() {
                let row = self.first(net, t, i).saturating_add(self.cell(i).cap);
                let place = place(net.cells.len(), t, i);
                self.gates.push(GateRow { place, row })?;
            }
        }
        Ok(())
    }
}
