//! Where units go that each take the cheaper way, one by one: forwards in time, a cell's units all leave where going costs no more than
//! staying, and all stay where it costs more. No capacity and no storage holds them back, so this is no replay.

ghost use Rattle.std.specs.Prelude.{◌<◌, length};
ghost use Rattle.ct_base.specs.Validity.{IsSplit, IsValid};

use crate::costs::Going;
use crate::places::{add_at, clear, place, value_at};
use crate::tolls::Tolls;
use certificate_model::SCALE;
use ct_base::{Net, Out};
use program_columns::units_of_flow;

/// How many parts a unit has where it is split: 1024.
pub(crate) const PARTS: i64 = SCALE as i64;

/// What stands in each cell at each step, and what flow leaves it: units, or at a diverge parcels. Both count 1024ths, step by step.
#[derive(Debug, Drop)]
pub(crate) struct Flows {
    pub(crate) units: Vec<i64>,
    pub(crate) leaving: Vec<i64>,
}

impl Flows {
    /// Fills both tables by the costs that follow from tolls.
    pub(crate) fn fill(&mut self, net: &Net, tolls: &Tolls, costs: &[i64])
        requires { IsValid net.now }
    {
        clear(self.units.as_mut_slice());
        clear(self.leaving.as_mut_slice());
        for i in 0..net.cells.len() as u32 {
            let initial = parts_of(net.cell(i as usize).initial);
            add_at(
                self.units.as_mut_slice(),
                place(net.cells.len(), 0, i),
                initial,
            );
        }
        for t in 0..net.steps {
            self.send_step(net, tolls, costs, t);
        }
    }

    /// Sends what stands in the cells at step t.
    fn send_step(&mut self, net: &Net, tolls: &Tolls, costs: &[i64], t: u32)
        requires valid { IsValid net.now }
        requires before { t < net.now.steps }
    {
        for i in 0..net.cells.len() as u32 {
            self.send_cell(net, tolls, costs, t, i);
        }
    }

    /// Sends what stands in cell i at step t, and lets its demand arrive.
    fn send_cell(&mut self, net: &Net, tolls: &Tolls, costs: &[i64], t: u32, i: u32)
        requires valid { IsValid net.now }
        requires before { t < net.now.steps }
        requires inside { i < length net.now.cells }
    {
        let cells = net.cells.len();
        let cell = net.cell(i as usize);
        let next = place(cells, t + 1, i);
        let demand = match cell.demand.as_slice().get(t as usize) {
            Some(demand) => parts_of(*demand),
            None => 0,
        };
        add_at(self.units.as_mut_slice(), next, demand);
        let units = value_at(self.units.as_slice(), place(cells, t, i));
        if units == 0 {
            return;
        }
        let going = Going::at(net, tolls.gates.as_slice(), costs, net.steps - 1 - t, i);
        if going.go <= going.stay {
            let flow = units.div_euclid(i64::from(units_of_flow(&cell.out)));
            add_at(self.leaving.as_mut_slice(), place(cells, t, i), flow);
            self.send(&cell.out, cells, t + 1, flow);
        } else {
            add_at(self.units.as_mut_slice(), next, units);
        }
    }

    /// Lets a flow enter the cells that a move leads into, at a step.
    fn send(&mut self, out: &Out, cells: usize, t: u32, flow: i64) {
        match out {
            Out::Exit => {}
            Out::To(next) => add_at(self.units.as_mut_slice(), place(cells, t, *next), flow),
            Out::Turns(turns) => {
                for (next, units) in turns.as_slice() {
                    let entering = flow.saturating_mul(i64::from(*units));
                    add_at(self.units.as_mut_slice(), place(cells, t, *next), entering);
                }
            }
        }
    }
}

/// So many whole units.
fn parts_of(units: u32) -> i64 {
    PARTS.saturating_mul(i64::from(units))
}
