//! The relaxation: tolls that are raised round by round (Lagrangean relaxation, Geoffrion 1974; the subgradient, Held, Wolfe and Crowder
//! 1974, with a length of its own for each toll, after Duchi, Hazan and Singer 2011).
//!
//! In a round, with the costs of `costs`, what letters earn by `letters`, and the flows of `flows`,
//!
//! (10) `worth = sum of demand(t, i) cost(t + 1, i) + sum of initial(i) cost(0, i) + sum over rule rows of toll x right side - sum over
//!      signals and steps of what the shown letter earns`
//! (11) `gradient of a gate = flow through it - its cap where the shown letter opens it`
//! (12) `gradient of a rule row = right side - its sum where the letters are shown`
//! (13) `squares = squares + gradient^2`, and `toll = max(0, toll + length x gradient / root of squares)`, where that moves the toll
//!
//! A signal shows the letter that the box fixes, or else the one that earns most. The worth is what the prices of these tolls are worth
//! over the box, so the tolls of the greatest worth are kept.

ghost use Rattle.std.specs.Prelude.{◌≡◌, IfOk};
ghost use Rattle.ct_base.specs.Validity.{IsValid};
ghost use Rattle.program_model.specs.Points.{program_of};
ghost use Rattle.safe_bound.specs.Prices.{ArePrices};
ghost use Rattle.seed_prices.specs.Seed.{seed_of};
ghost use Rattle.queue_prices.specs.Tolls.{IsFree};

use crate::costs::fill_costs;
use crate::flows::{Flows, PARTS};
use crate::letters::{chosen_letter, fill_earnings, is_sum, row_sum, side_of};
use crate::places::{add_at, clear, place, value_at, zeros};
use crate::prices::prices_of;
use crate::rows::Rows;
use crate::tolls::Tolls;
use ct_base::{Memory, Net};
use sparse_program::{Bounds, Program};
use std::alloc::Global;

/// The greatest toll: 2^30, more than a unit can cost.
const MOST_TOLL: i64 = 1 << 30;

/// The greatest gradient that is looked at, so that squares of 64 bits hold some of them: 2^31.
const MOST_GRADIENT: i64 = 1 << 31;

/// How far the toll of a gate may be moved in the first round: 4 units of delay.
const GATE_LENGTH: i64 = 4 * 1024;

/// How far the toll of a rule row may be moved in the first round: 20 units of delay.
const RULE_LENGTH: i64 = 20 * 1024;

/// Squares of earlier boxes count a tenth.
const FADING: i64 = 10;

/// What a search over the boxes of one network keeps: where rows stand, how far tolls were moved, and the tables of a round.
#[derive(Debug, Drop)]
pub struct Relaxation {
    pub(crate) rows: Rows,
    gate_squares: Vec<i64>,
    rule_squares: Vec<i64>,
    costs: Vec<i64>,
    flows: Flows,
    earnings: Vec<i64>,
    shown: Vec<i64>,
}

impl Relaxation {
    /// The relaxation of a network, with nothing moved yet.
    pub fn new(alloc: Global, net: &Net, program: &Program) -> Result<Relaxation, Memory>
        requires { IsValid net.now }
    {
        let rows = Rows::of(alloc, net)?;
        let places = place(net.cells.len(), net.steps, 0);
        let bits = program.plan_cols() as usize;
        Ok(Relaxation {
            gate_squares: zeros(alloc, places)?,
            rule_squares: zeros(alloc, rows.rules as usize)?,
            costs: Vec::new(alloc),
            flows: Flows {
                units: zeros(alloc, places)?,
                leaving: zeros(alloc, places)?,
            },
            earnings: zeros(alloc, bits)?,
            shown: zeros(alloc, bits)?,
            rows,
        })
    }

    /// Raises tolls over a box in so many rounds, from some or from none, and answers those of the greatest worth. They are not below 0.
    pub fn raise(
        &mut self,
        alloc: Global,
        net: &Net,
        program: &Program,
        bounds: &Bounds,
        from: Option<&Tolls>,
        rounds: u32,
    ) -> Result<Tolls, Memory>
        requires { IsValid net.now }
    {
        fade(self.gate_squares.as_mut_slice());
        fade(self.rule_squares.as_mut_slice());
        let mut best = match from {
            Some(tolls) => tolls.copy(alloc)?,
            None => Tolls::free(alloc, net, self.rows.rules)?,
        };
        let mut tolls = best.copy(alloc)?;
        let mut most = i64::MIN;
        for round in 0..rounds {
            let worth = self.worth(net, program, bounds, &tolls)?;
            if most < worth {
                most = worth;
                best.take(&tolls);
            }
            self.step(program, &mut tolls, left_of_length(round, rounds));
        }
        Ok(best)
    }

    /// The prices that follow from tolls: one of each row of the network's program, in their order, in 1024ths of a unit of delay. They are
    /// lawful, and where nothing asks for a toll they are the seed.
    pub fn prices(
        &self,
        alloc: Global,
        net: &Net,
        program: &Program,
        bounds: &Bounds,
        seed: &[i64],
        tolls: &Tolls,
    ) -> Result<Vec<i64>, Memory>
        requires valid { IsValid net.now }
        requires program { program.now ≡ program_of net.now }
        requires seed { seed.now ≡ seed_of net.now }
        ensures lawful { IfOk result (λ prices. ArePrices program.now.rows prices.items) }
        ensures free { IsFree tolls.now → IfOk result (λ prices. prices.items ≡ seed.now) }
    {
        prices_of(alloc, net, program, bounds, &self.rows, seed, tolls)
    }

    /// Fills the tables of a round, and answers what the tolls are worth over a box, in 1024ths of a unit of delay.
    fn worth(
        &mut self,
        net: &Net,
        program: &Program,
        bounds: &Bounds,
        tolls: &Tolls,
    ) -> Result<i64, Memory>
        requires { IsValid net.now }
    {
        fill_costs(net, tolls.gates.as_slice(), &mut self.costs)?;
        self.flows.fill(net, tolls, self.costs.as_slice());
        fill_earnings(program, &self.rows, tolls, self.earnings.as_mut_slice());
        let earned = self.show(program, bounds);
        Ok(
            cost_of_units(net, self.costs.as_slice())
                .saturating_add(cost_of_rules(program, self.rows.rules, tolls.rules.as_slice()))
                .saturating_sub(earned),
        )
    }

    /// Shows a letter of each signal at each step, and answers what all of them earn.
    fn show(&mut self, program: &Program, bounds: &Bounds) -> i64 {
        clear(self.shown.as_mut_slice());
        let mut earned = 0i64;
        for row in 0..self.rows.rules {
            if is_sum(program, row) {
                if let Some(letter) = chosen_letter(
                    program,
                    bounds,
                    row,
                    self.earnings.as_slice(),
                ) {
                    add_at(self.shown.as_mut_slice(), letter.column as usize, 1);
                    earned = earned.saturating_add(letter.earns);
                }
            }
        }
        earned
    }

    /// Moves all tolls along the gradient of a round, by the thousandths of their length that are left of it.
    fn step(&mut self, program: &Program, tolls: &mut Tolls, left: i64) {
        self.step_gates(program, tolls, GATE_LENGTH.saturating_mul(left) / 1024);
        self.step_rules(program, tolls, RULE_LENGTH.saturating_mul(left) / 1024);
    }

    /// Moves the tolls of gates.
    fn step_gates(&mut self, program: &Program, tolls: &mut Tolls, length: i64) {
        for gate in &self.rows.gates {
            let open = row_sum(program, gate.row, self.shown.as_slice());
            let gradient = value_at(self.flows.leaving.as_slice(), gate.place).saturating_sub(
                open.saturating_mul(PARTS),
            );
            move_toll(
                tolls.gates.as_mut_slice(),
                self.gate_squares.as_mut_slice(),
                gate.place,
                gradient,
                length,
            );
        }
    }

    /// Moves the tolls of rule rows.
    fn step_rules(&mut self, program: &Program, tolls: &mut Tolls, length: i64) {
        for row in 0..self.rows.rules {
            if !is_sum(program, row) {
                let lacks = side_of(program, row).saturating_sub(row_sum(
                    program,
                    row,
                    self.shown.as_slice(),
                ));
                move_toll(
                    tolls.rules.as_mut_slice(),
                    self.rule_squares.as_mut_slice(),
                    row as usize,
                    lacks.saturating_mul(PARTS),
                    length,
                );
            }
        }
    }
}

/// How many 1024ths of its length a step has in a round: all in the first, falling to a thirty-second.
fn left_of_length(round: u32, rounds: u32) -> i64 {
    let gone = 992u64.saturating_mul(round as u64) / u64::from(rounds).max(1);
    1024i64.saturating_sub(gone.min(1024) as i64)
}

/// Moves a toll along its gradient, where that is not 0 and the toll is not held at 0.
fn move_toll(tolls: &mut [i64], squares: &mut [i64], place: usize, gradient: i64, length: i64) {
    let toll = value_at(tolls, place);
    if gradient == 0 || (gradient < 0 && toll == 0) {
        return;
    }
    let gradient = gradient.min(MOST_GRADIENT).max(-MOST_GRADIENT);
    add_at(squares, place, gradient.saturating_mul(gradient));
    let root = value_at(squares, place).max(1).isqrt().max(1);
    let moved = toll.saturating_add(length.saturating_mul(gradient).div_euclid(root));
    add_at(
        tolls,
        place,
        moved.max(0).min(MOST_TOLL).saturating_sub(toll),
    );
}

/// Lets squares count a tenth.
fn fade(squares: &mut [i64]) {
    for square in squares {
        *square = square.div_euclid(FADING);
    }
}

/// What all units cost that a network has at its start or by demand.
fn cost_of_units(net: &Net, costs: &[i64]) -> i64
    requires { IsValid net.now }
{
    let cells = net.cells.len();
    let mut cost = 0i64;
    for i in 0..cells as u32 {
        let cell = net.cell(i as usize);
        let first = value_at(costs, place(cells, net.steps, i));
        cost = cost
            .saturating_add(i64::from(cell.initial).saturating_mul(first))
            .saturating_add(cost_of_demand(cell.demand.as_slice(), costs, cells, net.steps, i));
    }
    cost
}

/// What the demand of cell i costs: what arrives at a step is there at the next.
fn cost_of_demand(demand: &[u32], costs: &[i64], cells: usize, steps: u32, i: u32) -> i64 {
    let mut cost = 0i64;
    for t in 0..demand.len().min(u32::MAX as usize) as u32 {
        let left = steps.saturating_sub(1).saturating_sub(t);
        let one = value_at(costs, place(cells, left, i));
        cost = cost.saturating_add(i64::from(demand[t as usize]).saturating_mul(one));
    }
    cost
}

/// What rule rows are paid by their right sides.
fn cost_of_rules(program: &Program, rules: u32, tolls: &[i64]) -> i64 {
    let mut cost = 0i64;
    for row in 0..rules {
        let toll = value_at(tolls, row as usize);
        if toll != 0 {
            cost = cost.saturating_add(toll.saturating_mul(side_of(program, row)));
        }
    }
    cost
}
