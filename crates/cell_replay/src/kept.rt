//! A replay of a whole plan that keeps what the cells hold at each step. Under another plan it starts again at the first step that
//! changed, and takes no memory.

ghost use Rattle.std.specs.Prelude.{◌≡◌, ℕ, ◌+◌, ◌*◌, ◌<◌, ◌≤◌, ◌^◌, IfOk, length, slice_index};
ghost use Rattle.cell_replay.specs.Keeps.{HasRoom, Keeps, KeepsTo, units_at};
ghost use Rattle.ct_base.specs.Validity.{IsValid};
ghost use Rattle.ct_base.specs.declared.net.Net.{Net};
ghost use Rattle.ct_base.specs.declared.plan.Plan.{Plan};
ghost use Rattle.traffic_model.specs.Delay.{delay_of, letters_at, step_delay};
ghost use Rattle.traffic_model.specs.Occupancy.{AreHeld, next_units};
ghost use Rattle.traffic_model.specs.Runs.{HasWords};

use crate::moves::advance;
use crate::replay::initial_units;
use crate::whole_plan::show;
use ct_base::{Letter, Memory, Net, Plan};
use std::alloc::Global;
use std::marker::Model;

/// What the cells of a network hold at each step of a plan, and the delay up to each step.
#[derive(Debug, Drop)]
pub struct KeptReplay {
    /// The units of all cells at step 0, then at step 1, and so on up to the horizon.
    units: Vec<u32>,
    /// The delay of the steps before each step.
    delays: Vec<u64>,
    /// Room for what leaves each cell in a step.
    outflows: Vec<u32>,
    /// Room for what each signal shows in a step.
    letters: Vec<Letter>,
}

impl Model for KeptReplay {
    ghost use Rattle.std.specs.Prelude.{◌<◌, vec_len};
    ghost use Rattle.cell_replay.specs.Keeps.{Kept};

    ghost Value = { Kept };

    ghost view = { λ a. record { units = a.units.items; delays = a.delays.items; outflows = a.outflows.items; letters = a.letters.items } };

    ghost invariant = { λ a. 0 < vec_len a.delays };
}

impl KeptReplay {
    /// Replays a whole plan.
    pub fn start(alloc: Global, net: &Net, plan: &Plan) -> Result<KeptReplay, Memory>
        requires valid { IsValid net.now }
        requires words { HasWords net.now plan.now }
        ensures { IfOk result (Keeps net.now plan.now) }
    {
        let mut kept = KeptReplay::at_start(alloc, net)?;
        kept.replay(net, plan, 0);
        Ok(kept)
    }

    /// What the cells hold at step 0, with room for each further step.
    fn at_start(alloc: Global, net: &Net) -> Result<KeptReplay, Memory>
        requires { IsValid net.now }
        ensures { IfOk result (λ kept. (plan : Plan) → KeepsTo net.now plan 0 kept) }
    {
        let cells = net.cells.len();
        let steps = net.steps as usize + 1;
        let mut units = initial_units(alloc, net.cells.as_slice())?;
        units.resize(steps * cells, 0)?;
        Ok(KeptReplay {
            units,
            delays: vec![in alloc; 0; steps]?,
            outflows: vec![in alloc; 0; cells]?,
            letters: vec![in alloc; Letter::Clear(0); net.signals.len()]?,
        })
    }

    /// Replays a plan from a step on, where all that is kept up to this step is the plan's. It takes no memory.
    pub fn replay(&mut self, net: &Net, plan: &Plan, first: u32)
        requires valid { IsValid net.now }
        requires words { HasWords net.now plan.now }
        requires within { first ≤ net.now.steps }
        requires kept { KeepsTo net.now plan.now first self.old }
        ensures { Keeps net.now plan.now self.new }
    {
        for step in first..net.steps {
            self.step(net, plan, step);
        }
    }

    /// Replays one step of a plan.
    fn step(&mut self, net: &Net, plan: &Plan, step: u32)
        requires valid { IsValid net.now }
        requires words { HasWords net.now plan.now }
        requires before_the_end { step < net.now.steps }
        requires kept { KeepsTo net.now plan.now step self.old }
        ensures { KeepsTo net.now plan.now (step + 1) self.new }
    {
        let letters = self.letters.as_mut_slice();
        show(plan.words.as_slice(), step, letters);
        let outflows = self.outflows.as_mut_slice();
        let delay = move_on(net, step, letters, self.units.as_mut_slice(), outflows);
        add_up(self.delays.as_mut_slice(), step, delay);
    }

    /// The delay of the whole plan, in units times steps.
    pub fn delay(&self) -> u64
        ensures { (net : Net) (plan : Plan) → Keeps net plan self.now →
            result ≡ delay_of net.cells (letters_at plan.words) net.steps }
    {
        let delays = self.delays.as_slice();
        delays[delays.len() - 1]
    }

    /// The delay of the steps before a step, in units times steps.
    pub fn delay_to(&self, step: u32) -> u64
        requires { step < length self.now.delays }
        ensures { result ≡ slice_index self.now.delays step }
    {
        self.delays[step as usize]
    }

    /// The units that each cell holds at a step.
    pub fn units(&self, net: &Net, step: u32) -> &[u32]
        requires valid { IsValid net.now }
        requires room { HasRoom net.now self.now }
        requires within { step ≤ net.now.steps }
        ensures { result.now ≡ units_at (length net.now.cells) step self.now.units }
    {
        let cells = net.cells.len();
        let at = step as usize * cells;
        &self.units.as_slice()[at..at + cells]
    }
}

/// Moves what the cells hold at a step on to the step behind it, and answers the delay of the step.
fn move_on(net: &Net, step: u32, letters: &[Letter], units: &mut [u32], outflows: &mut [u32]) -> u64
    requires valid { IsValid net.now }
    requires in_time { step < net.now.steps }
    requires letters { length letters.now ≡ length net.now.signals }
    requires long { length units.old ≡ (net.now.steps + 1) * length net.now.cells }
    requires held { AreHeld net.now.cells step (units_at (length net.now.cells) step units.old) }
    requires outflows { length outflows.old ≡ length net.now.cells }
    ensures next { units_at (length net.now.cells) (step + 1) units.new
        ≡ next_units net.now.cells letters.now step (units_at (length net.now.cells) step units.old) }
    ensures before { (t : ℕ) → t ≤ step →
        units_at (length net.now.cells) t units.new ≡ units_at (length net.now.cells) t units.old }
    ensures delay { result ≡ step_delay net.now.cells letters.now (units_at (length net.now.cells) step units.old) }
{
    let cells = net.cells.len();
    let at = step as usize * cells;
    let next = at + cells;
    units.copy_within(at..next, next);
    advance(net, step, letters, &mut units[next..next + cells], outflows)
}

/// Notes the delay up to the end of a step.
fn add_up(delays: &mut [u64], step: u32, delay: u64)
    requires there { step + 1 < length delays.old }
    requires small { slice_index delays.old step + delay < 2 ^ 64 }
    ensures next { slice_index delays.new (step + 1) ≡ slice_index delays.old step + delay }
    ensures before { (t : ℕ) → t ≤ step → slice_index delays.new t ≡ slice_index delays.old t }
{
    let step = step as usize;
    delays[step + 1] = delays[step] + delay;
}
