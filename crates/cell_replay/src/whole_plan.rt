//! What a whole plan comes to: its delay, and what is left at the end.

ghost use Rattle.std.specs.Prelude.{◌≡◌, ◌<◌, ◌≤◌, All, IfOk, length};
ghost use Rattle.ct_base.specs.Validity.{IsValid};
ghost use Rattle.traffic_model.specs.Delay.{delay_of, left_of, letters_at};
ghost use Rattle.traffic_model.specs.Runs.{HasWords};

use crate::replay::{Replay, Totals};
use ct_base::{Letter, Memory, Net, Plan, Word};
use std::alloc::Global;

/// Replays a plan over all steps of the network.
pub fn totals(alloc: Global, net: &Net, plan: &Plan) -> Result<Totals, Memory>
    requires valid { IsValid net.now }
    requires words { HasWords net.now plan.now }
    ensures delay { IfOk result (λ totals. totals.delay
        ≡ delay_of net.now.cells (letters_at plan.now.words) net.now.steps) }
    ensures left { IfOk result (λ totals. totals.left
        ≡ left_of net.now.cells (letters_at plan.now.words) net.now.steps) }
{
    totals_of(alloc, net, plan, net.steps)
}

/// The delay of a plan over all steps of the network, in units times steps.
pub fn delay(alloc: Global, net: &Net, plan: &Plan) -> Result<u64, Memory>
    requires valid { IsValid net.now }
    requires words { HasWords net.now plan.now }
    ensures { IfOk result (λ delay. delay
        ≡ delay_of net.now.cells (letters_at plan.now.words) net.now.steps) }
{
    Ok(totals(alloc, net, plan)?.delay)
}

/// The delay of the first so many steps of a plan, in units times steps.
pub fn prefix_delay(alloc: Global, net: &Net, plan: &Plan, steps: u32) -> Result<u64, Memory>
    requires valid { IsValid net.now }
    requires words { HasWords net.now plan.now }
    requires within { steps ≤ net.now.steps }
    ensures { IfOk result (λ delay. delay
        ≡ delay_of net.now.cells (letters_at plan.now.words) steps) }
{
    Ok(totals_of(alloc, net, plan, steps)?.delay)
}

/// Replays the first so many steps of a plan.
fn totals_of(alloc: Global, net: &Net, plan: &Plan, steps: u32) -> Result<Totals, Memory>
    requires valid { IsValid net.now }
    requires words { HasWords net.now plan.now }
    requires within { steps ≤ net.now.steps }
    ensures delay { IfOk result (λ totals. totals.delay
        ≡ delay_of net.now.cells (letters_at plan.now.words) steps) }
    ensures left { IfOk result (λ totals. totals.left
        ≡ left_of net.now.cells (letters_at plan.now.words) steps) }
{
    let mut replay = Replay::start(alloc, net)?;
    let mut letters = vec![in alloc; Letter::Clear(0); plan.words.len()]?;
    let mut delay = 0;
    for step in 0..steps {
        let shown = letters.as_mut_slice();
        show(plan.words.as_slice(), step, shown);
        delay += replay.step(net, shown).units;
    }
    Ok(Totals {
        delay,
        left: replay.left(),
    })
}

/// Fills in what each signal shows in a step.
pub fn show(words: &[Word], step: u32, letters: &mut [Letter])
    requires shown { All (λ word. step < length word) words.now }
    requires one_per_signal { length letters.old ≡ length words.now }
    ensures { letters.new ≡ letters_at words.now step }
{
    for (number, word) in words.iter().enumerate() {
        letters[number] = word.as_slice()[step as usize];
    }
}
