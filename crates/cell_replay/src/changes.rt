//! Where two plans part.

ghost use Rattle.std.specs.Prelude.{◌≡◌, ◌≢◌, ℕ, ◌<◌, ◌≤◌, length, slice_index_or};
ghost use Rattle.cell_replay.specs.Keeps.{IsFirstChange};
ghost use Rattle.ct_base.specs.declared.plan.Letter.TheVariants.{Clear};
ghost use Rattle.traffic_model.specs.Runs.{HasWords};

use ct_base::{Letter, Net, Plan};

/// The first step at which two plans of a network show different letters, or the horizon where there is none.
pub fn first_change(net: &Net, old: &Plan, new: &Plan) -> u32
    requires old { HasWords net.now old.now }
    requires new { HasWords net.now new.now }
    ensures { IsFirstChange net.now old.now new.now result }
{
    let new = new.words.as_slice();
    let mut first = net.steps;
    for (number, word) in old.words.as_slice().iter().enumerate() {
        first = first_difference(word.as_slice(), new[number].as_slice(), first);
    }
    first
}

/// The first of so many letters that is another in two words, or their number where there is none.
fn first_difference(old: &[Letter], new: &[Letter], most: u32) -> u32
    requires old { most ≤ length old.now }
    requires new { most ≤ length new.now }
    ensures within { result ≤ most }
    ensures same { (t : ℕ) → t < result → slice_index_or old.now t (Clear 0) ≡ slice_index_or new.now t (Clear 0) }
    ensures differs { result < most → slice_index_or old.now result (Clear 0) ≢ slice_index_or new.now result (Clear 0) }
{
    for step in 0..most {
        if old[step as usize] != new[step as usize] {
            return step;
        }
    }
    most
}
