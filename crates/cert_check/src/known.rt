//! What is known of plans while nodes are judged: the delay of the one that the box fixes, and a replay of the last one.

ghost use Rattle.std.specs.Prelude.{◌≡◌, IfOk, IfSome};
ghost use Rattle.ct_base.specs.Validity.{IsValid};
ghost use Rattle.ct_base.specs.declared.net.Net.{Net};
ghost use Rattle.traffic_model.specs.Delay.{delay_of, letters_at};
ghost use Rattle.traffic_model.specs.Runs.{HasWords};
ghost use Rattle.cert_check.specs.inner.Known.{IsReplayed};

use cell_replay::{KeptReplay, first_change};
use ct_base::{Memory, Net, Plan};
use std::alloc::Global;

/// What is known of the plans of fixed leaves.
#[derive(Debug, Drop)]
pub(crate) struct Known {
    /// The delay of the plan that the box fixes, where that is known.
    pub delay: Option<u64>,
    /// The plan that was replayed last. It says nothing of the box.
    pub last: Option<Replayed>,
}

/// A plan with its replay.
#[derive(Debug, Drop)]
pub(crate) struct Replayed {
    plan: Plan,
    replay: KeptReplay,
}

/// The delay of a plan, which becomes the one that was replayed last. Only the steps from the first change on are replayed.
pub fn replayed_delay(
    alloc: Global,
    net: &Net,
    last: &mut Option<Replayed>,
    plan: Plan,
) -> Result<u64, Memory>
    requires valid { IsValid net.now }
    requires words { HasWords net.now plan }
    requires last { IfSome last.old (IsReplayed net.now) }
    ensures delay { IfOk result (λ delay. delay ≡ delay_of net.now.cells (letters_at plan.words) net.now.steps) }
    ensures last { IfSome last.new (IsReplayed net.now) }
{
    if let Some(replayed) = last {
        replayed.follow(net, plan);
        return Ok(replayed.replay.delay());
    }
    let replay = KeptReplay::start(alloc, net, &plan)?;
    let delay = replay.delay();
    *last = Some(Replayed { plan, replay });
    Ok(delay)
}

impl Replayed {
    /// Goes on to another plan, from the first step at which it shows other letters.
    fn follow(&mut self, net: &Net, plan: Plan)
        requires valid { IsValid net.now }
        requires words { HasWords net.now plan }
        requires of { IsReplayed net.now self.old }
        ensures of { IsReplayed net.now self.new }
        ensures plan { self.new.plan ≡ plan }
    {
        let first = first_change(net, &self.plan, &plan);
        self.replay.replay(net, &plan, first);
        self.plan = plan;
    }
}
