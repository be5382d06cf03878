//! Hill climbing over the greens of a plan.

ghost use Rattle.std.specs.Prelude.{◌≡◌, ◌<◌, ◌≤◌, IfOk, IfSome, OnOk, length};
ghost use Rattle.ct_base.specs.Validity.{IsValid};
ghost use Rattle.traffic_model.specs.Runs.{IsAdmissiblePlan};
ghost use Rattle.plan_rounding.specs.Replayed.{IsReplayed, delay_in};
ghost use Rattle.plan_rounding.specs.inner.Climbs.{IsClimb};

use crate::greens::{change_numbered, changed_word};
use crate::replays::ReplayedPlan;
use crate::word_change::with_word;
use cell_replay::{KeptReplay, first_change};
use ct_base::{Duplicate, Memory, Net, Plan, Word};
use phase_rules::admissible;
use std::alloc::Global;

/// A plan that is no worse than the given one, with its delay: what a climb of at most so many tries finds.
///
/// One green after the other is changed, signal by signal and run by run (docs/search.md, "Plans"). The first change with a lesser
/// delay is taken, and the climb goes on from the plan that it gives. It ends where no change of any run is a gain, or the tries are
/// used up. Each try replays the steps from the first one that changed on, and no more.
pub fn improved(alloc: Global, net: &Net, plan: Plan, tries: u32) -> Result<ReplayedPlan, Memory>
    requires valid { IsValid net.now }
    requires admissible { IsAdmissiblePlan net.now plan }
    ensures of { IfOk result (IsReplayed net.now) }
    ensures no_worse { IfOk result (λ found. found.delay ≤ delay_in net.now plan) }
{
    let mut climb = Climb::start(alloc, net, plan)?;
    for _ in 0..tries {
        if !climb.go_on(alloc, net)? {
            break;
        }
    }
    let Climb { best, delay, .. } = climb;
    Ok(ReplayedPlan { plan: best, delay })
}

/// How far a climb has come.
#[derive(Debug, Drop)]
pub(crate) struct Climb {
    /// The best plan so far.
    best: Plan,
    /// Its delay.
    delay: u64,
    /// The plan that was tried last, and its replay.
    tried: Plan,
    replay: KeptReplay,
    /// The signal and the number of the change that is tried next.
    signal: usize,
    change: u32,
    /// Whether a change was a gain since the first signal's first change was tried.
    gained: bool,
}

impl Climb {
    /// A climb from a plan.
    pub(crate) fn start(alloc: Global, net: &Net, plan: Plan) -> Result<Climb, Memory>
        requires valid { IsValid net.now }
        requires admissible { IsAdmissiblePlan net.now plan }
        ensures of { IfOk result (IsClimb net.now) }
        ensures delay { IfOk result (λ climb. climb.delay ≡ delay_in net.now plan) }
    {
        let replay = KeptReplay::start(alloc, net, &plan)?;
        let tried = plan.copy()?;
        Ok(Climb {
            best: plan,
            delay: replay.delay(),
            tried,
            replay,
            signal: 0,
            change: 0,
            gained: false,
        })
    }

    /// Tries the next change of the best plan. False says that none is left to try.
    fn go_on(&mut self, alloc: Global, net: &Net) -> Result<bool, Memory>
        requires valid { IsValid net.now }
        requires of { IsClimb net.now self.old }
        ensures of { OnOk result (IsClimb net.now self.new) }
        ensures no_worse { OnOk result (self.new.delay ≤ self.old.delay) }
    {
        if self.signal >= net.signals.len() {
            return Ok(self.begin_again());
        }
        match self.next_word(alloc, net)? {
            Some(word) => {
                self.change = self.change.saturating_add(1);
                self.try_word(alloc, net, &word)?;
            }
            None => {
                self.change = 0;
                self.signal = self.signal.saturating_add(1);
            }
        }
        Ok(true)
    }

    /// Goes back to the first change where any was a gain.
    fn begin_again(&mut self) -> bool
        ensures best { self.new.best ≡ self.old.best }
        ensures delay { self.new.delay ≡ self.old.delay }
        ensures tried { self.new.tried ≡ self.old.tried }
        ensures replay { self.new.replay ≡ self.old.replay }
    {
        let again = self.gained;
        self.signal = 0;
        self.change = 0;
        self.gained = false;
        again
    }

    /// The word that the next change makes, or none where all changes of the signal were tried.
    fn next_word(&self, alloc: Global, net: &Net) -> Result<Option<Word>, Memory>
        requires valid { IsValid net.now }
        requires admissible { IsAdmissiblePlan net.now self.now.best }
        requires inside { self.now.signal < length net.now.signals }
        ensures { IfOk result (λ found. IfSome found (λ word. length word ≡ net.now.steps)) }
    {
        let word = self.best.words.as_slice()[self.signal].as_slice();
        let change = change_numbered(self.change);
        changed_word(alloc, net.signal(self.signal), word, change)
    }

    /// Tries the best plan with another word for the signal, where the signal may show it.
    fn try_word(&mut self, alloc: Global, net: &Net, word: &Word) -> Result<(), Memory>
        requires valid { IsValid net.now }
        requires of { IsClimb net.now self.old }
        requires inside { self.old.signal < length net.now.signals }
        requires length { length word.now ≡ net.now.steps }
        ensures of { OnOk result (IsClimb net.now self.new) }
        ensures no_worse { OnOk result (self.new.delay ≤ self.old.delay) }
    {
        if admissible(net.signal(self.signal), word.as_slice()) {
            let plan = with_word(alloc, net, &self.best, self.signal, word)?;
            self.try_plan(net, plan)?;
        }
        Ok(())
    }

    /// Tries a plan, which becomes the best where it has a lesser delay.
    fn try_plan(&mut self, net: &Net, plan: Plan) -> Result<(), Memory>
        requires valid { IsValid net.now }
        requires of { IsClimb net.now self.old }
        requires admissible { IsAdmissiblePlan net.now plan }
        ensures of { OnOk result (IsClimb net.now self.new) }
        ensures no_worse { OnOk result (self.new.delay ≤ self.old.delay) }
    {
        let first = first_change(net, &self.tried, &plan);
        self.replay.replay(net, &plan, first);
        self.tried = plan;
        let delay = self.replay.delay();
        if delay < self.delay {
            self.best = self.tried.copy()?;
            self.delay = delay;
            self.gained = true;
        }
        Ok(())
    }

    /// The delay of a plan that is tried.
    pub(crate) fn delay_of(&mut self, net: &Net, plan: Plan) -> Result<u64, Memory>
        requires valid { IsValid net.now }
        requires of { IsClimb net.now self.old }
        requires admissible { IsAdmissiblePlan net.now plan }
        ensures { OnOk result (IsClimb net.now self.new) }
    {
        self.try_plan(net, plan)?;
        Ok(self.replay.delay())
    }
}
