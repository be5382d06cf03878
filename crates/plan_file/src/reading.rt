//! What the lines of a plan text come to, as far as they were read: words of closed blocks, and the runs of the open one.

ghost use Rattle.std.specs.Prelude.{◌≡◌, ◌≤◌, ◌<◌, ◌&&◌, nat_lt, false, length, map, OnOk};
ghost use Rattle.std.specs.Str.{bytes_eq};
ghost use Rattle.ct_base.specs.Access.{phase_of};
ghost use Rattle.ct_base.specs.Validity.{IsBetween, IsSignal};
ghost use Rattle.phase_rules.specs.Expansion.{expanded, run_by};
ghost use Rattle.named_net.specs.Naming.{Named, signal_names_at};
ghost use Rattle.plan_file.specs.Lines.{OfRun, OfSignal, lines_in};
ghost use Rattle.plan_file.specs.Refusals.{phase_number};
ghost use Rattle.plan_file.specs.inner.Scan.{after_end, at_first, closed, ended, stepped};
ghost use Rattle.plan_file.specs.inner.State.{IsReading, Tells, TellsWord, progress_of, said};

use crate::fault::PlanFault;
use crate::line::Line;
use ct_base::{Listed, Plan, Signal, Word};
use named_net::NamedNet;
use phase_rules::{RunFault, expand, judge_run};
use std::alloc::Global;

/// The blocks read so far. After an `Err` it is not to be used further.
#[derive(Drop)]
pub(crate) struct Reading {
    /// The words of the closed blocks, one per signal from the first on.
    words: Listed<Word>,
    /// Whether a block is open: that of the next signal.
    is_open: bool,
    /// The runs of the open block. The list is used again for each block.
    runs: Vec<(u8, u32)>,
    /// The letters of these runs, their whole clearing among them.
    letters: u32,
}

impl Reading {
    /// No block. It takes no memory.
    pub(crate) fn new(alloc: Global) -> Reading
        ensures first { progress_of result ≡ at_first }
        ensures reading { (named : Named) → IsReading named result }
    {
        Reading {
            words: Listed::new(alloc),
            is_open: false,
            runs: Vec::new(alloc),
            letters: 0,
        }
    }

    /// Takes a line of the number, which is not `end`.
    pub(crate) fn take(
        &mut self,
        alloc: Global,
        named: &NamedNet,
        number: u64,
        line: Line<'_>,
    ) -> Result<(), PlanFault>
        requires { IsReading named.now self.old }
        ensures told { Tells result (stepped named.now number (progress_of self.old) (said line.entry)) (progress_of self.new) }
        ensures reading { OnOk result (IsReading named.now self.new) }
    {
        match line {
            Line::OfSignal(name) => self.begin_block(alloc, named, number, name),
            Line::OfRun(phase, green) => self.take_run(named, number, phase, green),
            Line::Head | Line::End | Line::Other => Err(PlanFault::Form(number)),
        }
    }

    /// Begins the block of a signal of this name, which the line of the number names.
    fn begin_block(
        &mut self,
        alloc: Global,
        named: &NamedNet,
        number: u64,
        name: &[u8],
    ) -> Result<(), PlanFault>
        requires { IsReading named.now self.old }
        ensures told { Tells result (stepped named.now number (progress_of self.old) (OfSignal name.now)) (progress_of self.new) }
        ensures reading { OnOk result (IsReading named.now self.new) }
    {
        self.close_block(alloc, named, number)?;
        if !is_next(named, self.words.len(), name) {
            return Err(PlanFault::Signal(number));
        }
        self.is_open = true;
        Ok(())
    }

    /// Takes one run more of the open block, at the line of the number.
    fn take_run(
        &mut self,
        named: &NamedNet,
        number: u64,
        phase: &[u8],
        green: u32,
    ) -> Result<(), PlanFault>
        requires { IsReading named.now self.old }
        ensures told { Tells result (stepped named.now number (progress_of self.old) (OfRun phase.now green)) (progress_of self.new) }
        ensures reading { OnOk result (IsReading named.now self.new) }
    {
        if !self.is_open {
            return Err(PlanFault::Form(number));
        }
        let net = named.net();
        let signal = net.signal(self.words.len());
        let run = (phase_number(named, self.words.len(), phase), green);
        if let Err(fault) = judge_run(signal, self.runs.as_slice(), self.letters, run, net.steps) {
            return Err(PlanFault::Run(number, fault));
        }
        self.runs.push(run)?;
        self.letters += green + clearing_of(signal, run.0);
        Ok(())
    }

    /// Takes the line `end` of the number.
    pub(crate) fn take_end(
        &mut self,
        alloc: Global,
        named: &NamedNet,
        number: u64,
    ) -> Result<(), PlanFault>
        requires { IsReading named.now self.old }
        ensures { Tells result (ended named.now number (progress_of self.old)) (progress_of self.new) }
    {
        self.close_block(alloc, named, number)?;
        let count = self.words.len();
        if count < named.net().signals.len() {
            return Err(PlanFault::Missing(count as u32));
        }
        Ok(())
    }

    /// Closes the open block, where there is one, at the line of the number: its runs become a word.
    fn close_block(&mut self, alloc: Global, named: &NamedNet, number: u64) -> Result<(), PlanFault>
        requires { IsReading named.now self.old }
        ensures told { Tells result (closed named.now number (progress_of self.old)) (progress_of self.new) }
        ensures reading { OnOk result (IsReading named.now self.new) }
        ensures closed { OnOk result (self.new.is_open ≡ false) }
    {
        if !self.is_open {
            return Ok(());
        }
        let net = named.net();
        let signal = net.signal(self.words.len());
        let word = word_of(alloc, signal, self.runs.as_slice(), net.steps, number)?;
        self.words.push(word)?;
        self.is_open = false;
        self.runs.clear();
        self.letters = 0;
        Ok(())
    }

    /// The plan, where nothing stands behind the line `end`; the line behind it has the number.
    pub(crate) fn into_plan(self, number: u64, behind: &[u8]) -> Result<Plan, PlanFault>
        ensures { result ≡ after_end number (progress_of self) (lines_in behind.now) }
    {
        if !behind.is_empty() {
            return Err(PlanFault::Form(number));
        }
        let Reading { words, .. } = self;
        Ok(Plan { words })
    }
}

/// The word of a block's runs, or its fault at the line of the number.
fn word_of(
    alloc: Global,
    signal: &Signal,
    runs: &[(u8, u32)],
    steps: u32,
    number: u64,
) -> Result<Word, PlanFault>
    requires signal { IsSignal signal.now }
    requires steps { IsBetween 1 240 steps }
    ensures { TellsWord number result (expanded signal.now (map run_by runs.now) steps) }
{
    match expand(alloc, signal, runs, steps) {
        Ok(word) => Ok(word),
        Err(RunFault::Memory) => Err(PlanFault::Memory),
        Err(fault) => Err(PlanFault::Run(number, fault)),
    }
}

/// Whether the next signal has this name, where so many have their block.
fn is_next(named: &NamedNet, count: usize, name: &[u8]) -> bool
    ensures { result ≡ (nat_lt count (length named.now.net.signals) && bytes_eq name.now (signal_names_at named.now.names count).name) }
{
    count < named.net().signals.len() && named.names().signal(count as u32).as_bytes() == name
}

/// The number of the phase of this name of the signal of a number; a name that no phase has counts as one more.
fn phase_number(named: &NamedNet, signal: usize, name: &[u8]) -> u8
    requires { signal < length named.now.net.signals }
    ensures { result ≡ phase_number (signal_names_at named.now.names signal).phases name.now }
{
    match named.names().phase_named(signal as u32, name) {
        Some(phase) => phase as u8,
        None => named.net().signal(signal).phases.len() as u8,
    }
}

/// The clearing steps of a phase; none of one that the signal does not have.
fn clearing_of(signal: &Signal, phase: u8) -> u32
    requires { IsSignal signal.now }
    ensures value { result ≡ (phase_of signal.now phase).clear }
    ensures low { result ≤ 20 }
{
    match signal.phases.as_slice().get(phase as usize) {
        Some(phase) => phase.clear,
        None => 0,
    }
}
