//! The checker of a text that comes in pieces.

ghost use Rattle.std.specs.Prelude.{◌≡◌, ◌+◌, ◌<◌, ◌≤◌, ◌≤ℤ◌, ◌^◌, ◌++◌, [], ◌∷◌, ℕ, ℤ, List, false, Err, IfOk, OnOk, OnErr, IsErr, length};
ghost use Rattle.ct_base.specs.Validity.{IsValid};
ghost use Rattle.ct_base.specs.declared.net.Net.{Net};
ghost use Rattle.ct_base.specs.declared.plan.Plan.{Plan};
ghost use Rattle.texts.specs.Lines.{Lacks};
ghost use Rattle.traffic_model.specs.Runs.{IsAdmissiblePlan};
ghost use Rattle.program_model.specs.Points.{rows};
ghost use Rattle.sparse_program.specs.declared.limits.TheConstants.{MAX_ROWS};
ghost use Rattle.lo_program.specs.Compiled.{size_faults};
ghost use Rattle.lo_program.specs.declared.fault.CompileFault.TheVariants.{TooLarge};
ghost use Rattle.certificate_model.specs.Leaves.{plan_delay};
ghost use Rattle.certificate_model.specs.Verdicts.{IsVerdict};
ghost use Rattle.certificate_model.specs.declared.constants.TheConstants.{MAX_CERTIFICATE_BYTES};
ghost use Rattle.certificate_model.specs.declared.verdict.Verdict.TheVariants.{Accepted};
ghost use Rattle.cert_check.specs.Fed.{HasFailed, IsFed, StandsFor, taken_of};
ghost use Rattle.cert_check.specs.inner.Standings.{IsCheckerOf, is_broken};
ghost use Rattle.cert_check.specs.inner.Walked.{HasWalked};

use crate::line_checker::LineChecker;
use crate::line_feed::take_line;
use cert_format::Unfinished;
use certificate_model::Verdict;
use certificate_model::laws::accepted_bounds_are_safe;
use ct_base::{Memory, Net};
use lo_program::CompileFault;
use std::alloc::Global;

/// A checker of certificates of one network, which takes a text in pieces. Whatever the cut, the verdict is that of the whole text.
#[derive(Debug, Drop)]
pub struct Checker {
    lines: LineChecker,
    /// What is kept of the line whose line feed has not come yet.
    unfinished: Unfinished,
    /// How many bytes were taken.
    taken: u64,
    /// Whether memory was wanting for a piece.
    failed: bool,
}

impl Checker {
    /// The checker before the first piece. A network whose program has too many rows is refused with their number before any memory
    /// is taken.
    pub fn start(alloc: Global, net: &Net) -> Result<Checker, CompileFault>
        requires { IsValid net.now }
        ensures fits { IfOk result (λ _. size_faults net.now ≡ []) }
        ensures refused { (count : ℕ) → result ≡ Err (TooLarge count) → size_faults net.now ≡ TooLarge count ∷ [] }
        ensures large { MAX_ROWS < length (rows net.now) → result ≡ Err (TooLarge (length (rows net.now))) }
        ensures stands { IfOk result (λ checker. StandsFor net.now checker []) }
    {
        let lines = LineChecker::start(alloc, net)?;
        let most = lines.most_pairs();
        Ok(Checker {
            lines,
            unfinished: Unfinished::new(alloc, most),
            taken: 0,
            failed: false,
        })
    }

    /// Takes the next piece. Where memory is wanting, it is so for each further piece, and there is no verdict.
    pub fn feed(&mut self, net: &Net, piece: &[u8]) -> Result<(), Memory>
        requires valid { IsValid net.now }
        requires fed { IsFed net.now self.old }
        requires short { taken_of self.old + length piece.now ≤ MAX_CERTIFICATE_BYTES }
        ensures stands { (text : List ℕ) → StandsFor net.now self.old text → OnOk result (StandsFor net.now self.new (text ++ piece.now)) }
        ensures fed { IsFed net.now self.new }
        ensures again { HasFailed self.old → IsErr result }
        ensures failed { OnErr result (HasFailed self.new) }
        ensures same { OnErr result (taken_of self.new ≡ taken_of self.old) }
    {
        if self.failed {
            return Err(Memory);
        }
        match self.walk_piece(net, piece) {
            Ok(()) => {
                self.taken += piece.len() as u64;
                Ok(())
            }
            Err(Memory) => {
                self.failed = true;
                Err(Memory)
            }
        }
    }

    /// How many bytes were taken. A piece for which memory was wanting does not count.
    pub fn taken(&self) -> u64
        ensures { result ≡ taken_of self.now }
    {
        self.taken
    }

    /// The verdict that the text deserves which was taken. Where it is accepted, no admissible plan has a delay below the bound.
    pub fn finish(self) -> Verdict
        requires { HasFailed self → ⊥ }
        ensures value { (net : Net) (text : List ℕ) → StandsFor net self text → IsVerdict net text result }
        ensures safe { (net : Net) (text : List ℕ) (bound : ℤ) (plan : Plan) →
            IsValid net → StandsFor net self text → result ≡ Accepted bound → IsAdmissiblePlan net plan → bound ≤ℤ plan_delay net plan }
    {
        accepted_bounds_are_safe();
        self.lines.finish(self.unfinished.as_slice())
    }

    /// Walks the lines that end in a piece, and keeps what stands behind the last of them.
    fn walk_piece(&mut self, net: &Net, piece: &[u8]) -> Result<(), Memory>
        requires valid { IsValid net.now }
        requires of { IsCheckerOf net.now self.old.lines }
        requires few { is_broken self.old.lines.state ≡ false → self.old.lines.line + length piece.now < 2 ^ 64 }
        ensures walked { (text : List ℕ) → HasWalked net.now self.old.lines self.old.unfinished text →
            OnOk result (HasWalked net.now self.new.lines self.new.unfinished (text ++ piece.now)) }
        ensures rest { self.new ≡ record self.old { lines = self.new.lines; unfinished = self.new.unfinished } }
    {
        if self.lines.is_broken() {
            return Ok(());
        }
        if self.unfinished.is_empty() {
            return self.walk_lines(net, piece);
        }
        match take_line(piece) {
            Some((line, behind)) => {
                self.end_line(net, line)?;
                self.walk_lines(net, behind)
            }
            None => {
                self.unfinished.add(piece)?;
                Ok(())
            }
        }
    }

    /// Walks the line whose last bytes have come.
    fn end_line(&mut self, net: &Net, bytes: &[u8]) -> Result<(), Memory>
        requires valid { IsValid net.now }
        requires of { IsCheckerOf net.now self.old.lines }
        requires whole { is_broken self.old.lines.state ≡ false }
        requires few { self.old.lines.line + 1 < 2 ^ 64 }
        ensures walked { (text : List ℕ) → HasWalked net.now self.old.lines self.old.unfinished text → Lacks 10 bytes.now →
            OnOk result (HasWalked net.now self.new.lines self.new.unfinished (text ++ (bytes.now ++ 10 ∷ []))) }
        ensures of { OnOk result (IsCheckerOf net.now self.new.lines) }
        ensures none { OnOk result (self.new.unfinished.bytes ≡ []) }
        ensures next { OnOk result (self.new.lines.line ≡ self.old.lines.line + 1) }
        ensures rest { self.new ≡ record self.old { lines = self.new.lines; unfinished = self.new.unfinished } }
    {
        self.unfinished.add(bytes)?;
        self.lines.line(net, self.unfinished.as_slice())?;
        self.unfinished.clear();
        Ok(())
    }

    /// Walks the lines of some bytes, before which no line has begun, and keeps what stands behind the last of them.
    fn walk_lines(&mut self, net: &Net, bytes: &[u8]) -> Result<(), Memory>
        requires valid { IsValid net.now }
        requires of { IsCheckerOf net.now self.old.lines }
        requires none { self.old.unfinished.bytes ≡ [] }
        requires few { self.old.lines.line + length bytes.now < 2 ^ 64 }
        ensures walked { (text : List ℕ) → HasWalked net.now self.old.lines self.old.unfinished text →
            OnOk result (HasWalked net.now self.new.lines self.new.unfinished (text ++ bytes.now)) }
        ensures rest { self.new ≡ record self.old { lines = self.new.lines; unfinished = self.new.unfinished } }
    {
        let behind = self.lines.lines(net, bytes)?;
        self.unfinished.add(behind)?;
        Ok(())
    }
}
