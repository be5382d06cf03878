//! The lines of a certificate, checked one after another.

ghost use Rattle.std.specs.Prelude.{◌≡◌, ◌+◌, ◌<◌, ◌^◌, ℤ, ℕ, [], ◌∷◌, false, if◌then◌else◌, None, Some, Err, OnOk, IfOk, length};
ghost use Rattle.std.specs.Str.{bytes_eq};
ghost use Rattle.ct_base.specs.Validity.{IsValid};
ghost use Rattle.program_model.specs.Points.{program_of, rows};
ghost use Rattle.sparse_program.specs.declared.limits.TheConstants.{MAX_ROWS};
ghost use Rattle.lo_program.specs.Compiled.{size_faults};
ghost use Rattle.lo_program.specs.declared.fault.CompileFault.TheVariants.{TooLarge};
ghost use Rattle.texts.specs.Lines.{behind_lines, lines_of};
ghost use Rattle.certificate_model.specs.Text.{IsSpelled, bound_in, end_line, head_line, node_in};
ghost use Rattle.certificate_model.specs.Verdicts.{After, AfterNode, AtHead, AtNodes, Reaches, verdict_at};
ghost use Rattle.certificate_model.specs.declared.verdict.Why.TheVariants.{Form};
ghost use Rattle.cert_check.specs.declared.state.State.TheVariants as state;
ghost use Rattle.cert_check.specs.inner.Known.{node_with};
ghost use Rattle.cert_check.specs.inner.Standings.{IsCheckerOf, IsWalkAt, IsWalkOf, is_broken, standing_at, standing_of};
ghost use Rattle.cert_check.specs.inner.Waiting.{waiting};
ghost use Rattle.cert_check.specs.inner.Walks.{boxes_of};

use crate::judging::judge;
use crate::line_feed::take_line;
use crate::state::State;
use crate::walk::Walk;
use cert_format::{Mark, is_end, is_head, read_bound, read_node};
use certificate_model::{Verdict, Why};
use ct_base::{Memory, Net};
use lo_program::{CompileFault, compile};
use sparse_program::Program;
use std::alloc::Global;

/// What the lines so far have shown of a certificate of one network.
#[derive(Debug, Drop)]
pub(crate) struct LineChecker {
    program: Program,
    walk: Walk,
    /// The pairs of the leaf at hand: one vector, which is used again for each.
    pairs: Vec<(u32, i64)>,
    /// The number of the line that comes next, from 1.
    line: u64,
    state: State,
}

impl LineChecker {
    /// The checker before the first line.
    pub fn start(alloc: Global, net: &Net) -> Result<LineChecker, CompileFault>
        requires { IsValid net.now }
        ensures fits { IfOk result (λ _. size_faults net.now ≡ []) }
        ensures refused { (count : ℕ) → result ≡ Err (TooLarge count) → size_faults net.now ≡ TooLarge count ∷ [] }
        ensures large { MAX_ROWS < length (rows net.now) → result ≡ Err (TooLarge (length (rows net.now))) }
        ensures of { IfOk result (IsCheckerOf net.now) }
        ensures standing { IfOk result (λ checker. standing_of checker ≡ AtHead) }
        ensures line { IfOk result (λ checker. checker.line ≡ 1) }
    {
        let program = compile(alloc, net)?;
        let walk = Walk::start(alloc, &program)?;
        Ok(LineChecker {
            program,
            walk,
            pairs: Vec::new(alloc),
            line: 1,
            state: State::Head,
        })
    }

    /// How many pairs of a leaf are looked at. Those that are lawful are no more than rows: with one more the first that is not lawful
    /// is among them.
    pub fn most_pairs(&self) -> usize
        ensures { result ≡ length self.now.program.rows + 1 }
    {
        self.program.rows() as usize + 1
    }

    /// Takes the next line. Where memory is wanting, nothing is known of the checker.
    pub fn line(&mut self, net: &Net, line: &[u8]) -> Result<(), Memory>
        requires valid { IsValid net.now }
        requires of { IsCheckerOf net.now self.old }
        requires few { self.old.line + 1 < 2 ^ 64 }
        ensures of { OnOk result (IsCheckerOf net.now self.new) }
        ensures after { OnOk result (After net.now self.old.line (standing_of self.old) line.now (standing_of self.new)) }
        ensures next { OnOk result (self.new.line ≡ self.old.line + 1) }
    {
        match self.state {
            State::Head => self.go_on(after_head(self.line, line)),
            State::Bound => self.go_on(after_bound(self.line, line)),
            State::Nodes { bound } => {
                let state = self.after_node(net, bound, line)?;
                self.go_on(state);
            }
            State::Complete { bound } => self.go_on(after_tree(self.line, bound, line)),
            State::End { .. } => self.go_on(State::Broken {
                line: self.line,
                why: Why::Tail,
            }),
            State::Broken { .. } => self.go_on(self.state),
        }
        Ok(())
    }

    /// Takes the lines of a text up to the first that breaks, and answers what stands behind the last of them. Behind a line that broke
    /// nothing is read, and the answer is empty.
    pub fn lines<'a>(&mut self, net: &Net, text: &'a [u8]) -> Result<&'a [u8], Memory>
        requires valid { IsValid net.now }
        requires of { IsCheckerOf net.now self.old }
        requires few { self.old.line + length text.now < 2 ^ 64 }
        ensures of { OnOk result (IsCheckerOf net.now self.new) }
        ensures reached { OnOk result (Reaches net.now self.old.line (standing_of self.old) (lines_of text.now) (standing_of self.new)) }
        ensures line { OnOk result (is_broken self.new.state ≡ false → self.new.line ≡ self.old.line + length (lines_of text.now)) }
        ensures behind { IfOk result (λ behind. is_broken self.new.state ≡ false → behind.now ≡ behind_lines text.now) }
    {
        let mut rest = text;
        'lines: while !self.is_broken() {
            let Some((line, behind)) = take_line(rest) else {
                return Ok(rest);
            };
            self.line(net, line)?;
            rest = behind;
        }
        Ok(&[])
    }

    /// Whether a line broke, so that nothing counts any more.
    pub fn is_broken(&self) -> bool
        ensures { result ≡ is_broken self.now.state }
    {
        matches!(self.state, State::Broken { .. })
    }

    /// The verdict where the text ends: these bytes are there of the next line, but not its line feed.
    pub fn finish(&self, behind: &[u8]) -> Verdict
        ensures { result ≡ verdict_at (standing_of self.now) self.now.line behind.now }
    {
        match self.state {
            State::Broken { line, why } => Verdict::Rejected { line, why },
            State::End { bound } if behind.is_empty() => Verdict::Accepted(bound),
            State::End { .. } => Verdict::Rejected {
                line: self.line,
                why: Why::Tail,
            },
            _ => Verdict::Rejected {
                line: self.line,
                why: Why::Form,
            },
        }
    }

    /// Goes on to the next line in a state.
    fn go_on(&mut self, state: State)
        requires { self.old.line + 1 < 2 ^ 64 }
        ensures { self.new ≡ record self.old { line = self.old.line + 1; state = state } }
    {
        self.state = state;
        self.line += 1;
    }

    /// The state after a line where a node has to be.
    fn after_node(&mut self, net: &Net, bound: i64, line: &[u8]) -> Result<State, Memory>
        requires valid { IsValid net.now }
        requires program { self.old.program ≡ program_of net.now }
        requires walk { IsWalkOf net.now self.old.walk }
        ensures after { IfOk result (λ state. After net.now self.old.line (AtNodes bound (boxes_of self.old.walk)) line.now (standing_at state (boxes_of self.new.walk))) }
        ensures walk { IfOk result (λ state. IsWalkAt net.now state self.new.walk) }
        ensures program { self.new.program ≡ self.old.program }
        ensures line { self.new.line ≡ self.old.line }
    {
        let most = self.most_pairs();
        match read_node(line, most, &mut self.pairs)? {
            Some(mark) => self.after_mark(net, bound, mark),
            None => Ok(State::Broken {
                line: self.line,
                why: Why::Form,
            }),
        }
    }

    /// The state after the line of a node, of which the pairs are read.
    fn after_mark(&mut self, net: &Net, bound: i64, mark: Mark) -> Result<State, Memory>
        requires valid { IsValid net.now }
        requires program { self.old.program ≡ program_of net.now }
        requires walk { IsWalkOf net.now self.old.walk }
        requires spelled { IsSpelled (node_with mark self.old.pairs.items) }
        ensures after { IfOk result (λ state. AfterNode net.now bound self.old.walk.costed.box (waiting self.old.walk.costed.box self.old.walk.frames) self.old.line
            (Some (node_with mark self.old.pairs.items)) (standing_at state (boxes_of self.new.walk))) }
        ensures walk { IfOk result (λ state. IsWalkAt net.now state self.new.walk) }
        ensures program { self.new.program ≡ self.old.program }
        ensures line { self.new.line ≡ self.old.line }
    {
        let alloc = *self.pairs.allocator();
        let costed = &mut self.walk.costed;
        let known = &mut self.walk.known;
        let pairs = self.pairs.as_slice();
        let found = judge(alloc, net, &self.program, costed, known, bound, mark, pairs)?;
        match found {
            Some(why) => Ok(State::Broken {
                line: self.line,
                why,
            }),
            None => {
                if self.walk.pass(&self.program, mark)? {
                    Ok(State::Nodes { bound })
                } else {
                    Ok(State::Complete { bound })
                }
            }
        }
    }
}

/// The state after a line where the first one has to be.
fn after_head(number: u64, line: &[u8]) -> State
    ensures { result ≡ (if bytes_eq line.now head_line then state.Bound else state.Broken number Form) }
{
    if is_head(line) {
        State::Bound
    } else {
        State::Broken {
            line: number,
            why: Why::Form,
        }
    }
}

/// The state after a line where the bound has to be.
fn after_bound(number: u64, line: &[u8]) -> State
    ensures none { bound_in line.now ≡ None → result ≡ state.Broken number Form }
    ensures some { (bound : ℤ) → bound_in line.now ≡ Some bound → result ≡ state.Nodes bound }
{
    match read_bound(line) {
        Some(bound) => State::Nodes { bound },
        None => State::Broken {
            line: number,
            why: Why::Form,
        },
    }
}

/// The state after a line where the last one has to be.
fn after_tree(number: u64, bound: i64, line: &[u8]) -> State
    ensures { result ≡ (if bytes_eq line.now end_line then state.End bound else state.Broken number Form) }
{
    if is_end(line) {
        State::End { bound }
    } else {
        State::Broken {
            line: number,
            why: Why::Form,
        }
    }
}
