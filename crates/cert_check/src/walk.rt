//! The walk over the nodes of a tree, with one box that is narrowed and set back: a split narrows it to its left side, and a leaf
//! sets it back to the nearest split whose right side waits, and narrows it to that.

ghost use Rattle.std.specs.Prelude.{◌≡◌, ◌<◌, [], ◌∷◌, if◌then◌else◌, nat_lt, true, None, Ok, OnOk, IfOk};
ghost use Rattle.certificate_model.specs.Tree.{IsSplit, left_of, right_of};
ghost use Rattle.sparse_program.specs.Box.{ranges_of};
ghost use Rattle.safe_bound.specs.Costed.{IsCostedOf};
ghost use Rattle.cert_check.specs.inner.Waiting.{AreFrames, IsLeft, IsRight, waiting, with_high, with_low};
ghost use Rattle.cert_check.specs.inner.Walks.{CanPass, IsWalk, StaysKnown, boxes_behind, boxes_of};

use crate::frame::Frame;
use crate::known::Known;
use cert_format::Mark;
use listed::{Memory, Stack};
use safe_bound::CostedBox;
use sparse_program::Program;
use std::alloc::Global;

/// Where the walk stands.
#[derive(Debug, Drop)]
pub(crate) struct Walk {
    /// The box of the node that comes next.
    pub costed: CostedBox,
    /// The splits above that node, the nearest one on top.
    frames: Stack<Frame>,
    /// What is known of the plans of fixed leaves.
    pub known: Known,
}

impl Walk {
    /// The walk at the top of a tree.
    pub fn start(alloc: Global, program: &Program) -> Result<Walk, Memory>
        ensures walk { IfOk result (IsWalk program.now) }
        ensures boxes { IfOk result (λ walk. boxes_of walk ≡ ranges_of program.now.columns ∷ []) }
        ensures known { IfOk result (λ walk. walk.known ≡ record { delay = None; last = None }) }
    {
        Ok(Walk {
            costed: CostedBox::new(alloc, program)?,
            frames: Stack::new(alloc),
            known: Known {
                delay: None,
                last: None,
            },
        })
    }

    /// Goes on behind a good node: down to the left side of a split, or to the nearest right side that waits behind a leaf. Answers
    /// whether a box is left.
    pub fn pass(&mut self, program: &Program, mark: Mark) -> Result<bool, Memory>
        requires walk { IsWalk program.now self.old }
        requires can { CanPass self.old.costed.box mark }
        ensures walk { result ≡ Ok true → IsWalk program.now self.new }
        ensures boxes { IfOk result (λ more. boxes_behind self.old mark ≡ (if more then boxes_of self.new else [])) }
        ensures known { IfOk result (λ _. StaysKnown program.now.plan_cols self.old self.new) }
    {
        match mark {
            Mark::Split { column, at } => {
                self.enter_split(program, column, at)?;
                Ok(true)
            }
            _ => self.leave_leaf(program),
        }
    }

    /// Goes down to the left side of a split. Its right side waits before all others.
    fn enter_split(&mut self, program: &Program, column: u32, at: i64) -> Result<(), Memory>
        requires walk { IsWalk program.now self.old }
        requires split { IsSplit self.old.costed.box column at }
        ensures walk { OnOk result (IsWalk program.now self.new) }
        ensures boxes { OnOk result (boxes_of self.new ≡ left_of self.old.costed.box column at ∷ right_of self.old.costed.box column at ∷ waiting self.old.costed.box self.old.frames) }
        ensures known { OnOk result (StaysKnown program.now.plan_cols self.old self.new) }
    {
        self.costed.is_box();
        let high = self.costed.narrow_high(program, column, at);
        self.forget(program, column);
        self.frames.push(Frame::Left { column, at, high })?;
        Ok(())
    }

    /// Goes on behind a leaf: to the nearest right side that waits. Answers whether there is one. Where there is none, the walk is at
    /// its end.
    fn leave_leaf(&mut self, program: &Program) -> Result<bool, Memory>
        requires walk { IsWalk program.now self.old }
        ensures walk { result ≡ Ok true → IsWalk program.now self.new }
        ensures boxes { IfOk result (λ more. waiting self.old.costed.box self.old.frames ≡ (if more then boxes_of self.new else [])) }
        ensures known { IfOk result (λ _. StaysKnown program.now.plan_cols self.old self.new) }
    {
        while let Some(frame) = self.frames.pop() {
            match frame {
                Frame::Left { column, at, high } => {
                    self.enter_right(program, column, at, high)?;
                    return Ok(true);
                }
                Frame::Right { column, low } => self.leave_right(program, column, low),
            }
        }
        Ok(false)
    }

    /// Goes from the left side of a split, whose frame is taken off, to its right side.
    fn enter_right(
        &mut self,
        program: &Program,
        column: u32,
        at: i64,
        high: i64,
    ) -> Result<(), Memory>
        requires of { IsCostedOf program.now self.old.costed }
        requires left { IsLeft self.old.costed.box column at high }
        requires frames { AreFrames (with_high self.old.costed.box column high) self.old.frames }
        ensures walk { OnOk result (IsWalk program.now self.new) }
        ensures boxes { OnOk result (boxes_of self.new ≡ right_of (with_high self.old.costed.box column high) column at ∷ waiting (with_high self.old.costed.box column high) self.old.frames) }
        ensures known { OnOk result (StaysKnown program.now.plan_cols self.old self.new) }
    {
        self.costed.undo_high(program, column, high);
        self.costed.is_box();
        let low = self.costed.narrow_low(program, column, at + 1);
        self.forget(program, column);
        self.frames.push(Frame::Right { column, low })?;
        Ok(())
    }

    /// Leaves the right side of a split, whose frame is taken off.
    fn leave_right(&mut self, program: &Program, column: u32, low: i64)
        requires of { IsCostedOf program.now self.old.costed }
        requires right { IsRight self.old.costed.box column low }
        ensures of { IsCostedOf program.now self.new.costed }
        ensures wider { self.new.costed.box ≡ with_low self.old.costed.box column low }
        ensures frames { self.new.frames ≡ self.old.frames }
        ensures known { StaysKnown program.now.plan_cols self.old self.new }
    {
        self.costed.undo_low(program, column, low);
        self.forget(program, column);
    }

    /// Forgets the delay of the plan that the box fixes where a bound of a plan column has changed.
    fn forget(&mut self, program: &Program, column: u32)
        ensures { self.new ≡ record self.old { known = record self.old.known { delay = if nat_lt column program.now.plan_cols then None else self.old.known.delay } } }
    {
        if column < program.plan_cols() {
            self.known.delay = None;
        }
    }
}
