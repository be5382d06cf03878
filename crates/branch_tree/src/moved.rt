//! Boxes that are moved from node to node.

ghost use Rattle.std.specs.Prelude.{◌≡◌, ℤ, ◌<◌, ◌≤ℤ◌, List, length, slice_set};
ghost use Rattle.sparse_program.specs.Box.{IsBox, Ranges, high_of, low_of};
ghost use Rattle.sparse_program.specs.Program.{Parts};
ghost use Rattle.sparse_program.specs.Terms.{IsSmall};

use kept_value::KeptValue;
use safe_bound::CostedBox;
use sparse_program::{Bounds, Program};

/// A box whose bounds are narrowed and set back, with what is kept of it for a program.
pub trait Moved {
    /// The box.
    ghost ranges: { Self → Ranges };

    /// It is one of the program's columns, and what is kept of it is right.
    ghost IsOf: { Parts → Self → Type 0 };

    /// The prices that it is kept under, if any: no move changes them.
    ghost prices: { Self → List ℤ };

    /// Does nothing. A caller that calls it knows what every box keeps.
    fn is_box(&self)
        ensures { IsBox (ranges self.now) };

    /// The least value of a column.
    fn low_at(&self, j: u32) -> i64
        requires { j < length (ranges self.now).lows }
        ensures { result ≡ low_of (ranges self.now) j };

    /// The greatest value of a column.
    fn high_at(&self, j: u32) -> i64
        requires { j < length (ranges self.now).lows }
        ensures { result ≡ high_of (ranges self.now) j };

    /// Raises the least value of a column within its bounds.
    fn raise_low(&mut self, program: &Program, j: u32, low: i64)
        requires of { IsOf program.now self.old }
        requires there { j < length (ranges self.old).lows }
        requires rises { low_of (ranges self.old) j ≤ℤ low }
        requires within { low ≤ℤ high_of (ranges self.old) j }
        ensures ranges { ranges self.new ≡ record (ranges self.old) { lows = slice_set (ranges self.old).lows j low } }
        ensures of { IsOf program.now self.new }
        ensures prices { prices self.new ≡ prices self.old };

    /// Lowers the greatest value of a column within its bounds.
    fn lower_high(&mut self, program: &Program, j: u32, high: i64)
        requires of { IsOf program.now self.old }
        requires there { j < length (ranges self.old).lows }
        requires falls { high ≤ℤ high_of (ranges self.old) j }
        requires within { low_of (ranges self.old) j ≤ℤ high }
        ensures ranges { ranges self.new ≡ record (ranges self.old) { highs = slice_set (ranges self.old).highs j high } }
        ensures of { IsOf program.now self.new }
        ensures prices { prices self.new ≡ prices self.old };

    /// Sets the least value of a column back.
    fn set_low_back(&mut self, program: &Program, j: u32, low: i64)
        requires of { IsOf program.now self.old }
        requires there { j < length (ranges self.old).lows }
        requires within { low ≤ℤ high_of (ranges self.old) j }
        requires small { IsSmall low }
        ensures ranges { ranges self.new ≡ record (ranges self.old) { lows = slice_set (ranges self.old).lows j low } }
        ensures of { IsOf program.now self.new }
        ensures prices { prices self.new ≡ prices self.old };

    /// Sets the greatest value of a column back.
    fn set_high_back(&mut self, program: &Program, j: u32, high: i64)
        requires of { IsOf program.now self.old }
        requires there { j < length (ranges self.old).lows }
        requires within { low_of (ranges self.old) j ≤ℤ high }
        requires small { IsSmall high }
        ensures ranges { ranges self.new ≡ record (ranges self.old) { highs = slice_set (ranges self.old).highs j high } }
        ensures of { IsOf program.now self.new }
        ensures prices { prices self.new ≡ prices self.old };
}

impl Moved for Bounds {
    ghost use Rattle.std.specs.Prelude.{[]};

    ghost ranges = { λ bounds. bounds };

    ghost IsOf = { λ program bounds. Unit {0} };

    ghost prices = { λ bounds. [] };

    fn is_box(&self) {
        Bounds::is_box(self)
    }

    fn low_at(&self, j: u32) -> i64 {
        self.low(j)
    }

    fn high_at(&self, j: u32) -> i64 {
        self.high(j)
    }

    fn raise_low(&mut self, _program: &Program, j: u32, low: i64) {
        let _ = self.narrow_low(j, low);
    }

    fn lower_high(&mut self, _program: &Program, j: u32, high: i64) {
        let _ = self.narrow_high(j, high);
    }

    fn set_low_back(&mut self, _program: &Program, j: u32, low: i64) {
        self.undo_low(j, low);
    }

    fn set_high_back(&mut self, _program: &Program, j: u32, high: i64) {
        self.undo_high(j, high);
    }
}

impl Moved for CostedBox {
    ghost use Rattle.std.specs.Prelude.{[]};
    ghost use Rattle.safe_bound.specs.Costed.{IsCostedOf};

    ghost ranges = { λ moved. moved.box };

    ghost IsOf = { λ program moved. IsCostedOf program moved };

    ghost prices = { λ moved. [] };

    fn is_box(&self) {
        CostedBox::is_box(self)
    }

    fn low_at(&self, j: u32) -> i64 {
        self.low(j)
    }

    fn high_at(&self, j: u32) -> i64 {
        self.high(j)
    }

    fn raise_low(&mut self, program: &Program, j: u32, low: i64) {
        let _ = self.narrow_low(program, j, low);
    }

    fn lower_high(&mut self, program: &Program, j: u32, high: i64) {
        let _ = self.narrow_high(program, j, high);
    }

    fn set_low_back(&mut self, program: &Program, j: u32, low: i64) {
        self.undo_low(program, j, low);
    }

    fn set_high_back(&mut self, program: &Program, j: u32, high: i64) {
        self.undo_high(program, j, high);
    }
}

impl Moved for KeptValue {
    ghost use Rattle.kept_value.specs.Kept.{IsKeptOf};

    ghost ranges = { λ moved. moved.box };

    ghost IsOf = { λ program moved. IsKeptOf program moved };

    ghost prices = { λ moved. moved.prices };

    fn is_box(&self) {
        self.bounds().is_box()
    }

    fn low_at(&self, j: u32) -> i64 {
        self.bounds().low(j)
    }

    fn high_at(&self, j: u32) -> i64 {
        self.bounds().high(j)
    }

    fn raise_low(&mut self, program: &Program, j: u32, low: i64) {
        let _ = self.narrow_low(program, j, low);
    }

    fn lower_high(&mut self, program: &Program, j: u32, high: i64) {
        let _ = self.narrow_high(program, j, high);
    }

    fn set_low_back(&mut self, program: &Program, j: u32, low: i64) {
        self.undo_low(program, j, low);
    }

    fn set_high_back(&mut self, program: &Program, j: u32, high: i64) {
        self.undo_high(program, j, high);
    }
}
