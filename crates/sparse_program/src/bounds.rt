//! The bounds that a search narrows and sets back: a box.

ghost use Rattle.std.specs.Prelude.{◌≡◌, ◌<◌, ◌≤◌, ◌≤ℤ◌, IfOk, length, map, slice_set};
ghost use Rattle.sparse_program.specs.declared.column.Col.{Col};
ghost use Rattle.sparse_program.specs.declared.limits.TheConstants.{MAX_COLUMNS};

use crate::column::Col;
use crate::program::Program;
use listed::Memory;
use std::alloc::Global;
use std::marker::Model;

/// A low and a high for each column of a program. Narrowing answers the old bound, with which a caller sets it back.
#[derive(Debug, Drop)]
pub struct Bounds {
    lows: Vec<i64>,
    highs: Vec<i64>,
}

impl Model for Bounds {
    ghost use Rattle.sparse_program.specs.Box.{Ranges, IsBox};

    ghost Value = { Ranges };

    ghost view = { λ bounds. record { lows = bounds.lows.items; highs = bounds.highs.items } };

    ghost invariant = { λ bounds. IsBox (record { lows = bounds.lows.items; highs = bounds.highs.items }) };
}

impl Bounds {
    ghost use Rattle.sparse_program.specs.Terms.{IsSmall};
    ghost use Rattle.sparse_program.specs.Box.{IsBox, low_of, high_of, ranges_of};

    /// The bounds of a program's columns.
    pub fn new(alloc: Global, program: &Program) -> Result<Self, Memory>
        ensures { IfOk result (λ bounds. bounds ≡ ranges_of program.now.columns) }
    {
        program.is_program();
        let lows = lows_of(alloc, program.columns())?;
        let highs = highs_of(alloc, program.columns())?;
        Ok(Bounds { lows, highs })
    }

    /// Does nothing. A caller that calls it knows what every box keeps.
    pub fn is_box(&self)
        ensures { IsBox self.now }
    {
        let _ = &self.lows;
    }

    /// The number of columns.
    pub fn cols(&self) -> u32
        ensures value { result ≡ length self.now.lows }
        ensures few { result ≤ MAX_COLUMNS }
    {
        self.lows.len() as u32
    }

    /// The least value of a column.
    pub fn low(&self, j: u32) -> i64
        requires { j < length self.now.lows }
        ensures value { result ≡ low_of self.now j }
        ensures below { result ≤ℤ high_of self.now j }
        ensures small { IsSmall result }
    {
        self.lows[j as usize]
    }

    /// The greatest value of a column.
    pub fn high(&self, j: u32) -> i64
        requires { j < length self.now.lows }
        ensures value { result ≡ high_of self.now j }
        ensures above { low_of self.now j ≤ℤ result }
        ensures small { IsSmall result }
    {
        self.highs[j as usize]
    }

    /// Raises the least value of a column within its bounds, and answers the old one.
    pub fn narrow_low(&mut self, j: u32, low: i64) -> i64
        requires there { j < length self.old.lows }
        requires rises { low_of self.old j ≤ℤ low }
        requires within { low ≤ℤ high_of self.old j }
        ensures old { result ≡ low_of self.old j }
        ensures new { self.new ≡ record self.old { lows = slice_set self.old.lows j low } }
    {
        let old = self.lows[j as usize];
        self.lows[j as usize] = low;
        old
    }

    /// Lowers the greatest value of a column within its bounds, and answers the old one.
    pub fn narrow_high(&mut self, j: u32, high: i64) -> i64
        requires there { j < length self.old.lows }
        requires falls { high ≤ℤ high_of self.old j }
        requires within { low_of self.old j ≤ℤ high }
        ensures old { result ≡ high_of self.old j }
        ensures new { self.new ≡ record self.old { highs = slice_set self.old.highs j high } }
    {
        let old = self.highs[j as usize];
        self.highs[j as usize] = high;
        old
    }

    /// Sets the least value of a column back.
    pub fn undo_low(&mut self, j: u32, low: i64)
        requires there { j < length self.old.lows }
        requires within { low ≤ℤ high_of self.old j }
        requires small { IsSmall low }
        ensures { self.new ≡ record self.old { lows = slice_set self.old.lows j low } }
    {
        self.lows[j as usize] = low;
    }

    /// Sets the greatest value of a column back.
    pub fn undo_high(&mut self, j: u32, high: i64)
        requires there { j < length self.old.lows }
        requires within { low_of self.old j ≤ℤ high }
        requires small { IsSmall high }
        ensures { self.new ≡ record self.old { highs = slice_set self.old.highs j high } }
    {
        self.highs[j as usize] = high;
    }
}

/// The least value of each column.
fn lows_of(alloc: Global, columns: &[Col]) -> Result<Vec<i64>, Memory>
    ensures { IfOk result (λ lows. lows.items ≡ map (λ (col : Col). col.low) columns.now) }
{
    let lows = columns.iter().map(|col| col.low).collect(alloc)?;
    Ok(lows)
}

/// The greatest value of each column.
fn highs_of(alloc: Global, columns: &[Col]) -> Result<Vec<i64>, Memory>
    ensures { IfOk result (λ highs. highs.items ≡ map (λ (col : Col). col.high) columns.now) }
{
    let highs = columns.iter().map(|col| col.high).collect(alloc)?;
    Ok(highs)
}
