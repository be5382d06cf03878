//! The sum of pieces in each step.

ghost use Rattle.std.specs.Prelude.{◌≡◌, ◌+◌, ◌<◌, ◌≤◌, if◌then◌else◌, length, replicate, slice_index, All, EachIndex, IfOk};
ghost use Rattle.demand.specs.Spread.{holds, rates_of, spread};
ghost use Rattle.demand.specs.inner.Within.{IsLight, IsWithin};
ghost use Rattle.refusals.specs.Memory.{OrMemory};

use crate::fault::DemandFault;
use crate::judge::{heavy, range};
use crate::piece::Piece;
use ct_base::{Listed, Units};
use std::alloc::{AllocError, Global};

/// What arrives at the end of each step, the rates of all pieces that hold it added up, or the first fault.
/// The work is that of all steps of all pieces, and of the horizon's steps.
#[tactic(auto, using(crate::proofs::DemandLaws::spreading), unfolding(crate::specs::Spread::spread, crate::specs::Spread::faults_of))]
pub fn spread(alloc: Global, pieces: &[Piece], steps: u32) -> Result<Units, DemandFault>
    requires few { length pieces.now ≤ 480 }
    requires rates { All (λ piece. piece.rate ≤ 1000) pieces.now }
    requires steps { steps ≤ 240 }
    ensures { OrMemory DemandFault.Memory (spread pieces.now steps) result }
{
    range(pieces, steps)?;
    let rates = sum_of(alloc, pieces, steps as usize)?;
    heavy(rates.as_slice())?;
    Ok(Listed::of(rates))
}

/// The sum of the pieces, which all end within the horizon.
fn sum_of(alloc: Global, pieces: &[Piece], steps: usize) -> Result<Vec<u32>, AllocError>
    requires few { length pieces.now ≤ 480 }
    requires rates { All IsLight pieces.now }
    requires within { All (IsWithin steps) pieces.now }
    ensures { IfOk result (λ rates. rates.items ≡ rates_of pieces.now steps) }
{
    let mut rates = vec![in alloc; 0; steps]?;
    add_pieces(pieces, rates.as_mut_slice());
    Ok(rates)
}

/// Adds each piece's rate to the steps that it holds, of which none had units before.
fn add_pieces(pieces: &[Piece], rates: &mut [u32])
    requires few { length pieces.now ≤ 480 }
    requires rates { All IsLight pieces.now }
    requires within { All (IsWithin (length rates.old)) pieces.now }
    requires empty { rates.old ≡ replicate (length rates.old) 0 }
    ensures { rates.new ≡ rates_of pieces.now (length rates.old) }
{
    for piece in pieces {
        add_piece(piece, rates);
    }
}

/// Adds the piece's rate to the steps that it holds.
fn add_piece(piece: &Piece, rates: &mut [u32])
    requires rate { piece.now.rate ≤ 1000 }
    requires some { piece.now.first < piece.now.until }
    requires within { piece.now.until ≤ length rates.old }
    requires small { EachIndex rates.old (λ t. slice_index rates.old t ≤ 480000) }
    ensures { EachIndex rates.old (λ t. slice_index rates.new t ≡ slice_index rates.old t + (if holds piece.now t then piece.now.rate else 0)) }
{
    for step in piece.first..piece.until {
        rates[step as usize] += piece.rate;
    }
}
