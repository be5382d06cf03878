//! Pieces out of range, and steps of too many units.

ghost use Rattle.std.specs.Prelude.{◌≡◌, ◌≤◌, length};
ghost use Rattle.refusals.specs.Faults.{per_item, unless};
ghost use Rattle.demand.specs.Spread.{heavy_at, range_at};

use crate::fault::DemandFault;
use crate::piece::Piece;
use limits::MAX_DEMAND;

/// Each piece holds a step, and ends within the horizon.
pub(crate) fn range(pieces: &[Piece], steps: u32) -> Result<(), DemandFault>
    requires few { length pieces.now ≤ 480 }
    ensures { result ≡ unless (per_item pieces.now (range_at steps)) tt }
{
    for (j, piece) in pieces.iter().enumerate() {
        range_at(j as u32, piece, steps)?;
    }
    Ok(())
}

/// The piece holds a step, and ends within the horizon.
fn range_at(j: u32, piece: &Piece, steps: u32) -> Result<(), DemandFault>
    ensures { result ≡ unless (range_at steps j piece.now) tt }
{
    if piece.until <= piece.first || steps < piece.until {
        Err(DemandFault::Range { piece: j })
    } else {
        Ok(())
    }
}

/// In no step more than 1000 units arrive.
pub(crate) fn heavy(rates: &[u32]) -> Result<(), DemandFault>
    requires few { length rates.now ≤ 240 }
    ensures { result ≡ unless (per_item rates.now heavy_at) tt }
{
    for (t, units) in rates.iter().enumerate() {
        heavy_at(t as u32, *units)?;
    }
    Ok(())
}

/// Not more than 1000 units arrive in the step.
fn heavy_at(t: u32, units: u32) -> Result<(), DemandFault>
    ensures { result ≡ unless (heavy_at t units) tt }
{
    if MAX_DEMAND < units {
        Err(DemandFault::Heavy { step: t })
    } else {
        Ok(())
    }
}
