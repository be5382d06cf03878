//! The rules `initial` and `cells`: the units at step 0 fit their cells, and there are not too many cells.

ghost use Rattle.std.specs.Prelude.{◌≡◌, ◌≤◌, nat_lt, length, All, Some};
ghost use Rattle.std.specs.List.{list_any};
ghost use Rattle.cell_build.specs.Refusals.{initial_in, initial_units, initial_units_at, many_cells};
ghost use Rattle.refusals.specs.Faults.{unless};
ghost use Rattle.network_file.specs.Range.{IsLinkInRange};

use crate::cell_numbers::count_of_cells;
use crate::fault::BuildFault;
use crate::judge::refusal::refuse_where;
use limits::MAX_CELLS;
use network_file::RawLink;

/// The initial units of each link are one number for each cell, none above the storage.
#[tactic(auto, unfolding(crate::specs::Refusals::initial_units))]
pub(super) fn initial_units(links: &[RawLink]) -> Result<(), BuildFault>
    requires few { length links.now ≤ 64 }
    ensures { result ≡ unless (initial_units links.now) tt }
{
    for (k, link) in links.iter().enumerate() {
        initial_units_at(k as u32, link)?;
    }
    Ok(())
}

/// The initial units of the link are one number for each cell, none above the storage.
fn initial_units_at(k: u32, link: &RawLink) -> Result<(), BuildFault>
    ensures { result ≡ unless (initial_units_at k link.now) tt }
{
    match &link.initial {
        Some(units) => units_fit(k, link, units.as_slice()),
        None => Ok(()),
    }
}

/// The units are one number for each cell of the link, none above its storage.
fn units_fit(k: u32, link: &RawLink, units: &[u32]) -> Result<(), BuildFault>
    ensures { result ≡ unless (initial_in k link.now (Some units.now)) tt }
{
    refuse_where(
        units.len() != link.cells as usize || is_any_above(units, link.store),
        BuildFault::Initial { link: k },
    )
}

/// Whether one of the numbers is above the greatest that may be.
fn is_any_above(units: &[u32], most: u32) -> bool
    ensures { result ≡ list_any (nat_lt most) units.now }
{
    units.iter().any(|held| most < *held)
}

/// There are at most 256 cells.
#[tactic(auto, unfolding(crate::specs::Refusals::many_cells))]
pub(super) fn many_cells(links: &[RawLink]) -> Result<(), BuildFault>
    requires few { length links.now ≤ 64 }
    requires in_range { All IsLinkInRange links.now }
    ensures { result ≡ unless (many_cells links.now) tt }
{
    let count = count_of_cells(links);
    refuse_where(MAX_CELLS < count, BuildFault::Cells { count })
}
