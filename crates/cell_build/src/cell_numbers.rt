//! How many cells links become, and the numbers of their first road cells.

ghost use Rattle.std.specs.Prelude.{◌≡◌, ◌<◌, ◌≤◌, length, All, IfOk};
ghost use Rattle.cell_build.specs.inner.Firsts.{AreFirsts};
ghost use Rattle.cell_build.specs.Link.{cell_count, cells_below, queue_count, road_named};
ghost use Rattle.network_file.specs.Range.{IsLinkInRange};

use crate::by_name::Links;
use ct_base::Memory;
use network_file::{Piece, RawLink};
use std::alloc::Global;

/// How many queues a link with these pieces of demand begins with: one, or none where there is no piece.
pub(crate) fn queue_count(pieces: &[Piece]) -> u32
    ensures { result ≡ queue_count pieces.now }
{
    match pieces {
        [] => 0,
        _ => 1,
    }
}

/// How many cells the link becomes: its queue, where it has demand, and its road cells.
fn cell_count(link: &RawLink) -> u32
    requires in_range { IsLinkInRange link.now }
    ensures value { result ≡ cell_count link.now }
    ensures bound { result ≤ 257 }
{
    queue_count(link.pieces.as_slice()) + link.cells
}

/// How many cells the links become.
#[tactic(auto, using(crate::proofs::PlaceLaws::cell_steps))]
pub(crate) fn count_of_cells(links: &[RawLink]) -> u32
    requires few { length links.now ≤ 64 }
    requires in_range { All IsLinkInRange links.now }
    ensures { result ≡ cells_below links.now (length links.now) }
{
    let mut count = 0;
    for link in links {
        count += cell_count(link);
    }
    count
}

/// The number of the first road cell of each link.
#[tactic(auto, using(crate::proofs::PlaceLaws::road_steps))]
pub(crate) fn first_roads(alloc: Global, links: &[RawLink]) -> Result<Vec<u32>, Memory>
    requires some { 0 < length links.now }
    requires few { cells_below links.now (length links.now) ≤ 256 }
    ensures { IfOk result (λ firsts. AreFirsts links.now firsts.items) }
{
    let mut firsts = Vec::with_capacity(alloc, links.len())?;
    let mut count = 0;
    for link in links {
        let road = count + queue_count(link.pieces.as_slice());
        firsts.push(road)?;
        count = road + link.cells;
    }
    Ok(firsts)
}

/// The number of the first road cell of the link with a name.
#[tactic(auto, using(crate::proofs::PlaceLaws::found_first))]
pub(crate) fn road_named(links: &Links<'_>, firsts: &[u32], name: &str) -> u32
    requires { AreFirsts links.now firsts.now }
    ensures { result ≡ road_named links.now name.now }
{
    let place = links.place_of(name).unwrap_or(0);
    firsts[place]
}
