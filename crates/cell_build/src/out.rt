//! Where links lead.

ghost use Rattle.std.specs.Prelude.{◌≡◌, map, IfOk};
ghost use Rattle.cell_build.specs.inner.Firsts.{AreFirsts};
ghost use Rattle.cell_build.specs.Link.{out_by, road_named};

use crate::by_name::Links;
use crate::cell_numbers::road_named;
use ct_base::{Listed, Memory, Out, Turns};
use network_file::{Name, RawLink};
use std::alloc::Global;

/// Where a link leads: into the first road cells of the links that it names, or out of the network.
pub(crate) fn out_of(
    alloc: Global,
    links: &Links<'_>,
    firsts: &[u32],
    link: &RawLink,
) -> Result<Out, Memory>
    requires { AreFirsts links.now firsts.now }
    ensures { IfOk result (λ out. out ≡ out_by links.now link.now.to link.now.turns) }
{
    match (&link.to, link.turns.as_slice()) {
        (Some(name), _) => Ok(Out::To(road_named(links, firsts, name.as_str()))),
        (None, []) => Ok(Out::Exit),
        (None, turns) => Ok(Out::Turns(branches_of(alloc, links, firsts, turns)?)),
    }
}

/// The branches of a diverge with the links that they name as cells.
fn branches_of(
    alloc: Global,
    links: &Links<'_>,
    firsts: &[u32],
    turns: &[(Name, u32)],
) -> Result<Turns, Memory>
    requires { AreFirsts links.now firsts.now }
    ensures { IfOk result (λ branches. branches
        ≡ map (λ turn. (road_named links.now turn.0, turn.1)) turns.now) }
{
    let mut branches = Listed::new(alloc);
    for (name, parcel) in turns {
        branches.push((road_named(links, firsts, name.as_str()), *parcel))?;
    }
    Ok(branches)
}
