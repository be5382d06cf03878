//! The rules `unknownlink` and `unknownsignal`: the links that are led to are there, and the signals of links.

ghost use Rattle.std.specs.Prelude.{◌≡◌, ◌≤◌, length, All};
ghost use Rattle.cell_build.specs.Names.{link_names, signal_names};
ghost use Rattle.refusals.specs.Faults.{per_item, unless};
ghost use Rattle.cell_build.specs.Refusals.{unknown_link, unknown_link_at, unknown_signal, unknown_signal_at, unknown_to, unknown_turn_at};
ghost use Rattle.network_file.specs.Range.{IsLinkInRange};

use crate::by_name::{Links, Signals};
use crate::fault::BuildFault;
use crate::judge::refusal::refuse_where;
use network_file::{Name, RawLink};

/// Each link leads to links that are there.
#[tactic(auto, unfolding(crate::specs::Refusals::unknown_link))]
pub(super) fn unknown_link(links: &Links<'_>) -> Result<(), BuildFault>
    requires few { length links.now ≤ 64 }
    requires in_range { All IsLinkInRange links.now }
    ensures { result ≡ unless (unknown_link links.now) tt }
{
    unknown_link_in(links, links.as_slice())
}

/// Each of the links leads to links that are there.
fn unknown_link_in(all: &Links<'_>, links: &[RawLink]) -> Result<(), BuildFault>
    requires few { length links.now ≤ 64 }
    requires in_range { All IsLinkInRange links.now }
    ensures { result ≡ unless (per_item links.now (unknown_link_at (link_names all.now))) tt }
{
    for (k, link) in links.iter().enumerate() {
        unknown_link_at(all, k as u32, link)?;
    }
    Ok(())
}

/// The link leads to links that are there.
fn unknown_link_at(links: &Links<'_>, k: u32, link: &RawLink) -> Result<(), BuildFault>
    requires in_range { IsLinkInRange link.now }
    ensures { result ≡ unless (unknown_link_at (link_names links.now) k link.now) tt }
{
    unknown_to(links, k, &link.to)?;
    unknown_turns(links, k, link.turns.as_slice())
}

/// The link of `to` is there.
fn unknown_to(links: &Links<'_>, k: u32, to: &Option<Name>) -> Result<(), BuildFault>
    ensures { result ≡ unless (unknown_to (link_names links.now) k to.now) tt }
{
    match to {
        Some(name) => refuse_where(
            links.place_of(name.as_str()).is_none(),
            BuildFault::UnknownLink { link: k, place: 0 },
        ),
        None => Ok(()),
    }
}

/// The link of each branch is there.
fn unknown_turns(links: &Links<'_>, k: u32, turns: &[(Name, u32)]) -> Result<(), BuildFault>
    requires few { length turns.now ≤ 4 }
    ensures { result ≡ unless (per_item turns.now (unknown_turn_at (link_names links.now) k)) tt }
{
    for (j, turn) in turns.iter().enumerate() {
        unknown_turn_at(links, k, j as u32, turn)?;
    }
    Ok(())
}

/// The link of a branch is there.
fn unknown_turn_at(links: &Links<'_>, k: u32, j: u32, turn: &(Name, u32)) -> Result<(), BuildFault>
    requires few { j ≤ 4 }
    ensures { result ≡ unless (unknown_turn_at (link_names links.now) k j turn.now) tt }
{
    refuse_where(
        links.place_of(turn.0.as_str()).is_none(),
        BuildFault::UnknownLink {
            link: k,
            place: j + 1,
        },
    )
}

/// Each link names a signal that is there, or none.
#[tactic(auto, unfolding(crate::specs::Refusals::unknown_signal))]
pub(super) fn unknown_signal(signals: &Signals<'_>, links: &[RawLink]) -> Result<(), BuildFault>
    requires few { length links.now ≤ 64 }
    ensures { result ≡ unless (unknown_signal signals.now links.now) tt }
{
    for (k, link) in links.iter().enumerate() {
        unknown_signal_at(signals, k as u32, link)?;
    }
    Ok(())
}

/// The link names a signal that is there, or none.
fn unknown_signal_at(signals: &Signals<'_>, k: u32, link: &RawLink) -> Result<(), BuildFault>
    ensures { result ≡ unless (unknown_signal_at (signal_names signals.now) k link.now) tt }
{
    match &link.signal {
        Some(name) => refuse_where(
            signals.place_of(name.as_str()).is_none(),
            BuildFault::UnknownSignal { link: k },
        ),
        None => Ok(()),
    }
}
