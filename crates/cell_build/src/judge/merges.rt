//! The rules `fed` and `openmerge`: a link that is led into has no demand of its own, and where several lead in, they are
//! apart by greens of one signal.

ghost use Rattle.std.specs.Prelude.{◌≡◌, ◌≢◌, ◌<◌, ◌≤◌, length, map, None, All};
ghost use Rattle.std.specs.List.{list_all, list_any};
ghost use Rattle.cell_build.specs.Link.{gate_of};
ghost use Rattle.cell_build.specs.Refusals.{are_apart, fed, fed_at, feeders, is_apart, leads_to, open_merge, open_merge_at};
ghost use Rattle.refusals.specs.Faults.{unless};
ghost use Rattle.network_file.specs.Range.{IsSignalInRange};

use crate::by_name::Signals;
use crate::fault::BuildFault;
use crate::gate::gate_of;
use crate::judge::outs::leads_to;
use crate::judge::refusal::refuse_where;
use ct_base::Gate;
use network_file::RawLink;

/// No link with demand is led into.
#[tactic(auto, unfolding(crate::specs::Refusals::fed))]
pub(super) fn fed(links: &[RawLink]) -> Result<(), BuildFault>
    requires few { length links.now ≤ 64 }
    ensures { result ≡ unless (fed links.now) tt }
{
    for (k, link) in links.iter().enumerate() {
        fed_at(links, k as u32, link)?;
    }
    Ok(())
}

/// The link has no demand, or is not led into.
fn fed_at(links: &[RawLink], k: u32, link: &RawLink) -> Result<(), BuildFault>
    ensures { result ≡ unless (fed_at links.now k link.now) tt }
{
    refuse_where(
        !link.pieces.as_slice().is_empty() && is_led_into(links, link.name.as_str()),
        BuildFault::Fed { link: k },
    )
}

/// Whether some link leads to the one of this name.
fn is_led_into(links: &[RawLink], name: &str) -> bool
    ensures { result ≡ list_any (λ feeder. leads_to feeder name.now) links.now }
{
    links.iter().any(|link| leads_to(link, name))
}

/// The links that lead into one are apart.
#[tactic(auto, unfolding(crate::specs::Refusals::open_merge))]
pub(super) fn open_merge(signals: &Signals<'_>, links: &[RawLink]) -> Result<(), BuildFault>
    requires few { length links.now ≤ 64 }
    requires few_signals { length signals.now ≤ 16 }
    requires in_range { All IsSignalInRange signals.now }
    requires known { All (λ link. link.signal ≢ None → 0 < length signals.now) links.now }
    ensures { result ≡ unless (open_merge signals.now links.now) tt }
{
    for (k, link) in links.iter().enumerate() {
        open_merge_at(signals, links, k as u32, link)?;
    }
    Ok(())
}

/// The links that lead into the link are apart.
fn open_merge_at(
    signals: &Signals<'_>,
    links: &[RawLink],
    k: u32,
    link: &RawLink,
) -> Result<(), BuildFault>
    requires few_signals { length signals.now ≤ 16 }
    requires in_range { All IsSignalInRange signals.now }
    requires known { All (λ link. link.signal ≢ None → 0 < length signals.now) links.now }
    ensures { result ≡ unless (open_merge_at signals.now links.now k link.now) tt }
{
    refuse_where(
        !are_apart(signals, links, link.name.as_str()),
        BuildFault::OpenMerge { link: k },
    )
}

/// Whether of the links that lead to the one of this name each two are apart. Each is compared with those after it.
fn are_apart(signals: &Signals<'_>, links: &[RawLink], name: &str) -> bool
    requires few_signals { length signals.now ≤ 16 }
    requires in_range { All IsSignalInRange signals.now }
    requires known { All (λ link. link.signal ≢ None → 0 < length signals.now) links.now }
    ensures { result ≡ are_apart (map (gate_of signals.now) (feeders links.now name.now)) }
{
    match links {
        [] => true,
        [link, later @ ..] => {
            if leads_to(link, name) {
                is_apart_from_all(gate_of(signals, link), signals, later, name)
                    && are_apart(signals, later, name)
            } else {
                are_apart(signals, later, name)
            }
        }
    }
}

/// Whether the gate is apart from those of all links that lead to the one of this name.
fn is_apart_from_all(
    gate: Option<Gate>,
    signals: &Signals<'_>,
    links: &[RawLink],
    name: &str,
) -> bool
    requires few_signals { length signals.now ≤ 16 }
    requires in_range { All IsSignalInRange signals.now }
    requires known { All (λ link. link.signal ≢ None → 0 < length signals.now) links.now }
    ensures { result ≡ list_all (is_apart gate) (map (gate_of signals.now) (feeders links.now name.now)) }
{
    match links {
        [] => true,
        [link, later @ ..] => {
            if leads_to(link, name) {
                is_apart(gate, gate_of(signals, link))
                    && is_apart_from_all(gate, signals, later, name)
            } else {
                is_apart_from_all(gate, signals, later, name)
            }
        }
    }
}

/// Whether two gates are of one signal, with no phase in common.
fn is_apart(first: Option<Gate>, second: Option<Gate>) -> bool
    ensures { result ≡ is_apart first second }
{
    match first {
        Some(g) => match second {
            Some(h) => g.signal == h.signal && g.greens & h.greens == 0,
            None => false,
        },
        None => false,
    }
}
