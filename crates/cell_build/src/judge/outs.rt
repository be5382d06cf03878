//! The rules `outboth`, `itself` and `twiceturn`: a link does not lead in two ways at once, to itself, or twice to one.

ghost use Rattle.std.specs.Prelude.{◌≡◌, ◌≤◌, length, take, All};
ghost use Rattle.std.specs.List.{list_any};
ghost use Rattle.std.specs.Str.{bytes_eq};
ghost use Rattle.cell_build.specs.Names.{name_in};
ghost use Rattle.cell_build.specs.Refusals.{itself, itself_at, leads_to, out_both, out_both_at, twice_turn, twice_turn_at, twice_turn_in};
ghost use Rattle.refusals.specs.Faults.{per_item, unless};
ghost use Rattle.network_file.specs.Range.{IsLinkInRange};

use crate::fault::BuildFault;
use crate::judge::refusal::refuse_where;
use network_file::{Name, RawLink};

/// No link has both `to` and `turns`.
#[tactic(auto, unfolding(crate::specs::Refusals::out_both))]
pub(super) fn out_both(links: &[RawLink]) -> Result<(), BuildFault>
    requires few { length links.now ≤ 64 }
    ensures { result ≡ unless (out_both links.now) tt }
{
    for (k, link) in links.iter().enumerate() {
        out_both_at(k as u32, link)?;
    }
    Ok(())
}

/// The link has not both `to` and `turns`.
fn out_both_at(k: u32, link: &RawLink) -> Result<(), BuildFault>
    ensures { result ≡ unless (out_both_at k link.now) tt }
{
    refuse_where(
        link.to.is_some() && !link.turns.as_slice().is_empty(),
        BuildFault::OutBoth { link: k },
    )
}

/// No link leads to itself.
#[tactic(auto, unfolding(crate::specs::Refusals::itself))]
pub(super) fn itself(links: &[RawLink]) -> Result<(), BuildFault>
    requires few { length links.now ≤ 64 }
    ensures { result ≡ unless (itself links.now) tt }
{
    for (k, link) in links.iter().enumerate() {
        itself_at(k as u32, link)?;
    }
    Ok(())
}

/// The link does not lead to itself.
fn itself_at(k: u32, link: &RawLink) -> Result<(), BuildFault>
    ensures { result ≡ unless (itself_at k link.now) tt }
{
    refuse_where(
        leads_to(link, link.name.as_str()),
        BuildFault::Itself { link: k },
    )
}

/// Whether a link leads to the one of this name, by `to` or by a branch.
#[tactic(auto, using(crate::proofs::NameLaws::list_any_led_to))]
pub(super) fn leads_to(link: &RawLink, name: &str) -> bool
    ensures { result ≡ leads_to link.now name.now }
{
    is_name(&link.to, name) || is_among(link.turns.as_slice(), name)
}

/// Whether there is a name, and it is this one.
fn is_name(to: &Option<Name>, name: &str) -> bool
    ensures { result ≡ list_any (bytes_eq name.now) (name_in to.now) }
{
    match to {
        Some(led_to) => name == led_to.as_str(),
        None => false,
    }
}

/// Whether a branch leads to the link of this name.
fn is_among(turns: &[(Name, u32)], name: &str) -> bool
    ensures { result ≡ list_any (λ turn. bytes_eq name.now turn.0) turns.now }
{
    turns.iter().any(|turn| name == turn.0.as_str())
}

/// No branch leads where an earlier one of its link does.
#[tactic(auto, unfolding(crate::specs::Refusals::twice_turn))]
pub(super) fn twice_turn(links: &[RawLink]) -> Result<(), BuildFault>
    requires few { length links.now ≤ 64 }
    requires in_range { All IsLinkInRange links.now }
    ensures { result ≡ unless (twice_turn links.now) tt }
{
    for (k, link) in links.iter().enumerate() {
        twice_turn_at(k as u32, link)?;
    }
    Ok(())
}

/// No branch of the link leads where an earlier one does.
fn twice_turn_at(k: u32, link: &RawLink) -> Result<(), BuildFault>
    requires in_range { IsLinkInRange link.now }
    ensures { result ≡ unless (twice_turn_at k link.now) tt }
{
    twice_turn_of(k, link.turns.as_slice())
}

/// No branch leads where an earlier one does.
fn twice_turn_of(k: u32, turns: &[(Name, u32)]) -> Result<(), BuildFault>
    requires few { length turns.now ≤ 4 }
    ensures { result ≡ unless (per_item turns.now (twice_turn_in turns.now k)) tt }
{
    for (j, turn) in turns.iter().enumerate() {
        twice_turn_in(turns, k, j, turn)?;
    }
    Ok(())
}

/// The branch does not lead where an earlier one does.
fn twice_turn_in(
    turns: &[(Name, u32)],
    k: u32,
    j: usize,
    turn: &(Name, u32),
) -> Result<(), BuildFault>
    requires few { length turns.now ≤ 4 }
    requires within { j ≤ length turns.now }
    ensures { result ≡ unless (twice_turn_in turns.now k j turn.now) tt }
{
    refuse_where(
        is_among(&turns[..j], turn.0.as_str()),
        BuildFault::TwiceTurn {
            link: k,
            place: j as u32,
        },
    )
}
