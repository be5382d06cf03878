//! From the bytes of a network file to its links and signals.

ghost use Rattle.std.specs.Prelude.{◌≡◌, All, IfOk, codes};
ghost use Rattle.network_file.specs.Documents.{tables_at};
ghost use Rattle.network_file.specs.inner.Judged.{HasFewRates};
ghost use Rattle.network_file.specs.Range.{IsInRange};
ghost use Rattle.network_file.specs.Refusals.{has_format};
ghost use Rattle.network_file.specs.Spelled.{network_of, raw_network, spelled_by};
ghost use Rattle.refusals.specs.Memory.{OrMemory};
ghost use Rattle.toml.specs.View.{table_view};

use crate::document::{find, items_at, number_at};
use crate::fault::NetFault;
use crate::judge::judge;
use crate::kinds::is_whole_within;
use crate::link::links_of;
use crate::raw::RawNet;
use crate::signal::signals_of;
use ct_base::Memory;
use std::alloc::Global;
use toml::Table;

/// The one version of the file that is read.
const FORMAT: u32 = 1;

/// The network that the bytes of a file spell, or the first refusal. These are judged one kind after another, and each in
/// all of the file: no document, another format, a key at fault, a value out of range, a name that stands twice.
///
/// Want of memory may come with any bytes, and says nothing of them.
#[tactic(auto, using(crate::proofs::RawNetwork::raw_network_laws))]
pub fn read(alloc: Global, bytes: &[u8]) -> Result<RawNet, NetFault>
    ensures value { OrMemory NetFault.Memory (raw_network bytes.now) result }
    ensures in_range { IfOk result IsInRange }
{
    match toml::table_from_slice(alloc, bytes) {
        Ok(top) => spelled_by(alloc, &top),
        Err(error) if error.is_memory() => Err(NetFault::Memory),
        Err(_) => Err(NetFault::Toml),
    }
}

/// The network that the top table of a document spells, or its first refusal. Nothing is read before all was judged.
#[tactic(auto, using(crate::proofs::RangeLaws::judged), unfolding(crate::specs::Spelled::spelled_by))]
fn spelled_by(alloc: Global, top: &Table) -> Result<RawNet, NetFault>
    ensures value { OrMemory NetFault.Memory (spelled_by (table_view top.now)) result }
    ensures in_range { IfOk result IsInRange }
{
    if !has_format(top) {
        return Err(NetFault::Format);
    }
    judge(top)?;
    let net = network_of(alloc, top)?;
    Ok(net)
}

/// Whether the format stands and is the one that is read.
fn has_format(top: &Table) -> bool
    ensures { result ≡ has_format (table_view top.now) }
{
    match find(top, "format") {
        Some(value) => is_whole_within(value, FORMAT, FORMAT),
        None => false,
    }
}

/// The network, as the top table of a document spells it.
#[tactic(auto, using(crate::proofs::TableWalks::walks), unfolding(crate::specs::Spelled::network_of))]
fn network_of(alloc: Global, top: &Table) -> Result<RawNet, Memory>
    requires few_rates { All HasFewRates (tables_at (codes "link") (table_view top.now)) }
    ensures { IfOk result (λ net. net ≡ network_of (table_view top.now)) }
{
    let links = links_of(alloc, items_at(top, "link"))?;
    let signals = signals_of(alloc, items_at(top, "signal"))?;
    Ok(RawNet {
        steps: number_at(top, "steps", 0),
        links,
        signals,
    })
}
