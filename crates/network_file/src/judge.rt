//! The first fault of a file, stage by stage: keys, then ranges, then names. Nothing is copied and no memory is taken.

ghost use Rattle.std.specs.Prelude.{◌≡◌, ◌+◌};
ghost use Rattle.network_file.specs.Refusals.{faults_of, number};
ghost use Rattle.refusals.specs.Faults.{unless, where_so};
ghost use Rattle.toml.specs.View.{table_view};

mod names;
mod table;
mod walk;

use crate::fault::NetFault;
use crate::judge::names::judge_all_names;
use crate::judge::table::Stage;
use crate::judge::walk::judge_tables;
use toml::Table;

/// Refuses the first fault of a key, or else of a range, or else of a name.
#[tactic(auto, using(crate::proofs::RawNetwork::stages))]
pub fn judge(top: &Table) -> Result<(), NetFault>
    ensures { result ≡ unless (faults_of (table_view top.now)) tt }
{
    judge_tables(Stage::Keys, top)?;
    judge_tables(Stage::Ranges, top)?;
    judge_all_names(top)
}

/// Refuses with the fault where the test holds.
fn refuse_where(holds: bool, fault: NetFault) -> Result<(), NetFault>
    ensures { result ≡ unless (where_so holds fault) tt }
{
    if holds { Err(fault) } else { Ok(()) }
}

/// The number after k, as 32 bits hold it.
fn number_after(k: u32) -> u32
    ensures { result ≡ number (k + 1) }
{
    k.saturating_add(1)
}
