//! Whether a node is good in its box.

mod fixed;
mod pairs;
mod split;

ghost use Rattle.std.specs.Prelude.{◌≡◌, IfOk, MatchOption};
ghost use Rattle.ct_base.specs.Validity.{IsValid};
ghost use Rattle.program_model.specs.Points.{program_of};
ghost use Rattle.safe_bound.specs.Costed.{IsCostedOf};
ghost use Rattle.certificate_model.specs.Reasons.{IsGoodNode, NodeReason};
ghost use Rattle.certificate_model.specs.Text.{IsSpelled};
ghost use Rattle.cert_check.specs.inner.Known.{IsKnown, node_with};

use crate::known::Known;
use cert_format::Mark;
use certificate_model::Why;
use ct_base::{Memory, Net};
use fixed::fixed_reason;
use pairs::{empty_reason, priced_reason};
use safe_bound::CostedBox;
use sparse_program::Program;
use split::split_reason;
use std::alloc::Global;

/// The first reason why a node is not good in its box, or none.
pub(crate) fn judge(
    alloc: Global,
    net: &Net,
    program: &Program,
    costed: &mut CostedBox,
    known: &mut Known,
    bound: i64,
    mark: Mark,
    pairs: &[(u32, i64)],
) -> Result<Option<Why>, Memory>
    requires valid { IsValid net.now }
    requires program { program.now ≡ program_of net.now }
    requires of { IsCostedOf program.now costed.old }
    requires spelled { IsSpelled (node_with mark pairs.now) }
    requires known { IsKnown net.now costed.old.box known.old }
    ensures reason { IfOk result (λ found. MatchOption found (IsGoodNode net.now bound costed.old.box (node_with mark pairs.now)) (λ why. NodeReason net.now bound costed.old.box (node_with mark pairs.now) why)) }
    ensures same { costed.new ≡ costed.old }
    ensures known { IsKnown net.now costed.new.box known.new }
{
    match mark {
        Mark::Split { column, at } => Ok(split_reason(costed, column, at)),
        Mark::Priced => Ok(priced_reason(net, program, costed, bound, pairs)),
        Mark::Empty => Ok(empty_reason(net, program, costed, pairs)),
        Mark::Fixed => fixed_reason(alloc, net, program, costed, known, bound),
    }
}
