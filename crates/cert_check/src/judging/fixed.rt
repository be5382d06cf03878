//! Fixed leaves.

ghost use Rattle.std.specs.Prelude.{◌≡◌, ℤ, IfOk, IfSome, MatchOption, MatchResult};
ghost use Rattle.ct_base.specs.Validity.{IsValid};
ghost use Rattle.program_model.specs.Points.{program_of};
ghost use Rattle.safe_bound.specs.Costed.{IsCostedOf};
ghost use Rattle.certificate_model.specs.Leaves.{IsGoodFixed};
ghost use Rattle.certificate_model.specs.Reasons.{FixedReason, IsUnfixed};
ghost use Rattle.cert_check.specs.inner.Fixed.{AreLeft};
ghost use Rattle.cert_check.specs.inner.Known.{FixesDelay, IsKnown, IsReplayed};

use crate::known::{Known, Replayed, replayed_delay};
use certificate_model::Why;
use ct_base::{Memory, Net};
use plan_bits::plan_of_bits;
use safe_bound::CostedBox;
use sparse_program::Program;
use std::alloc::Global;

/// The first reason why a fixed leaf is not good in its box. The plan is replayed only where its delay is not known, and
/// from the first step on at which it shows other letters than the plan that was replayed last.
pub fn fixed_reason(
    alloc: Global,
    net: &Net,
    program: &Program,
    costed: &CostedBox,
    known: &mut Known,
    bound: i64,
) -> Result<Option<Why>, Memory>
    requires valid { IsValid net.now }
    requires program { program.now ≡ program_of net.now }
    requires of { IsCostedOf program.now costed.now }
    requires known { IsKnown net.now costed.now.box known.old }
    ensures reason { IfOk result (λ found. MatchOption found (IsGoodFixed net.now bound costed.now.box) (FixedReason net.now bound costed.now.box)) }
    ensures known { IsKnown net.now costed.now.box known.new }
{
    if let Some(delay) = known.delay {
        return Ok(weak_reason(net, costed, delay, bound));
    }
    match fixed_delay(alloc, net, program, costed, &mut known.last)? {
        Ok(delay) => {
            known.delay = Some(delay);
            Ok(weak_reason(net, costed, delay, bound))
        }
        Err(why) => Ok(Some(why)),
    }
}

/// Whether the delay of the plan that a box fixes is below the bound.
fn weak_reason(net: &Net, costed: &CostedBox, delay: u64, bound: i64) -> Option<Why>
    requires fixes { FixesDelay net.now costed.now.box delay }
    ensures { MatchOption result (IsGoodFixed net.now bound costed.now.box) (FixedReason net.now bound costed.now.box) }
{
    let delay = i128::from(delay);
    if delay < i128::from(bound) {
        Some(Why::Weak(delay))
    } else {
        None
    }
}

/// The delay of the plan that a box fixes, or the reason why it fixes none.
fn fixed_delay(
    alloc: Global,
    net: &Net,
    program: &Program,
    costed: &CostedBox,
    last: &mut Option<Replayed>,
) -> Result<Result<u64, Why>, Memory>
    requires valid { IsValid net.now }
    requires program { program.now ≡ program_of net.now }
    requires of { IsCostedOf program.now costed.now }
    requires last { IfSome last.old (IsReplayed net.now) }
    ensures found { IfOk result (λ found. MatchResult found (FixesDelay net.now costed.now.box) (λ why. (bound : ℤ) → FixedReason net.now bound costed.now.box why)) }
    ensures last { IfSome last.new (IsReplayed net.now) }
{
    let bits = match fixed_bits(alloc, net, program, costed)? {
        Some(bits) => bits,
        None => return Ok(Err(Why::NotFixed)),
    };
    match plan_of_bits(alloc, net, bits.as_slice())? {
        Some(plan) => Ok(Ok(replayed_delay(alloc, net, last, plan)?)),
        None => Ok(Err(Why::NotPlan)),
    }
}

/// The values of the plan columns, where the box leaves each of them one.
fn fixed_bits(
    alloc: Global,
    net: &Net,
    program: &Program,
    costed: &CostedBox,
) -> Result<Option<Vec<i64>>, Memory>
    requires program { program.now ≡ program_of net.now }
    requires of { IsCostedOf program.now costed.now }
    ensures { IfOk result (λ found. MatchOption found (IsUnfixed net.now costed.now.box) (λ bits. AreLeft net.now costed.now.box bits.items)) }
{
    costed.is_box();
    let mut bits = Vec::new(alloc);
    for j in 0..program.plan_cols() {
        let low = costed.low(j);
        if low < costed.high(j) {
            return Ok(None);
        }
        bits.push(low)?;
    }
    Ok(Some(bits))
}
