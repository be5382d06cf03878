//! Splits.

ghost use Rattle.std.specs.Prelude.{◌≡◌};
ghost use Rattle.certificate_model.specs.Reasons.{split_reasons};
ghost use Rattle.cert_check.specs.inner.Firsts.{first_of};

use certificate_model::Why;
use safe_bound::CostedBox;

/// The first reason why a split is not one of its box.
pub fn split_reason(costed: &CostedBox, column: u32, at: i64) -> Option<Why>
    ensures { result ≡ first_of (split_reasons costed.now.box column at) }
{
    if column >= costed.cols() {
        return Some(Why::Column);
    }
    if at < costed.low(column) || costed.high(column) <= at {
        return Some(Why::Range);
    }
    None
}
