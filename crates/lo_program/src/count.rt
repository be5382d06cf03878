//! How many rows the program of a network has, counted without building them.

ghost use Rattle.std.specs.Prelude.{◌≡◌, length};
ghost use Rattle.ct_base.specs.Validity.{IsValid};
ghost use Rattle.program_model.specs.Points.{rows};

mod flows;
mod rules;

use ct_base::Net;
use flows::flow_row_count;
pub use rules::rule_row_count;

/// How many rows the program of a network has, counted without building them. It takes no memory.
pub fn row_count(net: &Net) -> u64
    requires { IsValid net.now }
    ensures value { result ≡ length (rows net.now) }
{
    rule_row_count(net) + flow_row_count(net)
}
