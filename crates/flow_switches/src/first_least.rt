//! The first least of some numbers.

ghost use Rattle.std.specs.Prelude.{◌<◌, length};
ghost use Rattle.flow_switches.specs.FirstLeast.{IsFirstLeast};

/// The place and the value of the first least number. It takes no memory.
pub fn least(terms: &[i64]) -> (usize, i64)
    requires { 0 < length terms.now }
    ensures { IsFirstLeast terms.now result.0 result.1 }
{
    let mut place = 0;
    let mut value = terms[0];
    for (k, term) in terms.iter().enumerate() {
        if *term < value {
            place = k;
            value = *term;
        }
    }
    (place, value)
}
