//! Numbers of which each has one spelling. A text is read in one pass, which takes no memory.

ghost use Rattle.std.specs.Prelude.{◌≡◌, ◌≤◌, ◌<◌, ◌^◌, IfSome, unsigned_abs};
ghost use Rattle.texts.specs.Numbers.{natural_in, negative, price_in, starts_natural, whole_in};

/// The most digits of a whole number.
const WHOLE_DIGITS: usize = 15;

/// The number that a text spells: `0`, or at most so many digits of which the first is not 0.
pub fn natural(text: &[u8], digits: usize) -> Option<u64>
    requires { digits ≤ 18 }
    ensures value { result ≡ natural_in digits text.now }
    ensures small { IfSome result (λ n. n < 10 ^ digits) }
{
    if !starts_natural(text, digits) {
        return None;
    }
    let mut value = 0;
    for byte in text {
        if !byte.is_ascii_digit() {
            return None;
        }
        value = value * 10 + u64::from(*byte - b'0');
    }
    Some(value)
}

/// Whether a text has one byte, or at most so many of which the first is not `0`.
fn starts_natural(text: &[u8], digits: usize) -> bool
    ensures { result ≡ starts_natural digits text.now }
{
    match text {
        [first, rest @ ..] => text.len() <= digits && (*first != b'0' || rest.is_empty()),
        [] => false,
    }
}

/// The whole number that a text spells: `0`, or at most 15 digits of which the first is not 0, with or without a minus before them.
pub fn whole(text: &[u8]) -> Option<i64>
    ensures value { result ≡ whole_in text.now }
    ensures small { IfSome result (λ n. unsigned_abs n < 10 ^ 15) }
{
    match text {
        [first, digits @ ..] if *first == b'-' => negative(natural(digits, WHOLE_DIGITS)?),
        _ => Some(natural(text, WHOLE_DIGITS)? as i64),
    }
}

/// The number behind a minus, which is never 0.
fn negative(number: u64) -> Option<i64>
    requires { number < 10 ^ 15 }
    ensures value { result ≡ negative (Some number) }
    ensures small { IfSome result (λ n. unsigned_abs n < 10 ^ 15) }
{
    if number == 0 {
        return None;
    }
    Some(-(number as i64))
}

/// The price that a text spells: a whole number other than 0.
pub fn price(text: &[u8]) -> Option<i64>
    ensures value { result ≡ price_in text.now }
    ensures small { IfSome result (λ n. (0 < unsigned_abs n) × (unsigned_abs n < 10 ^ 15)) }
{
    match whole(text) {
        Some(0) | None => None,
        Some(price) => Some(price),
    }
}
