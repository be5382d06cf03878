//! What can be left out of an unfinished line of a leaf: the pairs behind the first. Its words are walked over two at a time, as a
//! reader of the finished line would; what is left at the end is a part of a pair, and stays.

ghost use Rattle.std.specs.Prelude.{◌≡◌, ◌<◌, ◌||◌, codes, length, MatchOption};
ghost use Rattle.std.specs.Str.{bytes_eq};
ghost use Rattle.cert_format.specs.inner.SparePairs.{Begins, IsBroken, IsSpare, IsSpareOfWords, NamesNoPairs};

use crate::line::{EMPTY, NUMBER_DIGITS, PRICED};
use texts::{natural, price, take_word};

/// The most bytes of a price: 15 digits and a minus.
const PRICE_BYTES: usize = 16;
/// The most bytes of a pair, with a space behind each of its words.
pub(crate) const PAIR_BYTES: usize = NUMBER_DIGITS + 1 + PRICE_BYTES + 1;
/// The most bytes of the line of a leaf before its first pair, and of a pair that is not whole.
pub(crate) const LEAF_BYTES: usize = 7 + NUMBER_DIGITS + 1 + PRICE_BYTES;
/// The most bytes of a line that names no pairs: those of `split`, a column and a whole number. The bound takes fewer.
pub(crate) const OTHER_LINE_BYTES: usize = 6 + NUMBER_DIGITS + 1 + PRICE_BYTES;

/// Bytes of a line that can be left out.
#[derive(Clone, Copy)]
pub(crate) struct Spare {
    /// The place of the first.
    pub start: usize,
    /// The place behind the last.
    pub end: usize,
}

/// How words of a leaf begin.
#[derive(Clone, Copy)]
enum Beginning {
    /// With a pair, which has so many bytes with the space behind each of its words.
    Pair(usize),
    /// With a part of a pair, which is all that there is.
    Part,
    /// With words that are no pair, whatever comes behind them.
    Other,
}

/// The pairs of an unfinished line behind the first, so many of these as are looked at; none where the line can name nothing any more.
/// A line that is no longer than those without pairs may still become one of them.
pub(crate) fn spare_of(line: &[u8], most: usize) -> Option<Spare>
    requires long { OTHER_LINE_BYTES < length line.now }
    ensures { MatchOption result (IsBroken line.now) (IsSpare most line.now) }
{
    let Some((word, words)) = take_word(line) else {
        return None;
    };
    if !may_have_pairs(word) {
        return None;
    }
    let before = line.len() - words.len();
    match spare_of_words(words, most) {
        Some(spare) => Some(Spare {
            start: before + spare.start,
            end: before + spare.end,
        }),
        None => None,
    }
}

/// Whether a line that begins with a word may name pairs.
fn may_have_pairs(word: &[u8]) -> bool
    ensures { result ≡ (bytes_eq word.now (codes "priced") || bytes_eq word.now (codes "empty")) }
{
    if word == PRICED {
        return true;
    }
    word == EMPTY
}

/// The pairs behind the first among the words of a leaf; none where the words can name no pairs any more.
fn spare_of_words(words: &[u8], most: usize) -> Option<Spare>
    ensures { MatchOption result (NamesNoPairs words.now) (IsSpareOfWords most words.now) }
{
    let mut pairs = 0;
    let mut start = 0;
    let mut end = 0;
    'pairs: loop {
        match beginning_of(&words[end..]) {
            Beginning::Pair(count) => {
                end += count;
                if pairs < most {
                    pairs += 1;
                    start = end;
                }
            }
            Beginning::Part => return Some(Spare { start, end }),
            Beginning::Other => return None,
        }
    }
}

/// How words of a leaf begin.
fn beginning_of(words: &[u8]) -> Beginning
    ensures { Begins words.now result }
{
    let Some((row, behind)) = take_word(words) else {
        return if words.len() > NUMBER_DIGITS {
            Beginning::Other
        } else {
            Beginning::Part
        };
    };
    let Some(_) = natural(row, NUMBER_DIGITS) else {
        return Beginning::Other;
    };
    let Some((value, more)) = take_word(behind) else {
        return if behind.len() > PRICE_BYTES {
            Beginning::Other
        } else {
            Beginning::Part
        };
    };
    match price(value) {
        Some(_) => Beginning::Pair(words.len() - more.len()),
        None => Beginning::Other,
    }
}
