//! The lines of a certificate.

ghost use Rattle.std.specs.Prelude.{◌≡◌, ◌≤◌, ◌++◌, ◌∷◌, [], ℕ, ℤ, List, length, take, IfOk, OnOk, option_map};
ghost use Rattle.std.specs.Str.{bytes_eq};
ghost use Rattle.texts.specs.Lines.{words_of};
ghost use Rattle.certificate_model.specs.Text.{bound_in, end_line, head_line, node_in, node_of_words, pairs_in, split_in};
ghost use Rattle.cert_format.specs.Marks.{marked, with_first};
ghost use Rattle.cert_format.specs.inner.Pairs.{pair_in, pairs_where};

use listed::Memory;
use texts::{natural, price, take_word, whole};

/// The first line.
const HEAD: &[u8] = b"ctm-cert 1";
/// The last line.
const END: &[u8] = b"end";
/// The first word of the line of the bound.
const BOUND: &[u8] = b"bound";
/// The first word of the line of a split.
const SPLIT: &[u8] = b"split";
/// The first word of the line of a priced leaf.
pub(crate) const PRICED: &[u8] = b"priced";
/// The first word of the line of an empty leaf.
pub(crate) const EMPTY: &[u8] = b"empty";
/// The line of a fixed leaf.
const FIXED: &[u8] = b"fixed";

/// The most digits of the number of a column or of a row.
pub(crate) const NUMBER_DIGITS: usize = 9;

/// What a line says of a node. The pairs of a leaf stand apart.
#[derive(Clone, Copy, Debug, PartialEq, Eq)]
pub enum Mark {
    /// A column, and the value at which its bounds are cut in two.
    Split { column: u32, at: i64 },
    /// A leaf whose prices give the bound.
    Priced,
    /// A leaf whose prices show that no point lies in its box.
    Empty,
    /// A leaf whose box has one plan alone.
    Fixed,
}

/// Whether a line is the first of a certificate.
pub fn is_head(line: &[u8]) -> bool
    ensures { result ≡ bytes_eq line.now head_line }
{
    line == HEAD
}

/// Whether a line is the last of a certificate.
pub fn is_end(line: &[u8]) -> bool
    ensures { result ≡ bytes_eq line.now end_line }
{
    line == END
}

/// The bound that a line names.
pub fn read_bound(line: &[u8]) -> Option<i64>
    ensures { result ≡ bound_in line.now }
{
    match take_word(line) {
        Some((word, number)) => { if word == BOUND { whole(number) } else { None } }
        None => None,
    }
}

/// The node that a line names. Of the pairs of a leaf the first are kept, so many at most, and the others are judged for their form
/// alone. They take the place of those that were there.
pub fn read_node(
    line: &[u8],
    most: usize,
    pairs: &mut Vec<(u32, i64)>,
) -> Result<Option<Mark>, Memory>
    ensures node { IfOk result (λ mark. option_map (with_first most) (node_in line.now) ≡ marked mark pairs.new.items) }
    ensures few { OnOk result (length pairs.new.items ≤ most) }
{
    pairs.clear();
    match take_word(line) {
        Some((word, words)) => read_words(word, words, most, pairs),
        None => Ok(read_word(line)),
    }
}

/// The node that a first word and the words behind it name.
fn read_words(
    word: &[u8],
    words: &[u8],
    most: usize,
    pairs: &mut Vec<(u32, i64)>,
) -> Result<Option<Mark>, Memory>
    requires none { pairs.old.items ≡ [] }
    ensures node { IfOk result (λ mark. option_map (with_first most) (node_of_words (word.now ∷ words_of words.now)) ≡ marked mark pairs.new.items) }
    ensures few { OnOk result (length pairs.new.items ≤ most) }
{
    if word == SPLIT {
        return Ok(read_split(words));
    }
    if word == PRICED {
        let all = read_pairs(words, most, pairs)?;
        return Ok(all.then_some(Mark::Priced));
    }
    if word == EMPTY {
        let all = read_pairs(words, most, pairs)?;
        return Ok(all.then_some(Mark::Empty));
    }
    Ok(None)
}

/// The node that one word names. It has no pairs.
fn read_word(word: &[u8]) -> Option<Mark>
    ensures { node_of_words (word.now ∷ []) ≡ marked result [] }
{
    if word == PRICED {
        return Some(Mark::Priced);
    }
    if word == EMPTY {
        return Some(Mark::Empty);
    }
    if word == FIXED {
        return Some(Mark::Fixed);
    }
    None
}

/// The split that two words name.
fn read_split(words: &[u8]) -> Option<Mark>
    ensures { (pairs : List (ℕ × ℤ)) → marked result pairs ≡ split_in (words_of words.now) }
{
    let (column, at) = take_word(words)?;
    let column = natural(column, NUMBER_DIGITS)?;
    let at = whole(at)?;
    Some(Mark::Split {
        column: column as u32,
        at,
    })
}

/// Adds the first of the pairs that words name, two words each, and says whether there is no word that belongs to none.
fn read_pairs(words: &[u8], most: usize, pairs: &mut Vec<(u32, i64)>) -> Result<bool, Memory>
    requires none { pairs.old.items ≡ [] }
    ensures first { IfOk result (λ all. option_map (take most) (pairs_in (words_of words.now)) ≡ pairs_where all pairs.new.items) }
    ensures few { OnOk result (length pairs.new.items ≤ most) }
{
    let mut rest = words;
    while let Some((row, behind)) = take_word(rest) {
        match take_word(behind) {
            Some((price, more)) => {
                if !push_pair(row, price, most, pairs)? {
                    return Ok(false);
                }
                rest = more;
            }
            None => return push_pair(row, behind, most, pairs),
        }
    }
    Ok(false)
}

/// Adds the pair that two words name, where fewer are kept than may be, and says whether they name one.
fn push_pair(
    row: &[u8],
    value: &[u8],
    most: usize,
    pairs: &mut Vec<(u32, i64)>,
) -> Result<bool, Memory>
    requires few { length pairs.old.items ≤ most }
    ensures first { IfOk result (λ is. pairs_where is pairs.new.items ≡ option_map (λ pair. take most (pairs.old.items ++ pair ∷ [])) (pair_in row.now value.now)) }
    ensures few { OnOk result (length pairs.new.items ≤ most) }
{
    let Some(row) = natural(row, NUMBER_DIGITS) else {
        return Ok(false);
    };
    let Some(value) = price(value) else {
        return Ok(false);
    };
    if pairs.len() < most {
        pairs.push((row as u32, value))?;
    }
    Ok(true)
}
