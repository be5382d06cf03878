//! The bytes of a line whose line feed has not come yet.

ghost use Rattle.std.specs.Prelude.{◌≡◌, ◌<◌, ◌≤◌, ◌==◌, ◌++◌, ℕ, List, [], length, OnOk};
ghost use Rattle.cert_format.specs.Unfinished.{ReadsAs, kept_bytes, leaf_bytes};
ghost use Rattle.cert_format.specs.declared.spare.TheConstants.{OTHER_LINE_BYTES};

use crate::spare::spare_of;
use listed::Memory;
use std::alloc::Global;
use std::marker::Model;

/// How many bytes are taken at once, at most: what is kept grows by no more before it is looked at.
const STEP_BYTES: usize = 65_536;
/// How many bytes are kept, at least, before they are looked at: more than most lines have.
const UNSEEN_BYTES: usize = 131_072;

/// The bytes of a line whose line feed has not come yet, as far as they count. A finished line is read once, as a whole; so bytes are
/// kept as they come, and where there are many they are looked at. Of a line that can still name a leaf what counts are its first word,
/// the first of its pairs, so many as the caller looks at, and a part of a pair at its end; all other pairs are pairs, which is all that
/// is asked of them. A line that can name nothing any more counts as one space, which can name nothing either.
///
/// A pair has at most 27 bytes, so the longest line that is not cut short has 27 for each pair that is looked at, and 33. Bytes are looked
/// at where there are more than 131,072 and more than twice those that were left of the last look. So no more are kept than 131,072, or
/// than 54 for each pair and 66 where that is more (`kept_bytes`), 65,536 more while they are added, and room for as many again in the
/// vector: a line of 100 MB without its end takes no more memory than that. Between two looks more bytes come than the first has left, so
/// all looks together pass over at most twice the bytes that came.
#[derive(Debug, Drop)]
pub struct Unfinished {
    kept: Vec<u8>,
    /// How many of the pairs of a leaf are looked at.
    most: usize,
    /// How many bytes may be kept before they are looked at.
    mark: usize,
}

impl Model for Unfinished {
    ghost use Rattle.std.specs.Prelude.{◌≤◌, length};
    ghost use Rattle.cert_format.specs.Unfinished.{Kept, kept_bytes};
    ghost use Rattle.cert_format.specs.declared.unfinished.TheConstants.{UNSEEN_BYTES};

    ghost Value = { Kept };

    ghost view = { λ parts. record { bytes = parts.kept.items; most = parts.most } };

    ghost invariant = { λ parts. (length parts.kept.items ≤ parts.mark) × (UNSEEN_BYTES ≤ parts.mark) × (parts.mark ≤ kept_bytes parts.most) };
}

impl Unfinished {
    /// No bytes, of a line of which so many pairs are looked at. It takes no memory.
    pub fn new(alloc: Global, most: usize) -> Self
        ensures bytes { result.bytes ≡ [] }
        ensures most { result.most ≡ most }
    {
        Unfinished {
            kept: Vec::new(alloc),
            most,
            mark: UNSEEN_BYTES,
        }
    }

    /// Adds bytes of the line, and keeps those that count. Where memory is wanting, nothing is known of what is kept.
    pub fn add(&mut self, bytes: &[u8]) -> Result<(), Memory>
        ensures reads { (line : List ℕ) → ReadsAs self.old.most self.old.bytes line → OnOk result (ReadsAs self.old.most self.new.bytes (line ++ bytes.now)) }
        ensures most { self.new.most ≡ self.old.most }
    {
        let mut at = 0;
        while at < bytes.len() {
            let end = bytes.len().min(at + STEP_BYTES);
            self.add_step(&bytes[at..end])?;
            at = end;
        }
        Ok(())
    }

    /// Adds some of the bytes, and looks at all where there are many.
    fn add_step(&mut self, bytes: &[u8]) -> Result<(), Memory>
        ensures reads { (line : List ℕ) → ReadsAs self.old.most self.old.bytes line → OnOk result (ReadsAs self.old.most self.new.bytes (line ++ bytes.now)) }
        ensures most { self.new.most ≡ self.old.most }
    {
        self.kept.extend_from_slice(bytes)?;
        if self.kept.len() > self.mark {
            shorten(&mut self.kept, self.most);
            self.mark = mark_over(self.kept.len());
        }
        Ok(())
    }

    /// The bytes that are kept, which are read as those of the line.
    pub fn as_slice(&self) -> &[u8]
        ensures bytes { result.now ≡ self.now.bytes }
        ensures few { length result.now ≤ kept_bytes self.now.most }
    {
        self.kept.as_slice()
    }

    /// Whether the line has no byte yet.
    pub fn is_empty(&self) -> bool
        ensures { result ≡ (length self.now.bytes == 0) }
    {
        self.kept.is_empty()
    }

    /// Makes room for another line. The memory stays.
    pub fn clear(&mut self)
        ensures bytes { self.new.bytes ≡ [] }
        ensures most { self.new.most ≡ self.old.most }
    {
        self.kept.clear();
        self.mark = UNSEEN_BYTES;
    }
}

/// How many bytes may be kept before they are looked at again, where so many are left.
fn mark_over(left: usize) -> usize
    ensures above { left ≤ result }
    ensures least { UNSEEN_BYTES ≤ result }
    ensures below { (most : ℕ) → left ≤ leaf_bytes most → result ≤ kept_bytes most }
{
    UNSEEN_BYTES.max(left.saturating_mul(2))
}

/// Leaves out the pairs behind the first, or all of a line that can name nothing any more, in place of which a space is kept.
fn shorten(kept: &mut Vec<u8>, most: usize)
    requires long { OTHER_LINE_BYTES < length kept.old.items }
    ensures reads { ReadsAs most kept.new.items kept.old.items }
    ensures few { length kept.new.items ≤ leaf_bytes most }
{
    match spare_of(kept.as_slice(), most) {
        Some(spare) => {
            let left = spare.start + (kept.len() - spare.end);
            kept.copy_within(spare.end.., spare.start);
            kept.truncate(left);
        }
        None => {
            kept.truncate(1);
            kept[0] = b' ';
        }
    }
}
