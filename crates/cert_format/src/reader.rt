//! A certificate that comes in pieces.

ghost use Rattle.std.specs.Prelude.{◌≡◌, ◌<◌, ◌≤◌, ◌+◌, ◌^◌, ℕ, List, [], ◌++◌, length, take, None, Some, IfOk, IsErr, IsSome, OnErr, OnOk};
ghost use Rattle.cert_format.specs.Fronts.{front_of};
ghost use Rattle.cert_format.specs.Readers.{Consumes, IsFed, StandsFor};
ghost use Rattle.cert_format.specs.Unfinished.{ReadsAs};
ghost use Rattle.cert_format.specs.inner.Counts.{IsCounted, awaited_in};
ghost use Rattle.cert_format.specs.inner.LineReads.{ConsumesLine, Follows, IsAwaited, IsLineRead};

use crate::event::Event;
use crate::next::{Next, ending_at, next_with, told_at};
use crate::reading::Ending;
use crate::step::read_line;
use crate::unfinished::Unfinished;
use listed::Memory;
use std::alloc::Global;
use std::marker::Model;
use texts::take_line;

/// How many of the pairs of a leaf are looked at: all of them.
const ALL_PAIRS: usize = usize::MAX;

/// A reader of a certificate that comes in pieces. It holds the line that is not finished and what has to come next, and nothing else.
#[derive(Debug, Drop)]
pub struct Reader {
    unfinished: Unfinished,
    /// The pairs of the line of a leaf. The vector serves for all lines.
    pairs: Vec<(u32, i64)>,
    /// The number of the line that comes next, from 1.
    line: u64,
    /// What has to come next; nothing once memory was wanting.
    next: Option<Next>,
    /// How many bytes were taken.
    taken: u64,
}

impl Model for Reader {
    ghost use Rattle.std.specs.Prelude.{◌≡◌};
    ghost use Rattle.cert_format.specs.Readers.{Reading};
    ghost use Rattle.cert_format.specs.inner.Counts.{IsCounted};
    ghost use Rattle.cert_format.specs.declared.reader.TheConstants.{ALL_PAIRS};

    ghost Value = { Reading };

    ghost view = { λ parts. record { next = parts.next; line = parts.line; bytes = parts.unfinished.bytes; taken = parts.taken } };

    ghost invariant = { λ parts. (parts.unfinished.most ≡ ALL_PAIRS) × IsCounted parts.next parts.line parts.taken };
}

impl Reader {
    /// A reader before the first byte. It takes no memory.
    pub fn start(alloc: Global) -> Self
        ensures stands { StandsFor result [] }
        ensures taken { result.taken ≡ 0 }
        ensures ready { IsSome result.next }
    {
        Reader {
            unfinished: Unfinished::new(alloc, ALL_PAIRS),
            pairs: Vec::new(alloc),
            line: 1,
            next: Some(Next::Head),
            taken: 0,
        }
    }

    /// Takes bytes of a piece, up to the first event, and answers how many they are and what they tell. Behind a line that is of no form,
    /// and behind a byte that stands behind the end, each further call takes its whole piece and answers the same. Once memory was wanting,
    /// it stays so.
    pub fn feed(&mut self, piece: &[u8]) -> Result<(usize, Event), Memory>
        requires few { self.old.taken + length piece.now < 2 ^ 63 }
        ensures fed { (text : List ℕ) → StandsFor self.old text → IfOk result (λ fed. IsFed text (take fed.0 piece.now) fed.1 self.new) }
        ensures consumed { IfOk result (λ fed. Consumes self.old.next piece.now fed.0 fed.1) }
        ensures taken { IfOk result (λ fed. self.new.taken ≡ self.old.taken + fed.0) }
        ensures ready { OnOk result (IsSome self.new.next) }
        ensures wanting { OnErr result ((self.new.next ≡ None) × (self.new.taken ≡ self.old.taken)) }
        ensures again { self.old.next ≡ None → IsErr result }
    {
        let taken = self.taken;
        let fed = self.feed_lines(piece);
        if fed.is_err() {
            self.next = None;
            self.taken = taken;
        }
        fed
    }

    /// The same, but where memory is wanting the count of bytes is not set back. The first line tells nothing: the one behind it does.
    fn feed_lines(&mut self, piece: &[u8]) -> Result<(usize, Event), Memory>
        requires few { self.old.taken + length piece.now < 2 ^ 63 }
        ensures fed { (text : List ℕ) → StandsFor self.old text → IfOk result (λ fed. IsFed text (take fed.0 piece.now) fed.1 self.new) }
        ensures consumed { IfOk result (λ fed. Consumes self.old.next piece.now fed.0 fed.1) }
        ensures taken { IfOk result (λ fed. self.new.taken ≡ self.old.taken + fed.0) }
        ensures ready { OnOk result (IsSome self.new.next) }
        ensures again { self.old.next ≡ None → IsErr result }
    {
        let (count, event) = self.feed_line(piece)?;
        match event {
            Event::More if count < piece.len() => {
                let (more, event) = self.feed_line(&piece[count..])?;
                Ok((count + more, event))
            }
            event => Ok((count, event)),
        }
    }

    /// The same, up to the end of one line at most.
    fn feed_line(&mut self, piece: &[u8]) -> Result<(usize, Event), Memory>
        requires few { self.old.taken + length piece.now < 2 ^ 63 }
        ensures fed { (text : List ℕ) → StandsFor self.old text → IfOk result (λ fed. IsFed text (take fed.0 piece.now) fed.1 self.new) }
        ensures consumed { IfOk result (λ fed. ConsumesLine self.old.next self.new.next piece.now fed.0 fed.1) }
        ensures taken { IfOk result (λ fed. self.new.taken ≡ self.old.taken + fed.0) }
        ensures ready { OnOk result (IsSome self.new.next) }
        ensures again { self.old.next ≡ None → IsErr result }
    {
        let Some(next) = self.next.take() else {
            return Err(Memory);
        };
        let next = next_with(next, self.line, piece);
        match told_at(next) {
            Some(event) => {
                self.next = Some(next);
                self.taken += piece.len() as u64;
                Ok((piece.len(), event))
            }
            None => self.feed_awaited(next, piece),
        }
    }

    /// The same, where a line has to come.
    fn feed_awaited(&mut self, next: Next, piece: &[u8]) -> Result<(usize, Event), Memory>
        requires awaited { IsAwaited next }
        requires counted { IsCounted (Some next) self.old.line self.old.taken }
        requires few { self.old.taken + length piece.now < 2 ^ 63 }
        ensures fed { (text : List ℕ) → StandsFor (record self.old { next = Some next }) text → IfOk result (λ fed. IsFed text (take fed.0 piece.now) fed.1 self.new) }
        ensures consumed { IfOk result (λ fed. ConsumesLine (Some next) self.new.next piece.now fed.0 fed.1) }
        ensures taken { IfOk result (λ fed. self.new.taken ≡ self.old.taken + fed.0) }
        ensures ready { OnOk result (IsSome self.new.next) }
    {
        match take_line(piece) {
            Some((part, behind)) => {
                let (next, event) = self.finish_line(next, part)?;
                let count = piece.len() - behind.len();
                self.next = Some(next);
                self.line += 1;
                self.taken += count as u64;
                Ok((count, event))
            }
            None => {
                self.unfinished.add(piece)?;
                self.next = Some(next);
                self.taken += piece.len() as u64;
                Ok((piece.len(), Event::More))
            }
        }
    }

    /// Takes the whole line of which the last bytes are here, and answers what has to come behind it and what it tells.
    fn finish_line(&mut self, next: Next, part: &[u8]) -> Result<(Next, Event), Memory>
        requires awaited { IsAwaited next }
        requires few { awaited_in next + 2 < 2 ^ 64 }
        ensures read { (line : List ℕ) → ReadsAs ALL_PAIRS self.old.bytes line → length line + length part.now ≤ ALL_PAIRS →
            IfOk result (λ read. IsLineRead next self.old.line (line ++ part.now) read.0 read.1) }
        ensures follows { IfOk result (λ read. Follows next read.0 read.1) }
        ensures bytes { OnOk result (self.new.bytes ≡ []) }
        ensures same { (self.new.next ≡ self.old.next) × (self.new.line ≡ self.old.line) × (self.new.taken ≡ self.old.taken) }
    {
        if self.unfinished.is_empty() {
            return read_line(next, self.line, part, &mut self.pairs);
        }
        self.unfinished.add(part)?;
        let line = self.unfinished.as_slice();
        let read = read_line(next, self.line, line, &mut self.pairs)?;
        self.unfinished.clear();
        Ok(read)
    }

    /// How the text ends, where nothing more comes.
    pub fn finish(self) -> Ending
        requires { IsSome self.next }
        ensures { (text : List ℕ) → StandsFor self text → result ≡ (front_of text).ending }
    {
        match self.next {
            Some(next) => ending_at(next, self.line),
            None => unreachable!(),
        }
    }

    /// How many bytes were taken by the feeds that did not want memory.
    pub fn taken(&self) -> u64
        ensures { result ≡ self.now.taken }
    {
        self.taken
    }
}
