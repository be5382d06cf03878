//! What one line of a certificate tells, and what has to come behind it.

ghost use Rattle.std.specs.Prelude.{◌≡◌, ◌+◌, ◌<◌, ◌^◌, ℕ, ℤ, List, Some, option_map, IfOk};
ghost use Rattle.certificate_model.specs.Text.{node_in};
ghost use Rattle.cert_format.specs.Fronts.{awaited_behind};
ghost use Rattle.cert_format.specs.Marks.{marked, node_of};
ghost use Rattle.cert_format.specs.inner.Counts.{awaited_in};
ghost use Rattle.cert_format.specs.inner.LineReads.{Follows, IsAwaited, IsLineRead};
ghost use Rattle.cert_format.specs.declared.next.Next.TheVariants.{Head, Bound, Subtrees};

use crate::cert::Node;
use crate::event::Event;
use crate::line::{Mark, is_end, is_head, read_bound, read_node};
use crate::next::Next;
use listed::{Listed, Memory};
use std::alloc::Global;

/// What has to come behind a line, and what the line tells.
pub(crate) fn read_line(
    next: Next,
    number: u64,
    line: &[u8],
    pairs: &mut Vec<(u32, i64)>,
) -> Result<(Next, Event), Memory>
    requires awaited { IsAwaited next }
    requires few { awaited_in next + 2 < 2 ^ 64 }
    ensures read { IfOk result (λ read. IsLineRead next number line.now read.0 read.1) }
    ensures follows { IfOk result (λ read. Follows next read.0 read.1) }
{
    match next {
        Next::Head => Ok(read_head(number, line)),
        Next::Bound => Ok(read_bound_line(number, line)),
        Next::Subtrees(0) => Ok(read_end(number, line)),
        Next::Subtrees(awaited) => read_node_line(awaited, number, line, pairs),
        Next::Nothing | Next::BadForm(_) | Next::Tail(_) => unreachable!(),
    }
}

/// The same of the first line.
fn read_head(number: u64, line: &[u8]) -> (Next, Event)
    ensures read { IsLineRead Head number line.now result.0 result.1 }
    ensures follows { Follows Head result.0 result.1 }
{
    if is_head(line) {
        (Next::Bound, Event::More)
    } else {
        (Next::BadForm(number), Event::BadForm(number))
    }
}

/// The same of the bound.
fn read_bound_line(number: u64, line: &[u8]) -> (Next, Event)
    ensures read { IsLineRead Bound number line.now result.0 result.1 }
    ensures follows { Follows Bound result.0 result.1 }
{
    match read_bound(line) {
        Some(bound) => (Next::Subtrees(1), Event::Head(bound)),
        None => (Next::BadForm(number), Event::BadForm(number)),
    }
}

/// The same of the last line.
fn read_end(number: u64, line: &[u8]) -> (Next, Event)
    ensures read { IsLineRead (Subtrees 0) number line.now result.0 result.1 }
    ensures follows { Follows (Subtrees 0) result.0 result.1 }
{
    if is_end(line) {
        (Next::Nothing, Event::Whole)
    } else {
        (Next::BadForm(number), Event::BadForm(number))
    }
}

/// The same of a node, where so many subtrees are to come with its own.
fn read_node_line(
    awaited: u64,
    number: u64,
    line: &[u8],
    pairs: &mut Vec<(u32, i64)>,
) -> Result<(Next, Event), Memory>
    requires some { 0 < awaited }
    requires few { awaited + 2 < 2 ^ 64 }
    ensures read { IfOk result (λ read. IsLineRead (Subtrees awaited) number line.now read.0 read.1) }
    ensures follows { IfOk result (λ read. Follows (Subtrees awaited) read.0 read.1) }
{
    match read_whole_node(line, pairs)? {
        Some(mark) => {
            let node = node_of(*pairs.allocator(), mark, pairs.as_slice())?;
            let awaited = awaited_behind(mark, awaited - 1);
            Ok((Next::Subtrees(awaited), Event::Node(node)))
        }
        None => Ok((Next::BadForm(number), Event::BadForm(number))),
    }
}

/// The node that a line names, with all pairs: a line has fewer of them than bytes.
fn read_whole_node(line: &[u8], pairs: &mut Vec<(u32, i64)>) -> Result<Option<Mark>, Memory>
    ensures { IfOk result (λ mark. node_in line.now ≡ marked mark pairs.new.items) }
{
    read_node(line, line.len(), pairs)
}

/// How many subtrees are to come behind a node, where so many are to come besides its own.
fn awaited_behind(mark: Mark, others: u64) -> u64
    requires { others + 2 < 2 ^ 64 }
    ensures { (pairs : List (ℕ × ℤ)) → Some result ≡ option_map (λ node. awaited_behind node others) (marked (Some mark) pairs) }
{
    match mark {
        Mark::Split { .. } => others + 2,
        Mark::Priced | Mark::Empty | Mark::Fixed => others,
    }
}

/// The node of a line whose pairs stand apart.
fn node_of(alloc: Global, mark: Mark, pairs: &[(u32, i64)]) -> Result<Node, Memory>
    ensures { IfOk result (λ node. Some (node_of node) ≡ marked (Some mark) pairs.now) }
{
    match mark {
        Mark::Split { column, at } => Ok(Node::Split { column, at }),
        Mark::Priced => {
            let pairs = Vec::from_slice(alloc, pairs)?;
            Ok(Node::Priced(Listed::of(pairs)))
        }
        Mark::Empty => {
            let pairs = Vec::from_slice(alloc, pairs)?;
            Ok(Node::Empty(Listed::of(pairs)))
        }
        Mark::Fixed => Ok(Node::Fixed),
    }
}
