//! From a certificate to its text.

ghost use Rattle.std.specs.Prelude.{◌≡◌, ◌++◌, ◌∷◌, [], flat_map, map, IfOk, OnOk};
ghost use Rattle.texts.specs.Lines.{line_of_words};
ghost use Rattle.certificate_model.specs.Nodes.{SplitNode};
ghost use Rattle.certificate_model.specs.Text.{bound_line, certificate_text, node_line, pair_words};
ghost use Rattle.cert_format.specs.Marks.{node_of};
ghost use Rattle.cert_format.specs.inner.Spaces.{spaced_pair};

use crate::cert::{Cert, Node};
use crate::number::push_number;
use listed::Memory;
use std::alloc::Global;

/// The bytes that a line takes in most certificates: a few pairs.
const LINE_BYTES: usize = 40;

/// The text of a certificate.
pub fn write(alloc: Global, cert: &Cert) -> Result<Vec<u8>, Memory>
    ensures { IfOk result (λ text. text.items ≡ certificate_text cert.now.bound (map node_of cert.now.nodes)) }
{
    let nodes = cert.nodes.as_slice();
    let mut text = Vec::with_capacity(alloc, nodes.len().saturating_mul(LINE_BYTES))?;
    text.extend_from_slice(b"ctm-cert 1\n")?;
    push_bound(&mut text, cert.bound)?;
    push_nodes(&mut text, nodes)?;
    text.extend_from_slice(b"end\n")?;
    Ok(text)
}

/// Adds the line of the bound.
fn push_bound(text: &mut Vec<u8>, bound: i64) -> Result<(), Memory>
    ensures { OnOk result (text.new.items ≡ text.old.items ++ (bound_line bound ++ 10 ∷ [])) }
{
    text.extend_from_slice(b"bound ")?;
    push_number(text, bound)?;
    text.push(b'\n')?;
    Ok(())
}

/// Adds a line for each node.
fn push_nodes(text: &mut Vec<u8>, nodes: &[Node]) -> Result<(), Memory>
    ensures { OnOk result (text.new.items ≡ text.old.items ++ flat_map (λ node. node_line (node_of node) ++ 10 ∷ []) nodes.now) }
{
    for node in nodes {
        push_node(text, node)?;
    }
    Ok(())
}

/// Adds the line of a node.
fn push_node(text: &mut Vec<u8>, node: &Node) -> Result<(), Memory>
    ensures { OnOk result (text.new.items ≡ text.old.items ++ (node_line (node_of node.now) ++ 10 ∷ [])) }
{
    match node {
        Node::Split { column, at } => push_split(text, *column, *at)?,
        Node::Priced(pairs) => push_leaf(text, b"priced", pairs.as_slice())?,
        Node::Empty(pairs) => push_leaf(text, b"empty", pairs.as_slice())?,
        Node::Fixed => text.extend_from_slice(b"fixed")?,
    }
    text.push(b'\n')?;
    Ok(())
}

/// Adds the words of a split.
fn push_split(text: &mut Vec<u8>, column: u32, at: i64) -> Result<(), Memory>
    ensures { OnOk result (text.new.items ≡ text.old.items ++ node_line (SplitNode column at)) }
{
    text.extend_from_slice(b"split ")?;
    push_number(text, column)?;
    text.push(b' ')?;
    push_number(text, at)?;
    Ok(())
}

/// Adds the first word of a leaf, and its pairs, each word behind a space.
fn push_leaf(text: &mut Vec<u8>, word: &[u8], pairs: &[(u32, i64)]) -> Result<(), Memory>
    ensures { OnOk result (text.new.items ≡ text.old.items ++ line_of_words (word.now ∷ flat_map pair_words pairs.now)) }
{
    text.extend_from_slice(word)?;
    for pair in pairs {
        push_pair(text, *pair)?;
    }
    Ok(())
}

/// Adds a pair, each of its numbers behind a space.
fn push_pair(text: &mut Vec<u8>, pair: (u32, i64)) -> Result<(), Memory>
    ensures { OnOk result (text.new.items ≡ text.old.items ++ spaced_pair pair) }
{
    text.push(b' ')?;
    push_number(text, pair.0)?;
    text.push(b' ')?;
    push_number(text, pair.1)?;
    Ok(())
}
