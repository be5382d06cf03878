//! Certificates that come in pieces.

ghost use Rattle.std.specs.Prelude.{◌<◌};

use cert_format::{Ending, Event, Mark, Reader, Unfinished, read_node};
use std::alloc::Global;
use std::test::Fail;

/// The certificate of a network over three steps (docs/certificate.md, "Worked by hand").
const TEXT: &str = "ctm-cert 1\n\
    bound 1\n\
    split 2 0\n\
    split 3 0\n\
    empty 5 1\n\
    split 4 0\n\
    split 5 0\n\
    empty 8 1\n\
    fixed\n\
    split 5 0\n\
    fixed\n\
    empty 8 -1\n\
    split 3 0\n\
    split 4 0\n\
    split 5 0\n\
    empty 8 1\n\
    fixed\n\
    empty 3 1\n\
    empty 5 -1\n\
    end\n";

/// What it tells, line by line.
const TOLD: &str = "Head(1)\n\
    Node(Split { column: 2, at: 0 })\n\
    Node(Split { column: 3, at: 0 })\n\
    Node(Empty(Listed { items: [(5, 1)] }))\n\
    Node(Split { column: 4, at: 0 })\n\
    Node(Split { column: 5, at: 0 })\n\
    Node(Empty(Listed { items: [(8, 1)] }))\n\
    Node(Fixed)\n\
    Node(Split { column: 5, at: 0 })\n\
    Node(Fixed)\n\
    Node(Empty(Listed { items: [(8, -1)] }))\n\
    Node(Split { column: 3, at: 0 })\n\
    Node(Split { column: 4, at: 0 })\n\
    Node(Split { column: 5, at: 0 })\n\
    Node(Empty(Listed { items: [(8, 1)] }))\n\
    Node(Fixed)\n\
    Node(Empty(Listed { items: [(3, 1)] }))\n\
    Node(Empty(Listed { items: [(5, -1)] }))\n\
    Whole\n";

/// Pieces one after another, how many of their first bytes are taken, and what these tell.
const PIECES: &[(&str, usize, &str)] = &[
    ("ctm-cert 1", 10, "More"),
    ("\nbou", 4, "More"),
    ("nd 5\nfixed\n", 5, "Head(5)"),
    ("fixed\n", 6, "Node(Fixed)"),
    ("", 0, "More"),
    ("en", 2, "More"),
    ("d\n", 2, "Whole"),
    ("", 0, "More"),
    ("x", 1, "Tail(5)"),
    ("end\n", 4, "Tail(5)"),
];

/// What pieces of so many bytes tell, an event a line. Behind each event another piece begins.
fn told(alloc: Global, text: &[u8], size: usize) -> Result<(String, Ending), Fail>
    requires some { 0 < size }
    requires small { size < 10000 }
{
    let mut events = String::new(alloc);
    let mut reader = Reader::start(alloc);
    let mut at = 0;
    while at < text.len() {
        let end = text.len().min(at + size);
        let (count, event) = reader.feed(&text[at..end])?;
        if !matches!(event, Event::More) {
            writeln!(events, "{event:?}")?;
        }
        at += count;
    }
    Ok((events, reader.finish()))
}

#[test]
fn pieces_of_each_size_tell_the_same(rt: HostRuntime) -> Result<(), Fail> {
    for size in [1, 2, 7, 4096] {
        let (events, ending) = told(rt.alloc(), TEXT.as_bytes(), size)?;
        assert_eq!(rt; events.as_str(), TOLD, "{size}");
        assert_eq!(rt; ending, Ending::Whole, "{size}");
    }
    Ok(())
}

#[test]
fn lines_may_be_cut_anywhere(rt: HostRuntime) -> Result<(), Fail> {
    let mut reader = Reader::start(rt.alloc());
    for (piece, count, event) in PIECES {
        assert!(rt; reader.taken() < 1000 && piece.len() < 1000);
        let (taken, tells) = reader.feed(piece.as_bytes())?;
        assert_eq!(rt; taken, *count, "{piece}");
        assert_eq!(rt;
            format!(in rt.alloc(); "{tells:?}")?.as_str(),
            *event,
            "{piece}"
        );
    }
    assert_eq!(rt; reader.taken(), 34);
    Ok(())
}

#[test]
fn a_line_without_its_end_is_kept_short(rt: HostRuntime) -> Result<(), Fail> {
    let mut line = Unfinished::new(rt.alloc(), 2);
    assert!(rt; line.is_empty());
    line.add(b"priced")?;
    for _ in 0..40_000 {
        line.add(b" 7 -1")?;
    }
    assert!(rt; line.as_slice().len() <= 131_072);
    let mut pairs = Vec::new(rt.alloc());
    assert_eq!(rt;
        read_node(line.as_slice(), 2, &mut pairs)?,
        Some(Mark::Priced)
    );
    assert_eq!(rt; pairs.as_slice(), [(7u32, -1i64), (7, -1)].as_slice());
    line.clear();
    for _ in 0..40_000 {
        line.add(b"fixed")?;
    }
    assert!(rt; line.as_slice().len() <= 131_072);
    assert_eq!(rt; read_node(line.as_slice(), 2, &mut pairs)?, None);
    Ok(())
}
