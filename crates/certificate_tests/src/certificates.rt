//! Verdicts on certificates of two networks that were worked by hand (docs/certificate.md, "Worked by hand").

use crate::networks::{crossing, one_cell};
use cert_check::{Checker, CompileFault, MAX_CERTIFICATE_BYTES, Verdict, Why, verdict};
use ct_base::{Memory, Net, valid};
use std::alloc::Global;
use std::process::Abort;
use std::test::Fail;

/// The certificate of the crossing.
const CROSSING: &[&str] = &[
    "ctm-cert 1",
    "bound 1",
    "split 2 0",
    "split 3 0",
    "empty 5 1",
    "split 4 0",
    "split 5 0",
    "empty 8 1",
    "fixed",
    "split 5 0",
    "fixed",
    "empty 8 -1",
    "split 3 0",
    "split 4 0",
    "split 5 0",
    "empty 8 1",
    "fixed",
    "empty 3 1",
    "empty 5 -1",
    "end",
];

/// A certificate of the one cell.
const ONE_CELL: &[&str] = &["ctm-cert 1", "bound 1", "priced", "end"];

/// The number of a line, what stands there in its place, which line breaks, and why.
type Damage = (usize, &'static str, u64, Why);

/// Damages of the certificate of the crossing.
const OF_CROSSING: &[Damage] = &[
    (1, "ctm-cert 2", 1, Why::Form),
    (2, "bound", 2, Why::Form),
    (2, "bound 2", 9, Why::Weak(1)),
    (5, "end", 5, Why::Form),
    (5, "fixed", 5, Why::NotFixed),
    (5, "split 48 0", 5, Why::Column),
    (5, "split 2 0", 5, Why::Range),
    (8, "fixed", 8, Why::NotPlan),
    (13, "empty 5 -1", 13, Why::NotEmpty(0)),
    (18, "empty 3 -1", 18, Why::Sign),
    (18, "empty 3 1099511627777", 18, Why::Price),
    (20, "fixed", 20, Why::Form),
    (20, "end\nend", 21, Why::Tail),
];

/// Damages of the certificate of the one cell.
const OF_ONE_CELL: &[Damage] = &[
    (2, "bound 2", 3, Why::Weak(1)),
    (2, "bound 999999999999999", 3, Why::Weak(1)),
    (3, "priced 2 1024", 3, Why::Weak(0)),
    (3, "priced 2 1099511627776", 3, Why::Weak(-3_221_225_469)),
    (3, "empty 0 1", 3, Why::NotEmpty(-1)),
    (3, "empty", 3, Why::NotEmpty(0)),
    (3, "priced 5 1", 3, Why::Row),
    (3, "priced 2 1 1 1", 3, Why::Order),
    (3, "priced 2 1099511627777", 3, Why::Price),
    (3, "priced 2 -1", 3, Why::Sign),
    (3, "split 1 2", 3, Why::Range),
    (3, "split 4 0", 3, Why::Column),
];

/// The text of a certificate where the line with a number is another.
fn damaged(alloc: Global, lines: &[&str], number: usize, other: &str) -> Result<Vec<u8>, Memory> {
    let mut text = Vec::new(alloc);
    for (index, line) in lines.iter().enumerate() {
        let line = if index + 1 == number { other } else { *line };
        text.extend_from_slice(line.as_bytes())?;
        text.push(b'\n')?;
    }
    Ok(text)
}

/// The text has a verdict for the network.
fn try_verdict(rt: &impl Abort, alloc: Global, net: &Net, text: &[u8], wanted: Verdict) {
    assert!(rt; valid(net));
    assert!(rt; text.len() as u64 <= MAX_CERTIFICATE_BYTES);
    assert_eq!(rt; verdict(alloc, net, text).ok(), Some(wanted));
}

/// A certificate is accepted with its bound, and each damage is found at its line.
fn try_damages(
    rt: &impl Abort,
    alloc: Global,
    net: &Net,
    lines: &[&str],
    damages: &[Damage],
) -> Result<(), Memory> {
    let text = damaged(alloc, lines, 0, "")?;
    try_verdict(rt, alloc, net, text.as_slice(), Verdict::Accepted(1));
    for (number, other, line, why) in damages {
        let text = damaged(alloc, lines, *number, other)?;
        let wanted = Verdict::Rejected {
            line: *line,
            why: *why,
        };
        try_verdict(rt, alloc, net, text.as_slice(), wanted);
    }
    Ok(())
}

/// The verdict on a text that comes in pieces of so many bytes.
fn verdict_in_pieces(
    rt: &impl Abort,
    alloc: Global,
    net: &Net,
    text: &[u8],
    size: usize,
) -> Result<Verdict, CompileFault> {
    assert!(rt; valid(net));
    assert!(rt; 0 < size);
    let mut checker = Checker::start(alloc, net)?;
    for piece in text.chunks(size) {
        assert!(rt; checker.taken() <= 1_048_576);
        assert!(rt; piece.len() <= 1_048_576);
        checker.feed(net, piece)?;
    }
    assert_eq!(rt; checker.taken(), text.len() as u64);
    Ok(checker.finish())
}

/// A line of the crossing's certificate is another, and the text, which comes in pieces, has a verdict.
fn try_pieces(
    rt: &impl Abort,
    alloc: Global,
    number: usize,
    other: &str,
    wanted: Verdict,
) -> Result<(), Memory> {
    let net = crossing(alloc)?;
    let text = damaged(alloc, CROSSING, number, other)?;
    for size in [1, 2, 7, 65_536] {
        assert_eq!(rt;
            verdict_in_pieces(rt, alloc, &net, text.as_slice(), size).ok(),
            Some(wanted)
        );
    }
    Ok(())
}

#[test]
fn pieces_have_the_verdict_of_the_whole(rt: HostRuntime) -> Result<(), Fail> {
    let alloc = rt.alloc();
    try_pieces(&rt, alloc, 0, "", Verdict::Accepted(1))?;
    for (number, other, line, why) in OF_CROSSING {
        let wanted = Verdict::Rejected {
            line: *line,
            why: *why,
        };
        try_pieces(&rt, alloc, *number, other, wanted)?;
    }
    Ok(())
}

#[test]
fn the_crossing_takes_a_delay_of_1(rt: HostRuntime) -> Result<(), Fail> {
    let alloc = rt.alloc();
    try_damages(&rt, alloc, &crossing(alloc)?, CROSSING, OF_CROSSING)?;
    Ok(())
}

#[test]
fn the_one_cell_takes_a_delay_of_1(rt: HostRuntime) -> Result<(), Fail> {
    let alloc = rt.alloc();
    try_damages(&rt, alloc, &one_cell(alloc)?, ONE_CELL, OF_ONE_CELL)?;
    Ok(())
}
